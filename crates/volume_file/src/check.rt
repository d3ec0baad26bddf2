// Whether bytes are a volume file.
ghost use Rattle.std.specs.Prelude.{◌≡◌, IfOk};
ghost use Rattle.volume_file.specs.Format.{home_sectors, file_refusal};
ghost use Rattle.volume_file.specs.Reasons.{outcome};

use super::refusals::Refusal;

// The home sectors of a volume file.
pub(crate) fn accepted(file: &[u8]) -> Result<usize, Refusal>
    ensures number { outcome result ≡ file_refusal file.now }
    ensures home { IfOk result (λ h. h ≡ home_sectors file.now) }
{
    let h = super::header::accepted(file)?;
    if let Some(k) = super::log::waiting(file, h) {
        super::log::accepted(file, h, k)?;
    }
    Ok(h)
}

// Why bytes are no volume file; 0 if they are one.
pub fn refusal(file: &[u8]) -> u32
    ensures { result ≡ file_refusal file.now }
{
    super::refusals::outcome(accepted(file))
}
