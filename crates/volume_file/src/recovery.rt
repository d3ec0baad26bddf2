// Recovery: the sectors of the log are written to their home, and then nothing waits.
ghost use Rattle.std.specs.Prelude.{◌+◌, ◌*◌, ◌≤◌, true, cond, Some, None, IfOk, ◌≡◌, length};
ghost use Rattle.layout.specs.Bytes.{block, part, splice};
ghost use Rattle.volume_file.specs.Format.{home_at, saved_at, file_sectors, address, rising, waits, log_count, file_refusal};
ghost use Rattle.volume_file.specs.Save.{restored, after_recover};
ghost use Rattle.volume_file.specs.Answers.{recover_answered, recover_answer};
ghost use Rattle.volume_file.specs.Reasons.{outcome};

use super::refusals::Refusal;

// The refusal, or 0; 1 if the log waited; and how many of its sectors were written home.
#[repr(C)]
#[derive(Drop, Default)]
pub struct Recovered {
    pub number: u32,
    pub waited: u32,
    pub sectors: u32,
}

// Writes the j-th sector of the log to its home, which is before it.
fn restore_one(file: &mut [u8], h: usize, j: usize)
    requires { (h ≤ 196736) × (j + 1 ≤ h) × (length file.old ≡ 512 * file_sectors h) × (address h file.old j + 1 ≤ h) }
    ensures { file.new ≡ splice file.old (512 * home_at (address h file.old j)) (block file.old (saved_at h j)) }
{
    let x = super::log::address(file, h, j);
    let from = 512 * super::log::saved_at(h, j);
    let to = 512 * (2 + x);
    file.copy_within(from..from + 512, to);
}

// Writes the first k sectors of the log to their home.
fn restore(file: &mut [u8], h: usize, k: usize)
    requires { (h ≤ 196736) × (k ≤ h) × (length file.old ≡ 512 * file_sectors h) × (rising h file.old h k ≡ true) }
    ensures { file.new ≡ restored h file.old k }
{
    for j in 0..k {
        restore_one(file, h, j);
    }
}

// Finishes a save that was cut. Gives how many sectors were written home, if the log waited.
fn finish(file: &mut [u8]) -> Result<Option<u32>, Refusal>
    ensures number { outcome result ≡ file_refusal file.old }
    ensures sectors { IfOk result (λ k. k ≡ cond (waits file.old) (Some (log_count file.old)) None) }
    ensures file { file.new ≡ after_recover file.old }
{
    let h = super::check::accepted(file)?;
    let Some(k) = super::log::waiting(file, h) else {
        return Ok(None);
    };
    restore(file, h, k);
    super::log::set_flag(file, 0);
    Ok(Some(k as u32))
}

// Steps 3 and 4 of a save, or what is left of them after a cut: recovers a file, whatever its bytes are.
pub fn recover(file: &mut [u8]) -> Recovered
    ensures answer { recover_answered result.number result.waited result.sectors ≡ recover_answer file.old }
    ensures file { file.new ≡ after_recover file.old }
{
    match finish(file) {
        Ok(None) => Recovered::default(),
        Ok(Some(sectors)) => Recovered {
            number: 0,
            waited: 1,
            sectors,
        },
        Err(why) => Recovered {
            number: why.number(),
            ..Recovered::default()
        },
    }
}
