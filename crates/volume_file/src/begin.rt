// A new volume file.
ghost use Rattle.std.specs.Prelude.{◌+◌, ◌≤◌, ◌≡◌, length};
ghost use Rattle.layout.specs.Bytes.{splice};
ghost use Rattle.volume_file.specs.Begin.{header_sector, begin_refusal, after_begin};
ghost use Rattle.volume_file.specs.Reasons.{outcome};

use super::header::Sizes;
use super::refusals::Refusal;
use volume::number::put32;

// Writes the header.
fn write_header(file: &mut [u8], sizes: Sizes)
    requires { 1024 ≤ length file.old }
    ensures { file.new ≡ splice file.old 0 (header_sector sizes.image sizes.journal sizes.own) }
{
    layout::bytes::copy(b"BulgeVol\x00\x01\x00\x00", &mut file[..12]);
    put32(file, 12, sizes.image);
    put32(file, 16, sizes.journal);
    put32(file, 20, sizes.own);
    file[24..512].fill(0);
}

// Whether there can be a file of these sizes.
fn fits(file: &[u8], sizes: Sizes) -> Result<(), Refusal>
    ensures { outcome result ≡ begin_refusal file.now sizes.image sizes.journal sizes.own }
{
    if !sizes.in_range() {
        return Err(Refusal::BadHeader);
    }
    if file.len() != super::header::file_length(sizes.home()) {
        return Err(Refusal::BadLength);
    }
    Ok(())
}

// Makes a file of these sizes.
fn made(file: &mut [u8], sizes: Sizes) -> Result<(), Refusal>
    ensures answer { outcome result ≡ begin_refusal file.old sizes.image sizes.journal sizes.own }
    ensures file { file.new ≡ after_begin file.old sizes.image sizes.journal sizes.own }
{
    fits(file, sizes)?;
    write_header(file, sizes);
    super::log::set_flag(file, 0);
    Ok(())
}

// Makes a volume file of an image of n sectors, a journal of m and x sectors of the program's own, which stand from byte 1,024 on. Gives the refusal.
pub fn begin(file: &mut [u8], n: u32, m: u32, x: u32) -> u32
    ensures answer { result ≡ begin_refusal file.old n m x }
    ensures file { file.new ≡ after_begin file.old n m x }
{
    let sizes = Sizes {
        image: n,
        journal: m,
        own: x,
    };
    super::refusals::outcome(made(file, sizes))
}
