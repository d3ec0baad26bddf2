// The header of a volume file, and its length.
ghost use Rattle.std.specs.Prelude.{◌+◌, ◌*◌, ◌≤◌, ◌≡◌, length, eqb, IfOk};
ghost use Rattle.volume_file.specs.Format.{image_sectors_of, journal_sectors_of, own_sectors_of, sizes_ok, header_ok, home_sectors, number_sectors, file_sectors, head_refusal};
ghost use Rattle.volume_file.specs.Reasons.{outcome};

use super::refusals::Refusal;
use layout::bytes::block;
use layout::number::get32;

// How many sectors the parts of a home have: the image, its journal and the program's own.
#[derive(Clone, Copy)]
pub struct Sizes {
    pub image: u32,
    pub journal: u32,
    pub own: u32,
}

// Those that a header sector tells.
pub fn told(head: &[u8]) -> Sizes
    requires { length head.now ≡ 512 }
    ensures image { result.image ≡ image_sectors_of head.now }
    ensures journal { result.journal ≡ journal_sectors_of head.now }
    ensures own { result.own ≡ own_sectors_of head.now }
{
    Sizes {
        image: get32(head, 12),
        journal: get32(head, 16),
        own: get32(head, 20),
    }
}

impl Sizes {
    // Whether they are in their ranges.
    pub fn in_range(self) -> bool
        ensures { result ≡ sizes_ok self.image self.journal self.own }
    {
        (3..=65536).contains(&self.image) && (1..=131072).contains(&self.journal) && self.own <= 128
    }

    // How many sectors the home has.
    pub fn home(self) -> usize
        ensures { result ≡ self.image + self.journal + self.own }
    {
        self.image as usize + self.journal as usize + self.own as usize
    }
}

// Whether a header sector is right.
fn header_ok(head: &[u8]) -> bool
    requires { length head.now ≡ 512 }
    ensures { result ≡ header_ok head.now }
{
    let signed = layout::bytes::equal(&head[..12], b"BulgeVol\x00\x01\x00\x00");
    signed && told(head).in_range() && layout::bytes::all_zero(&head[24..])
}

// How many home sectors a file has.
pub fn home_sectors(file: &[u8]) -> usize
    requires { 512 ≤ length file.now }
    ensures { result ≡ home_sectors file.now }
{
    told(block(file, 0)).home()
}

// How many sectors k + 1 numbers of the log take.
pub fn number_sectors(k: usize) -> usize
    requires { k ≤ 196736 }
    ensures { result ≡ number_sectors k }
{
    (k + 128) / 128
}

// How many bytes a file of h home sectors has.
pub fn file_length(h: usize) -> usize
    requires { h ≤ 196736 }
    ensures { result ≡ 512 * file_sectors h }
{
    512 * (2 + h + number_sectors(h) + h)
}

// The home sectors of a file with a right header and the length that goes with it.
pub fn accepted(file: &[u8]) -> Result<usize, Refusal>
    ensures number { outcome result ≡ head_refusal file.now }
    ensures home { IfOk result (λ h. h ≡ home_sectors file.now) }
{
    if file.len() < 1024 {
        return Err(Refusal::TooShort);
    }
    if !header_ok(block(file, 0)) {
        return Err(Refusal::BadHeader);
    }
    let h = home_sectors(file);
    if file.len() != file_length(h) {
        return Err(Refusal::BadLength);
    }
    Ok(h)
}
