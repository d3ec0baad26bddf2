// Where the parts of a volume file stand, for a program that reads and writes it.
ghost use Rattle.std.specs.Prelude.{◌≤◌, ◌≡◌, IfSome};
ghost use Rattle.layout.specs.Looks.{Extent as ExtentAnswer};
ghost use Rattle.volume_file.specs.Format.{file_size};
ghost use Rattle.volume_file.specs.Answers.{PartsAnswer, parts_of, home_extent, home_told};

use super::header::{Sizes, told};
use layout::bytes::block;

// The refusal, or 0; 1 if the log waits; and offsets and lengths of image, journal and the program's own bytes.
#[repr(C)]
#[derive(Drop, Default)]
pub struct Parts {
    pub number: u32,
    pub waits: u32,
    pub image_start: u32,
    pub image_length: u32,
    pub journal_start: u32,
    pub journal_length: u32,
    pub own_start: u32,
    pub own_length: u32,
}

// Some bytes of a file.
#[repr(C)]
#[derive(Drop, Default)]
pub struct Extent {
    pub start: u32,
    pub length: u32,
}

// How many bytes a file of n, m and x has; 0 if one of them is out of its range.
pub fn file_size(n: u32, m: u32, x: u32) -> usize
    ensures { result ≡ file_size n m x }
{
    let sizes = Sizes {
        image: n,
        journal: m,
        own: x,
    };
    if !sizes.in_range() {
        return 0;
    }
    super::header::file_length(sizes.home())
}

// The parts of a file, whatever its bytes are.
pub fn parts_of(file: &[u8]) -> Parts
    ensures { ◌≡◌ {A = PartsAnswer} (record { number = result.number; waits = result.waits; image_start = result.image_start; image_length = result.image_length; journal_start = result.journal_start; journal_length = result.journal_length; own_start = result.own_start; own_length = result.own_length }) (parts_of file.now) }
{
    if let Err(why) = super::check::accepted(file) {
        return Parts {
            number: why.number(),
            ..Parts::default()
        };
    }
    let sizes = told(block(file, 0));
    let n = 512 * sizes.image;
    let m = 512 * sizes.journal;
    Parts {
        number: 0,
        waits: u32::from(super::log::log_waits(file)),
        image_start: 1024,
        image_length: n,
        journal_start: 1024 + n,
        journal_length: m,
        own_start: 1024 + n + m,
        own_length: 512 * sizes.own,
    }
}

// The home sector that the log names at this index, if there is one.
fn home_sector(file: &[u8], index: usize) -> Option<usize>
    ensures sector { home_told result ≡ home_extent file.now index }
    ensures small { IfSome result (λ a. a ≤ 196736) }
{
    let h = super::check::accepted(file).ok()?;
    if h <= index {
        return None;
    }
    let a = super::log::address(file, h, index);
    (a < h).then_some(a)
}

// Where the sector of the log with this index has its home; of length 0 where there is none.
pub fn home_extent(file: &[u8], index: usize) -> Extent
    ensures { ◌≡◌ {A = ExtentAnswer} (record { start = result.start; size = result.length }) (home_extent file.now index) }
{
    let Some(a) = home_sector(file, index) else {
        return Extent::default();
    };
    Extent {
        start: (512 * (2 + a)) as u32,
        length: 512,
    }
}
