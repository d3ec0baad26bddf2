// The calls that only look.
ghost use Rattle.std.specs.Prelude.{◌+◌, ◌*◌, ◌/◌, ◌≤◌, ◌<◌, ◌≡◌, length};
ghost use Rattle.layout.specs.Directory.{is_file};
ghost use Rattle.layout.specs.Looks.{lookup_refusal, lookup, extent_of, look_in_place, read, read_attributes};
ghost use Rattle.layout.specs.Answers.{lookup_answer, read_answer};
ghost use Rattle.layout.specs.Walks.Looks.{Opened};

use super::file::File;
use super::refusal::Refusal;

// What looking up gives.
#[derive(Clone, Copy, Debug, PartialEq, Eq, Drop)]
pub struct Found {
    pub slot: u32,
    pub size: u32,
    pub blocks: u32,
}

// The file of a path, or the refusal, 1 to 7, 9, 17 or 10.
fn open_file(image: &[u8], path: &[u8]) -> Result<File, Refusal>
    ensures { Opened is_file image.now path.now (lookup_refusal image.now path.now) result }
{
    super::check::check(image)?;
    super::file::open_file(image, path)
}

// Look up: slot, size and blocks of the file of a path.
pub fn lookup(image: &[u8], path: &[u8]) -> Result<Found, Refusal>
    ensures { lookup_answer result ≡ lookup image.now path.now }
{
    let file = open_file(image, path)?;
    Ok(Found {
        slot: file.slot as u32,
        size: file.size as u32,
        blocks: file.blocks as u32,
    })
}

// Where a part of the image begins, and how long it is.
#[derive(Clone, Copy, Debug, PartialEq, Eq, Drop)]
pub struct Extent {
    pub start: usize,
    pub size: usize,
}

// The part of no bytes.
fn no_extent() -> Extent
    ensures { (result.start ≡ 0) × (result.size ≡ 0) }
{
    Extent { start: 0, size: 0 }
}

// The part that look in place gives, as numbers.
pub fn extent_in_place(image: &[u8], path: &[u8], index: usize) -> Extent
    ensures { (result.start ≡ (extent_of image.now path.now index).start)
        × (result.size ≡ (extent_of image.now path.now index).size)
        × (result.start + result.size ≤ length image.now) }
{
    let Ok(file) = open_file(image, path) else {
        return no_extent();
    };
    if file.blocks <= index {
        return no_extent();
    }
    let n = image.len() / 512;
    let b = super::table::nth(image, n, file.first, file.blocks, index);
    Extent {
        start: 512 * b,
        size: (file.size - 512 * index).min(512),
    }
}

// Look in place: the image's own bytes of the file's block `index`, up to the file's end; empty if there are none.
pub fn look_in_place<'a>(image: &'a [u8], path: &[u8], index: usize) -> &'a [u8]
    ensures bytes { result.now ≡ look_in_place image.now path.now index }
    ensures place { result.ref_ptr ≡ (image.entry.ref_ptr.0, (extent_of image.now path.now index).start + image.entry.ref_ptr.1) }
{
    let part = extent_in_place(image, path, index);
    &image[part.start..part.start + part.size]
}

// Read: fills the first bytes of the buffer with the file's bytes from offset on; gives their count.
pub fn read(image: &[u8], path: &[u8], offset: usize, buffer: &mut [u8]) -> Result<usize, Refusal>
    ensures { read_answer result buffer.new ≡ read image.now path.now offset buffer.old }
{
    let file = open_file(image, path)?;
    if file.size < offset {
        return Err(Refusal::BadOffset);
    }
    let count = buffer.len().min(file.size - offset);
    let n = image.len() / 512;
    super::content::read_chain(
        image,
        n,
        file.blocks,
        file.first,
        offset,
        &mut buffer[..count],
    );
    Ok(count)
}

// Read attributes: fills the first bytes of the buffer with the file's attributes, as many whole blocks as there are and it holds; gives their count.
pub fn read_attributes(image: &[u8], path: &[u8], buffer: &mut [u8]) -> Result<usize, Refusal>
    ensures { read_answer result buffer.new ≡ read_attributes image.now path.now buffer.old }
{
    let file = open_file(image, path)?;
    let chain = super::file::attribute_chain(image, file.block, file.slot);
    let count = 512 * chain.blocks.min(buffer.len() / 512);
    let n = image.len() / 512;
    super::content::read_chain(image, n, chain.blocks, chain.first, 0, &mut buffer[..count]);
    Ok(count)
}
