// The file, and the child directory, of a path in a sound image.
ghost use Rattle.std.specs.Prelude.{◌+◌, ◌*◌, ◌≤◌, ◌≡◌, length};
ghost use Rattle.layout.specs.Lists.{within};
ghost use Rattle.layout.specs.Directory.{attribute_block_of, attribute_size_of, is_file, is_directory};
ghost use Rattle.layout.specs.Check.{check};
ghost use Rattle.layout.specs.Paths.{file_refusal, directory_refusal};
ghost use Rattle.layout.specs.Reasons.{outcome};
ghost use Rattle.layout.specs.Walks.Looks.{form_refusal, whole_refusal, found_refusal, Opened};
ghost use Rattle.layout.specs.Walks.Paths.{PathGiven};
ghost use Rattle.layout.specs.Walks.Slots.{entry_at};

use super::directory::number_at;
use super::limits::MAX_LEVELS;
use super::refusal::Refusal;

// An entry that was looked for: where it is, and its numbers.
#[derive(Clone, Copy, Drop)]
pub struct File {
    pub slot: usize,
    pub block: usize,
    pub first: usize,
    pub size: usize,
    pub blocks: usize,
}

// The refusals of a path by itself, 9 and 17.
pub fn path_refusal(path: &[u8]) -> Result<(), Refusal>
    ensures { outcome result ≡ form_refusal path.now }
{
    let Some(parts) = super::path::path_parts(path) else {
        return Err(Refusal::BadArgument);
    };
    if MAX_LEVELS < parts - 1 {
        return Err(Refusal::TooDeep);
    }
    Ok(())
}

// The same of a directory's path, in which the last part counts.
pub fn whole_path_refusal(path: &[u8]) -> Result<(), Refusal>
    ensures { outcome result ≡ whole_refusal path.now }
{
    let Some(parts) = super::path::path_parts(path) else {
        return Err(Refusal::BadArgument);
    };
    if MAX_LEVELS < parts {
        return Err(Refusal::TooDeep);
    }
    Ok(())
}

// The entry of a path whose type is from lo to hi, or the refusal 10.
fn open_entry(image: &[u8], path: &[u8], lo: u8, hi: u8) -> Result<File, Refusal>
    requires { PathGiven image.now path.now }
    ensures { Opened (within lo hi) image.now path.now (found_refusal (within lo hi) image.now path.now) result }
{
    let Some(at) = super::path::find_path(image, path, lo, hi) else {
        return Err(Refusal::NotFound);
    };
    Ok(File {
        slot: at.slot,
        block: at.block,
        first: number_at(image, at.block, at.slot, 4),
        size: number_at(image, at.block, at.slot, 8),
        blocks: number_at(image, at.block, at.slot, 12),
    })
}

// The file of a path, or the refusal, 9, 17 or 10.
pub fn open_file(image: &[u8], path: &[u8]) -> Result<File, Refusal>
    requires { check image.now ≡ 0 }
    ensures { Opened is_file image.now path.now (file_refusal image.now path.now) result }
{
    path_refusal(path)?;
    open_entry(image, path, 0x60, 0x9F)
}

// The child directory of a path, or the refusal, 9, 17 or 10.
pub fn open_directory(image: &[u8], path: &[u8]) -> Result<File, Refusal>
    requires { check image.now ≡ 0 }
    ensures { Opened is_directory image.now path.now (directory_refusal image.now path.now) result }
{
    whole_path_refusal(path)?;
    open_entry(image, path, 0x20, 0x5F)
}

// A chain by its first block and how many it has.
#[derive(Drop)]
pub struct Chain {
    pub first: usize,
    pub blocks: usize,
}

// The attributes' chain of the file in slot k, which is in block b: of no blocks if it has none.
pub fn attribute_chain(image: &[u8], b: usize, k: usize) -> Chain
    requires { 512 * b + 512 ≤ length image.now }
    ensures { (result.first ≡ attribute_block_of image.now (entry_at b k)) × (result.blocks ≡ attribute_size_of image.now (entry_at b k)) }
{
    let first = number_at(image, b, k, 32);
    let blocks = number_at(image, b, k, 36);
    Chain {
        first: first,
        blocks: blocks,
    }
}
