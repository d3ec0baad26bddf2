// Write, on an image that the caller has checked. A file that was found may be written by data of any length.
ghost use Rattle.std.specs.Prelude.{◌≡◌, ◌+◌, ◌-◌, ◌≤◌, ◌<◌, max, length};
ghost use Rattle.layout.specs.Reasons.{outcome};
ghost use Rattle.layout.specs.Lists.{last_or};
ghost use Rattle.layout.specs.Geometry.{block_count, blocks_for};
ghost use Rattle.layout.specs.Table.{next, chain};
ghost use Rattle.layout.specs.Check.{check};
ghost use Rattle.layout.specs.Directory.{is_file};
ghost use Rattle.layout.specs.Paths.{file_refusal};
ghost use Rattle.layout.specs.Walks.Looks.{Opened};
ghost use Rattle.layout.specs.Walks.Shapes.{ChainBelow};
ghost use Rattle.layout.specs.Walks.Slots.{entry_at};
ghost use Rattle.volume.specs.Write.{write_refusal, write_at_refusal, write_at, written, write_named};
ghost use Rattle.volume.specs.Walks.Marks.{marked};
ghost use Rattle.volume.specs.Walks.Targets.{Standing};
ghost use Rattle.volume.specs.Walks.Writes.{start_of, Planned};

use layout::file::File;
use layout::limits::MAX_DATA;
use layout::refusal::Refusal;

// How many blocks `count` bytes at an offset need beyond those of a file.
fn needed(size: usize, blocks: usize, offset: usize, count: usize) -> usize
    requires { (offset ≤ size) × (size < 4294967296) × (count < 4294967296) × (blocks ≤ blocks_for size) }
    ensures { result ≡ blocks_for (max size (offset + count)) - blocks }
{
    size.max(offset + count).div_ceil(512) - blocks
}

// The refusals of a write to a file that was found, 12 and 14.
pub fn write_at_refusal(
    image: &[u8],
    found: File,
    offset: usize,
    count: usize,
) -> Result<(), Refusal>
    requires { (check image.now ≡ 0) × (Standing image.now (file_refusal image.now) found.slot found.block found.first found.size found.blocks) × (count < 4294967296) }
    ensures { outcome result ≡ write_at_refusal image.now (entry_at found.block found.slot) offset count }
{
    if found.size < offset {
        return Err(Refusal::BadOffset);
    }
    let free = layout::number::header_number(image, 24);
    if free < needed(found.size, found.blocks, offset, count) {
        return Err(Refusal::VolumeFull);
    }
    Ok(())
}

// The file, or the refusal, 9, 17, 10, 12 or 14.
pub fn write_refusal(
    image: &[u8],
    path: &[u8],
    offset: usize,
    count: usize,
) -> Result<File, Refusal>
    requires { check image.now ≡ 0 }
    ensures { Opened is_file image.now path.now (write_refusal image.now path.now offset count) result }
{
    if MAX_DATA < count {
        return Err(Refusal::BadArgument);
    }
    let file = layout::file::open_file(image, path)?;
    write_at_refusal(image, file, offset, count)?;
    Ok(file)
}

// The last block of a chain; 0: it has none.
fn last_block(image: &[u8], n: usize, first: usize, blocks: usize) -> usize
    requires { ChainBelow image.now n first blocks }
    ensures { result ≡ last_or 0 (chain (next image.now) first blocks) }
{
    if blocks == 0 {
        return 0;
    }
    layout::table::nth(image, n, first, blocks, blocks - 1)
}

// The first block of a file that had `held` blocks from `first` on, when the first block taken is `taken`.
fn start_block(held: usize, first: usize, taken: usize) -> usize
    ensures { result ≡ start_of held first taken }
{
    if held == 0 { taken } else { first }
}

// What an accepted write does: the block to link behind, how many blocks are taken, and the file's size and blocks after it.
#[derive(Drop)]
struct Plan {
    last: usize,
    taken: usize,
    size: usize,
    blocks: usize,
}

// The plan of an accepted write.
fn plan_write(image: &[u8], found: File, offset: usize, count: usize) -> Plan
    requires { (check image.now ≡ 0) × (Standing image.now (file_refusal image.now) found.slot found.block found.first found.size found.blocks) × (write_at_refusal image.now (entry_at found.block found.slot) offset count ≡ 0) }
    ensures plan { Planned image.now (entry_at found.block found.slot) offset count result.last result.taken found.blocks found.first result.size result.blocks }
    ensures last { result.last ≡ last_or 0 (chain (next image.now) found.first found.blocks) }
    ensures taken { result.taken ≡ blocks_for (max found.size (offset + count)) - found.blocks }
{
    let first = found.first;
    let size = found.size;
    let blocks = found.blocks;
    let n = image.len() / 512;
    let k = needed(size, blocks, offset, count);
    let last = last_block(image, n, first, blocks);
    Plan {
        last,
        taken: k,
        size: size.max(offset + count),
        blocks: blocks + k,
    }
}

// An accepted write: takes the blocks needed, puts the data and sets the entry's numbers.
pub fn write_at(image: &mut [u8], found: File, offset: usize, bytes: &[u8], time: u64)
    requires { (check image.old ≡ 0) × (Standing image.old (file_refusal image.old) found.slot found.block found.first found.size found.blocks) × (write_at_refusal image.old (entry_at found.block found.slot) offset (length bytes.now) ≡ 0) }
    ensures { image.new ≡ write_at image.old (entry_at found.block found.slot) offset bytes.now time }
{
    let p = plan_write(image, found, offset, bytes.len());
    let n = image.len() / 512;
    let taken = super::table::grow(image, n, p.last, p.taken);
    let start = start_block(found.blocks, found.first, taken);
    super::data::put_data(image, n, start, p.blocks, offset, bytes);
    super::file::set_file(
        image,
        found.block,
        found.slot,
        start,
        p.size,
        p.blocks,
        time,
    );
}

// Marks the blocks that hold one of `count` bytes written at an offset, of the chain of k blocks from `first` on.
fn mark_written(
    image: &[u8],
    n: usize,
    first: usize,
    k: usize,
    offset: usize,
    count: usize,
    marks: &mut [u8],
)
    requires { (ChainBelow image.now n first k) × (count < 4294967296) × (n ≤ length marks.old) }
    ensures { marks.new ≡ marked marks.old (written (chain (next image.now) first k) offset count) }
{
    if count == 0 {
        return;
    }
    super::marks::mark_part(
        image,
        n,
        first,
        k,
        offset / 512,
        (offset % 512 + count).div_ceil(512),
        marks,
    );
}

// Marks the blocks that an accepted write names. Every block that is taken holds a written byte.
pub fn write_at_named(image: &[u8], found: File, offset: usize, count: usize, marks: &mut [u8])
    requires { (check image.now ≡ 0) × (Standing image.now (file_refusal image.now) found.slot found.block found.first found.size found.blocks) × (write_at_refusal image.now (entry_at found.block found.slot) offset count ≡ 0) × (block_count image.now ≤ length marks.old) }
    ensures { marks.new ≡ marked marks.old (write_named image.now (entry_at found.block found.slot) offset count) }
{
    let p = plan_write(image, found, offset, count);
    let n = image.len() / 512;
    super::marks::mark(marks, found.block);
    mark_written(image, n, found.first, found.blocks, offset, count, marks);
    super::marks::mark_grown(image, n, p.last, p.taken, marks);
}
