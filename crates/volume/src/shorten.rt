// Shorten, on an image that the caller has checked. The file keeps its first blocks; the others are freed, and the bytes behind the new end zeroed.
ghost use Rattle.std.specs.Prelude.{◌≡◌, ◌+◌, ◌-◌, ◌*◌, ◌≤◌, ◌<◌, length, get_or, take};
ghost use Rattle.layout.specs.Bytes.{zeros, splice};
ghost use Rattle.layout.specs.Geometry.{block_count, blocks_for};
ghost use Rattle.layout.specs.Table.{next};
ghost use Rattle.layout.specs.Directory.{is_file, file_blocks};
ghost use Rattle.layout.specs.Check.{check};
ghost use Rattle.layout.specs.Walks.Looks.{Opened};
ghost use Rattle.layout.specs.Walks.Shapes.{ChainBelow};
ghost use Rattle.layout.specs.Walks.Slots.{entry_at};
ghost use Rattle.volume.specs.Shorten.{tail_length, shorten_refusal, shorten_at, shorten_named};
ghost use Rattle.volume.specs.Walks.Cuts.{CutAt, end_blocks};
ghost use Rattle.volume.specs.Walks.Marks.{marked};
ghost use Rattle.volume.specs.Walks.Targets.{Standing};

use layout::file::File;
use layout::refusal::Refusal;

// The file, or the refusal, 9, 17, 10 or 12.
pub fn shorten_refusal(image: &[u8], path: &[u8], size: usize) -> Result<File, Refusal>
    requires { check image.now ≡ 0 }
    ensures { Opened is_file image.now path.now (shorten_refusal image.now path.now size) result }
{
    let file = layout::file::open_file(image, path)?;
    if file.size < size {
        return Err(Refusal::BadOffset);
    }
    Ok(file)
}

// Where a chain is cut: the first and the last of the blocks that stay (0: none does), and the first of those that go.
#[derive(Drop)]
struct Cut {
    start: usize,
    last: usize,
    rest: usize,
}

// Where the chain of k blocks from `first` on is cut to its first j.
fn find_cut(image: &[u8], n: usize, first: usize, k: usize, j: usize) -> Cut
    requires { (ChainBelow image.now n first k) × (j ≤ k) }
    ensures { CutAt (next image.now) first k j result.start result.last result.rest }
{
    if j == 0 {
        return Cut {
            start: 0,
            last: 0,
            rest: first,
        };
    }
    let last = layout::table::nth(image, n, first, k, j - 1);
    let rest = layout::table::entry(image, last);
    Cut {
        start: first,
        last,
        rest,
    }
}

// How many bytes behind the new end become 0. If the size stays, none do.
fn tail_length(old: usize, size: usize) -> usize
    requires { size < 4294967296 }
    ensures { result ≡ tail_length old size }
{
    if size < old {
        size.div_ceil(512) * 512 - size
    } else {
        0
    }
}

// What an accepted shorten does: how many blocks stay and how many go, where the chain is cut, and how many bytes behind the new end become 0.
#[derive(Drop)]
struct Plan {
    kept: usize,
    gone: usize,
    cut: Cut,
    tail: usize,
}

// The plan of an accepted shorten.
fn plan_shorten(image: &[u8], found: File, size: usize) -> Plan
    requires { (check image.now ≡ 0) × (Standing image.now (λ path. shorten_refusal image.now path size) found.slot found.block found.first found.size found.blocks) }
    ensures kept { result.kept ≡ blocks_for size }
    ensures gone { result.gone ≡ found.blocks - blocks_for size }
    ensures cut { CutAt (next image.now) found.first found.blocks (blocks_for size) result.cut.start result.cut.last result.cut.rest }
    ensures tail { result.tail ≡ tail_length found.size size }
{
    let n = image.len() / 512;
    let kept = size.div_ceil(512);
    Plan {
        kept,
        gone: found.blocks - kept,
        cut: find_cut(image, n, found.first, found.blocks, kept),
        tail: tail_length(found.size, size),
    }
}

// Zeroes the `count` bytes at o of block b.
fn clear_tail(image: &mut [u8], b: usize, o: usize, count: usize)
    requires { (512 * b + 512 ≤ length image.old) × (o + count ≤ 512) }
    ensures { image.new ≡ splice image.old (512 * b + o) (zeros count) }
{
    super::data::clear_part(image, 512 * b + o, count);
}

// An accepted shorten; gives the file's first block after it, 0 if it has none.
pub fn shorten_at(image: &mut [u8], found: File, size: usize, time: u64) -> usize
    requires { (check image.old ≡ 0) × (Standing image.old (λ path. shorten_refusal image.old path size) found.slot found.block found.first found.size found.blocks) }
    ensures first { result ≡ get_or (take (blocks_for size) (file_blocks image.old (entry_at found.block found.slot))) 0 0 }
    ensures bytes { image.new ≡ shorten_at image.old (entry_at found.block found.slot) size time }
{
    let p = plan_shorten(image, found, size);
    let n = image.len() / 512;
    super::table::cut(image, n, p.cut.last, p.cut.rest, p.gone);
    clear_tail(image, p.cut.last, size % 512, p.tail);
    super::file::set_file(
        image,
        found.block,
        found.slot,
        p.cut.start,
        size,
        p.kept,
        time,
    );
    p.cut.start
}

// Marks the block of the new end, if bytes behind it become 0.
fn mark_tail(last: usize, tail: usize, marks: &mut [u8])
    requires { last < length marks.old }
    ensures { marks.new ≡ marked marks.old (end_blocks last tail) }
{
    if tail != 0 {
        super::marks::mark(marks, last);
    }
}

// Marks the blocks that an accepted shorten names.
pub fn shorten_named(image: &[u8], found: File, size: usize, marks: &mut [u8])
    requires { (check image.now ≡ 0) × (Standing image.now (λ path. shorten_refusal image.now path size) found.slot found.block found.first found.size found.blocks) × (block_count image.now ≤ length marks.old) }
    ensures { marks.new ≡ marked marks.old (shorten_named image.now (entry_at found.block found.slot) size) }
{
    let p = plan_shorten(image, found, size);
    let n = image.len() / 512;
    super::marks::mark(marks, found.block);
    mark_tail(p.cut.last, p.tail, marks);
    super::marks::mark_cut(image, n, p.cut.last, p.cut.rest, p.gone, marks);
}
