// Stage 6: the chains of all directories and files. The directories are known by the marks of their blocks.
ghost use Rattle.std.specs.Prelude.{◌+◌, ◌-◌, ◌*◌, ◌≤◌, ◌<◌, ◌≡◌, length, get_or};
ghost use Rattle.layout.specs.Table.{next};
ghost use Rattle.layout.specs.Directory.{first_block, blocks_of};
ghost use Rattle.layout.specs.Walks.Chains.{walked, follow, count_used};
ghost use Rattle.layout.specs.Walks.Shapes.{Room};
ghost use Rattle.layout.specs.Walks.Slots.{entry_at};
ghost use Rattle.layout.specs.Walks.Stages.{follow_file, follow_slot, follow_slots, follow_blocks, TableUsed};

use super::directory::{number_at, type_at};

// Follows the own chain of slot k, in block b, and marks its blocks.
fn follow_own(image: &[u8], t: usize, n: usize, b: usize, k: usize, marks: &mut [u8]) -> bool
    requires { (Room image.now t n marks.old) × (b < n) }
    ensures { walked result marks.new ≡ follow (next image.now) n (blocks_of image.now (entry_at b k)) (first_block image.now (entry_at b k)) marks.old }
{
    let first = number_at(image, b, k, 4);
    let blocks = number_at(image, b, k, 12);
    super::table::follow(image, t, n, first, blocks, marks)
}

// The same of a file, and then the chain of its attributes.
fn follow_file(image: &[u8], t: usize, n: usize, b: usize, k: usize, marks: &mut [u8]) -> bool
    requires { (Room image.now t n marks.old) × (b < n) }
    ensures { walked result marks.new ≡ follow_file image.now n (entry_at b k) marks.old }
{
    if !follow_own(image, t, n, b, k, marks) {
        return false;
    }
    let c = super::file::attribute_chain(image, b, k);
    super::table::follow(image, t, n, c.first, c.blocks, marks)
}

// Follows the chains that slot k, in block b, owns, and marks their blocks.
fn follow_slot(image: &[u8], t: usize, n: usize, b: usize, k: usize, marks: &mut [u8]) -> bool
    requires { (Room image.now t n marks.old) × (b < n) }
    ensures { walked result marks.new ≡ follow_slot image.now n (entry_at b k) marks.old }
{
    let ty = type_at(image, b, k);
    if super::directory::is_file(ty) {
        return follow_file(image, t, n, b, k, marks);
    }
    ty != 1 || follow_own(image, t, n, b, k, marks)
}

// Follows the chains of the four slots of block b.
fn follow_block(image: &[u8], t: usize, n: usize, b: usize, marks: &mut [u8]) -> bool
    requires { (Room image.now t n marks.old) × (b < n) }
    ensures { walked result marks.new ≡ follow_slots image.now n b 0 4 marks.old }
{
    for k in 0..4 {
        if !follow_slot(image, t, n, b, k, marks) {
            return false;
        }
    }
    true
}

// The same, if the block is marked in dirs.
fn follow_marked(image: &[u8], t: usize, n: usize, dirs: &[u8], b: usize, marks: &mut [u8]) -> bool
    requires { (Room image.now t n marks.old) × (b < n) × (n ≤ length dirs.now) }
    ensures { walked result marks.new ≡ follow_blocks image.now n dirs.now b 1 marks.old }
{
    dirs[b] == 0 || follow_block(image, t, n, b, marks)
}

// The same of the k blocks from `from` on.
fn follow_run(
    image: &[u8],
    t: usize,
    n: usize,
    dirs: &[u8],
    from: usize,
    k: usize,
    marks: &mut [u8],
) -> bool
    requires { (Room image.now t n marks.old) × (from + k ≤ n) × (n ≤ length dirs.now) }
    ensures { walked result marks.new ≡ follow_blocks image.now n dirs.now from k marks.old }
{
    for b in from..from + k {
        if !follow_marked(image, t, n, dirs, b, marks) {
            return false;
        }
    }
    true
}

// The same, where most often none of them is marked: that is seen at once.
fn follow_group(
    image: &[u8],
    t: usize,
    n: usize,
    dirs: &[u8],
    from: usize,
    k: usize,
    marks: &mut [u8],
) -> bool
    requires { (Room image.now t n marks.old) × (from + k ≤ n) × (n ≤ length dirs.now) }
    ensures { walked result marks.new ≡ follow_blocks image.now n dirs.now from k marks.old }
{
    super::bytes::all_zero(&dirs[from..from + k]) || follow_run(image, t, n, dirs, from, k, marks)
}

// Follows the chains of all slots of the blocks that are marked in dirs.
fn follow_blocks(image: &[u8], t: usize, n: usize, dirs: &[u8], marks: &mut [u8]) -> bool
    requires { (Room image.now t n marks.old) × (n ≤ length dirs.now) }
    ensures { walked result marks.new ≡ follow_blocks image.now n dirs.now 0 n marks.old }
{
    let mut b = 0;
    while b < n {
        let k = (n - b).min(64);
        if !follow_group(image, t, n, dirs, b, k, marks) {
            return false;
        }
        b += k;
    }
    true
}

// How many of at most 128 marks are set: so few that a byte holds the count, and 16 are added in a step.
fn set_in(marks: &[u8]) -> u8
    requires { length marks.now ≤ 128 }
    ensures { (result ≡ count_used (λ i. get_or marks.now i 0) 0 (length marks.now)) × (result ≤ length marks.now) }
{
    let mut count = 0;
    for mark in marks {
        count += u8::from(*mark != 0);
    }
    count
}

// How many of the first 128·t marks are set.
fn count_set(marks: &[u8], t: usize) -> usize
    requires { 128 * t ≤ length marks.now }
    ensures { (result ≡ count_used (λ b. get_or marks.now b 0) 0 (128 * t)) × (result ≤ 128 * t) }
{
    let mut count = 0;
    for i in 0..t {
        let b = 128 * i;
        count += usize::from(set_in(&marks[b..b + 128]));
    }
    count
}

// Stage 6, when the blocks of all directories are marked in dirs: the chains, the table's first entries, and that no other entry is in use. It gives
// how many entries are in use, or 0 if stage 6 is not met.
pub fn table_used(image: &[u8], t: usize, n: usize, dirs: &[u8], marks: &mut [u8]) -> usize
    requires { (Room image.now t n marks.old) × (n ≤ length dirs.now) }
    ensures { TableUsed image.now t n dirs.now marks.old result }
{
    if !follow_blocks(image, t, n, dirs, marks) {
        return 0;
    }
    let low = t + 1;
    if !super::table::ones(image, low) {
        return 0;
    }
    let used = low + count_set(marks, t);
    if super::table::count_used(image, 128 * t) != used {
        return 0;
    }
    used
}
