// The blocks of a directory. A block that is claimed has a mark; a directory's blocks are put into room for 64 numbers.
ghost use Rattle.std.specs.Prelude.{◌≡◌, ℕ, ◌+◌, ◌-◌, ◌≤◌, ◌<◌, eqb, length, get_or, take};
ghost use Rattle.layout.specs.Lists.{has, interval};
ghost use Rattle.layout.specs.Limits.{max_blocks, max_directory};
ghost use Rattle.layout.specs.Bytes.{zeros};
ghost use Rattle.layout.specs.Table.{next, chain};
ghost use Rattle.layout.specs.Geometry.{table_blocks};
ghost use Rattle.layout.specs.Walks.Shapes.{Shape, Room, DirectoryAt};
ghost use Rattle.salvage_tree.specs.SalvageTree.{ends_in};
ghost use Rattle.salvage_tree.specs.Walks.{Ran, RowGood, RowRight, ChoseOther, Chose, MarkedToo};

pub use salvage::chains::is_good;

// The most blocks that a directory has.
const MAX_BLOCKS: usize = 64;

// Room for the blocks of a directory; how many it has is told beside it, since there is no heap.
pub fn no_blocks() -> [usize; MAX_BLOCKS]
    ensures { result ≡ zeros max_directory }
{
    [0usize; MAX_BLOCKS]
}

// Whether b is one of the first k numbers.
fn is_met(blocks: &[usize], k: usize, b: usize) -> bool
    requires { (k ≤ length blocks.now) × (length blocks.now ≤ max_directory) }
    ensures { result ≡ has eqb b (take k blocks.now) }
{
    blocks[..k].contains(&b)
}

// The run from b on; it gives how many blocks the run has.
fn run(image: &[u8], t: usize, n: usize, b: usize, marks: &[u8], blocks: &mut [usize]) -> usize
    requires { (Room image.now t n marks.now) × (length blocks.old ≡ max_directory) }
    ensures { Ran image.now n b marks.now result blocks.new }
{
    let mut c = b;
    for k in 0..MAX_BLOCKS {
        if !is_good(t, n, marks, c) || is_met(blocks, k, c) {
            return k;
        }
        blocks[k] = c;
        c = layout::table::entry(image, c);
    }
    MAX_BLOCKS
}

// Whether all of the d blocks from b on in a row are good.
fn row_good(t: usize, n: usize, b: usize, d: usize, marks: &[u8]) -> bool
    requires { (t ≡ table_blocks n) × (n ≤ length marks.now) × (n ≤ max_blocks) }
    ensures { RowGood n b d marks.now result }
{
    for i in 0..d {
        if !is_good(t, n, marks, b + i) {
            return false;
        }
    }
    true
}

// Whether the d blocks from b on in a row are a directory's.
fn row_right(image: &[u8], t: usize, n: usize, b: usize, d: usize, marks: &[u8]) -> bool
    requires { Room image.now t n marks.now }
    ensures { RowRight image.now n b d marks.now result }
{
    (1..=MAX_BLOCKS).contains(&d)
        && row_good(t, n, b, d, marks)
        && layout::directory::type_at(image, b + d - 1, 3) == 0xFF
}

// Whether block b ends, or has value 1.
fn ends_in(image: &[u8], n: usize, b: usize) -> bool
    requires { (Shape image.now n) × (b < n) }
    ensures { result ≡ ends_in image.now b }
{
    layout::directory::type_at(image, b, 3) == 0xFF || layout::table::entry(image, b) == 1
}

// The d blocks from b on in a row.
fn put_row(b: usize, d: usize, blocks: &mut [usize])
    requires { (d ≤ max_directory) × (length blocks.old ≡ max_directory) × (b ≤ max_blocks) }
    ensures { take d blocks.new ≡ interval b d }
{
    for k in 0..d {
        blocks[k] = b + k;
    }
}

// The same of the run of which the first k numbers are given, d its said size, where that does not end in the run: the row, or for a sure child the first d, or all.
fn choose_other(
    image: &[u8],
    t: usize,
    n: usize,
    b: usize,
    d: usize,
    sure: bool,
    marks: &[u8],
    k: usize,
    blocks: &mut [usize],
) -> usize
    requires { (Room image.now t n marks.now) × (Ran image.now n b marks.now k blocks.old) }
    ensures { ChoseOther image.now n b d sure marks.now result blocks.new }
{
    if row_right(image, t, n, b, d, marks) {
        put_row(b, d, blocks);
        return d;
    }
    if sure && (1..=k).contains(&d) { d } else { k }
}

// The blocks of a directory that begins at b and is said to have d; `sure`: its entry and its self entry both say so. It gives how many there are.
pub fn choose(
    image: &[u8],
    t: usize,
    n: usize,
    b: usize,
    d: usize,
    sure: bool,
    marks: &[u8],
    blocks: &mut [usize],
) -> usize
    requires { (Room image.now t n marks.now) × (length blocks.old ≡ max_directory) }
    ensures { Chose image.now n b d sure marks.now result blocks.new }
{
    let k = run(image, t, n, b, marks, blocks);
    if 1 <= d && d <= k && ends_in(image, n, blocks[d - 1]) {
        return d;
    }
    choose_other(image, t, n, b, d, sure, marks, k, blocks)
}

// The d blocks of the chain from first on.
pub fn read_blocks(image: &[u8], n: usize, first: usize, d: usize, blocks: &mut [usize])
    requires { (DirectoryAt image.now n first d) × (length blocks.old ≡ max_directory) }
    ensures { take d blocks.new ≡ chain (next image.now) first d }
{
    let mut b = first;
    for k in 0..d {
        blocks[k] = b;
        b = layout::table::entry(image, b);
    }
}

// Claims the blocks.
pub fn claim_blocks(blocks: &[usize], marks: &mut [u8])
    requires { ((i : ℕ) → i < length blocks.now → get_or blocks.now i 0 < length marks.old) × (length blocks.now ≤ max_directory) }
    ensures { MarkedToo blocks.now marks.old marks.new }
{
    for &b in blocks {
        marks[b] = 1;
    }
}
