// The chain of a file: its blocks claimed, its last value put right. A block that is claimed has a mark.
ghost use Rattle.std.specs.Prelude.{◌≡◌, ◌≤◌, length};
ghost use Rattle.layout.specs.Geometry.{table_blocks};
ghost use Rattle.layout.specs.Table.{next, chain};
ghost use Rattle.layout.specs.Walks.Shapes.{Room, ChainBelow};
ghost use Rattle.salvage.specs.Salvage.{ends, ended};
ghost use Rattle.salvage.specs.Walks.{IsGood, Walked, Claimed, unmarked};

// Whether block b is above t, below n and not claimed.
pub fn is_good(t: usize, n: usize, marks: &[u8], b: usize) -> bool
    requires { (t ≡ table_blocks n) × (n ≤ length marks.now) }
    ensures { IsGood n marks.now b result }
{
    (t + 1..n).contains(&b) && marks[b] == 0
}

// Walks along the chain of k blocks from first on and marks each block, up to one that is not good. It gives how many it marked.
fn walk(image: &[u8], t: usize, n: usize, first: usize, k: usize, marks: &mut [u8]) -> usize
    requires { Room image.now t n marks.old }
    ensures { Walked (next image.now) n first k marks.old result marks.new }
{
    let mut b = first;
    for met in 0..k {
        if !is_good(t, n, marks, b) {
            return met;
        }
        marks[b] = 1;
        b = layout::table::entry(image, b);
    }
    k
}

// Takes back the marks of the k blocks from first on.
fn unmark(image: &[u8], n: usize, first: usize, k: usize, marks: &mut [u8])
    requires { (ChainBelow image.now n first k) × (n ≤ length marks.old) }
    ensures { marks.new ≡ unmarked marks.old (chain (next image.now) first k) }
{
    let mut b = first;
    for _ in 0..k {
        marks[b] = 0;
        b = layout::table::entry(image, b);
    }
}

// Claims the chain of k blocks from first on, if all its blocks can be claimed; if not, none is.
pub fn claim(image: &[u8], t: usize, n: usize, first: usize, k: usize, marks: &mut [u8]) -> bool
    requires { Room image.now t n marks.old }
    ensures { Claimed (next image.now) n first k marks.old result marks.new }
{
    let met = walk(image, t, n, first, k, marks);
    if met == k {
        return true;
    }
    unmark(image, n, first, met, marks);
    false
}

// Sets the last value of the chain of k blocks from first on to 1, and gives whether it was.
pub fn end_chain(image: &mut [u8], n: usize, first: usize, k: usize) -> bool
    requires { ChainBelow image.old n first k }
    ensures right { result ≡ ends image.old (chain (next image.old) first k) }
    ensures bytes { image.new ≡ ended image.old (chain (next image.old) first k) }
{
    if k == 0 {
        return true;
    }
    let last = layout::table::nth(image, n, first, k, k - 1);
    if layout::table::entry(image, last) == 1 {
        return true;
    }
    volume::table::set_entry(image, last, 1);
    false
}
