// What is put right after the slots: the end slot's type, the table's entries, the counts.
ghost use Rattle.std.specs.Prelude.{cond, ◌≡◌, ◌+◌, ◌-◌, ◌*◌, ◌≤◌, ◌<◌, length};
ghost use Rattle.layout.specs.Lists.{interval};
ghost use Rattle.layout.specs.Geometry.{table_blocks};
ghost use Rattle.layout.specs.Table.{next, chain, table_block_of};
ghost use Rattle.layout.specs.Check.{stage7};
ghost use Rattle.layout.specs.Walks.Chains.{count_used};
ghost use Rattle.layout.specs.Walks.Shapes.{Shape, Room, DirectoryAt};
ghost use Rattle.salvage.specs.Salvage.{end_right, end_put, one_at, in_turn, counts_put};
ghost use Rattle.salvage.specs.Walks.{EntryFreed, EntriesFreed, TablePut};

use super::slots::Root;

// Puts right the type of the end slot of the root, and gives the slot's code.
pub fn put_end(image: &mut [u8], root: Root) -> u8
    requires { DirectoryAt image.old root.n root.first root.d }
    ensures code { result ≡ cond (end_right image.old (chain (next image.old) root.first root.d)) 0 3 }
    ensures bytes { image.new ≡ end_put image.old (chain (next image.old) root.first root.d) }
{
    let b = layout::table::nth(image, root.n, root.first, root.d, root.d - 1);
    if layout::directory::type_at(image, b, 3) == 0xFF {
        return 0;
    }
    volume::file::end_block(image, b);
    3
}

// Sets entry b to 1.
fn put_one(image: &mut [u8], b: usize)
    requires { 512 * table_block_of b + 512 ≤ length image.old }
    ensures { image.new ≡ one_at image.old b }
{
    if layout::table::entry(image, b) != 1 {
        volume::table::set_entry(image, b, 1);
    }
}

// Sets entries 0 to k − 1 to 1.
pub fn put_ones(image: &mut [u8], k: usize)
    requires { 512 * table_blocks k + 512 ≤ length image.old }
    ensures { image.new ≡ in_turn one_at image.old (interval 0 k) }
{
    for b in 0..k {
        put_one(image, b);
    }
}

// Sets entry b to 0 if it is not claimed; a block that was in use is zeroed.
fn free_entry(image: &mut [u8], n: usize, marks: &[u8], b: usize)
    requires { (Shape image.old n) × (b < 128 * table_blocks n) × (b < length marks.now) }
    ensures { EntryFreed image.old marks.now b image.new }
{
    if marks[b] != 0 || layout::table::entry(image, b) == 0 {
        return;
    }
    if b < n {
        volume::table::clear_block(image, b);
    }
    volume::table::set_entry(image, b, 0);
}

// The same of the k entries from `from` on.
pub fn free_entries(image: &mut [u8], n: usize, marks: &[u8], from: usize, k: usize)
    requires { (Shape image.old n) × (from + k ≤ 128 * table_blocks n) × (from + k ≤ length marks.now) }
    ensures { EntriesFreed image.old marks.now from k image.new }
{
    for b in from..from + k {
        free_entry(image, n, marks, b);
    }
}

// The table: entries 0 to t, and those that are not claimed.
pub fn put_table(image: &mut [u8], t: usize, n: usize, marks: &[u8])
    requires { Room image.old t n marks.now }
    ensures { TablePut image.old marks.now image.new }
{
    let low = t + 1;
    put_ones(image, low);
    let count = 128 * t - low;
    free_entries(image, n, marks, low, count);
}

// Whether the header's counts are right: `used` of n blocks.
pub fn counts_right(image: &[u8], n: usize, used: usize) -> bool
    requires { (Shape image.now n) × (used ≡ count_used (next image.now) 0 n) × (used ≤ n) }
    ensures { result ≡ stage7 image.now }
{
    layout::number::header_number(image, 20) == used
        && layout::number::header_number(image, 24) == n - used
}

// Puts right the header's counts.
pub fn put_counts(image: &mut [u8], n: usize)
    requires { Shape image.old n }
    ensures { image.new ≡ counts_put image.old }
{
    let used = layout::table::count_used(image, n);
    if !counts_right(image, n, used) {
        volume::table::set_counts(image, n, used);
    }
}
