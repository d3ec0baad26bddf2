// The questions about a chain table, asked of its numbers. Past the last number an entry reads 0.
ghost use Rattle.std.specs.Prelude.{not, ◌||◌, ◌≡◌, ◌+◌, ◌-◌, eqb, length, get_or};
ghost use Rattle.layout.specs.Lists.{last_or};
ghost use Rattle.layout.specs.Geometry.{table_blocks};
ghost use Rattle.layout.specs.Table.{chain, ends_after, occupied, all_ones, rest_free};
ghost use Rattle.volume.specs.Search.{lowest_free};
ghost use Rattle.chain_table.specs.Numbers.{value_in};

// The value of entry b.
pub fn value(numbers: &[u32], b: usize) -> u32
    ensures { result ≡ value_in numbers.now b }
{
    numbers.get(b).copied().unwrap_or(0)
}

// The chain from first on, as many blocks as the buffer holds.
pub fn chain(numbers: &[u32], first: u32, blocks: &mut [u32])
    ensures { blocks.new ≡ chain (value_in numbers.now) first (length blocks.old) }
{
    let mut b = first;
    for block in blocks.iter_mut() {
        *block = b;
        b = value(numbers, b as usize);
    }
}

// Block i of the chain of k blocks from first on; 0 if the chain has no block i.
pub fn nth(numbers: &[u32], first: u32, k: usize, i: usize) -> u32
    ensures { result ≡ get_or (chain (value_in numbers.now) first k) i 0 }
{
    if k <= i {
        return 0;
    }
    let mut b = first;
    for _ in 0..i {
        b = value(numbers, b as usize);
    }
    b
}

// The last block of the chain of k blocks from first on; 0 if it has none.
pub fn last(numbers: &[u32], first: u32, k: usize) -> u32
    ensures { result ≡ last_or 0 (chain (value_in numbers.now) first k) }
{
    if k == 0 {
        return 0;
    }
    nth(numbers, first, k, k - 1)
}

// Whether from b on there are exactly k blocks, all in the volume, and the value of the last is 1.
pub fn ends_after(numbers: &[u32], first: u32, k: usize) -> bool
    ensures { result ≡ ends_after (value_in numbers.now) (length numbers.now) first k }
{
    let n = numbers.len();
    let t = n.div_ceil(128);
    let mut b = first as usize;
    for _ in 0..k {
        if b <= t || n <= b {
            return false;
        }
        b = numbers[b] as usize;
    }
    b == 1
}

// How many entries are not 0.
pub fn count_used(numbers: &[u32]) -> usize
    ensures { result ≡ occupied (value_in numbers.now) (length numbers.now) }
{
    let mut count = 0;
    for number in numbers {
        if *number != 0 {
            count += 1;
        }
    }
    count
}

// The lowest free block from `from` on; n if there is none.
pub fn lowest_free(numbers: &[u32], from: usize) -> usize
    ensures { result ≡ lowest_free (value_in numbers.now) from (length numbers.now) }
{
    let n = numbers.len();
    for b in from..n {
        if numbers[b] == 0 {
            return b;
        }
    }
    n
}

// Whether entries 0 to t are 1.
pub fn first_ones(numbers: &[u32]) -> bool
    ensures { result ≡ all_ones (value_in numbers.now) 0 (table_blocks (length numbers.now) + 1) }
{
    for b in 0..numbers.len().div_ceil(128) + 1 {
        if value(numbers, b) != 1 {
            return false;
        }
    }
    true
}

// Whether block b is marked; past the last mark it is not.
fn is_marked(marks: &[u8], b: usize) -> bool
    ensures { result ≡ not (eqb (get_or marks.now b 0) 0) }
{
    b < marks.len() && marks[b] != 0
}

// Whether entry b is 0 or its block marked.
fn free_or_marked(numbers: &[u32], marks: &[u8], b: usize) -> bool
    ensures { result ≡ (eqb (value_in numbers.now b) 0 || not (eqb (get_or marks.now b 0) 0)) }
{
    value(numbers, b) == 0 || is_marked(marks, b)
}

// Whether every entry above t is 0 where its block is not marked.
pub fn rest_free(numbers: &[u32], marks: &[u8]) -> bool
    ensures { result ≡ rest_free (value_in numbers.now) marks.now (table_blocks (length numbers.now) + 1) (length numbers.now - (table_blocks (length numbers.now) + 1)) }
{
    let n = numbers.len();
    for b in n.div_ceil(128) + 1..n {
        if !free_or_marked(numbers, marks, b) {
            return false;
        }
    }
    true
}
