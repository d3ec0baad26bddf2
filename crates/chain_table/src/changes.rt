// The changes of a chain table, made on its numbers. A block past the last number has no entry to change.
ghost use Rattle.std.specs.Prelude.{◌≡◌, set};
ghost use Rattle.chain_table.specs.Numbers.{linked_in, taken_in, freed_in};

// Sets entry b to v.
pub fn set(numbers: &mut [u32], b: usize, v: u32)
    ensures { numbers.new ≡ set numbers.old b v }
{
    if b < numbers.len() {
        numbers[b] = v;
    }
}

// Links block b after the block `last`; 0: there is none.
pub fn link(numbers: &mut [u32], last: u32, b: u32)
    ensures { numbers.new ≡ linked_in numbers.old last b }
{
    if last == 0 {
        return;
    }
    set(numbers, last as usize, b);
}

// Takes block b: it becomes the last of the chain that ends at `last`.
pub fn take(numbers: &mut [u32], last: u32, b: u32)
    ensures { numbers.new ≡ taken_in numbers.old last b }
{
    set(numbers, b as usize, 1);
    link(numbers, last, b);
}

// Frees block b.
pub fn free(numbers: &mut [u32], b: u32)
    ensures { numbers.new ≡ freed_in numbers.old b }
{
    set(numbers, b as usize, 0);
}
