// The table loaded from an image into numbers, and stored back. The work on a table block is given its 512 bytes and its numbers.
ghost use Rattle.std.specs.Prelude.{◌≡◌, ◌+◌, ◌*◌, ◌≤◌, length};
ghost use Rattle.layout.specs.Reasons.{outcome};
ghost use Rattle.layout.specs.Lists.{joined};
ghost use Rattle.layout.specs.Bytes.{bytes4, splice};
ghost use Rattle.layout.specs.Geometry.{table_blocks};
ghost use Rattle.layout.specs.Table.{next};
ghost use Rattle.layout.specs.Walks.Chains.{entry_in};
ghost use Rattle.chain_table.specs.Numbers.{entries_of, stored};
ghost use Rattle.chain_table.specs.Transfer.{table_refusal, load_table, store_table};

use layout::refusal::Refusal;

// The refusals of a transfer of so many numbers.
fn refusal(image: &[u8], count: usize) -> Result<(), Refusal>
    ensures { outcome result ≡ table_refusal image.now count }
{
    layout::check::check(image)?;
    if count != image.len() / 512 {
        return Err(Refusal::BadTableSize);
    }
    Ok(())
}

// Loads the first entries of a table block, as many as there are numbers.
fn load_block(block: &[u8], numbers: &mut [u32])
    requires { 4 * length numbers.old ≤ length block.now }
    ensures { numbers.new ≡ entries_of (entry_in block.now) (length numbers.old) }
{
    for (j, number) in numbers.iter_mut().enumerate() {
        *number = layout::number::get32(block, 4 * j);
    }
}

// Loads as many entries as there are numbers, a table block at a time.
fn load(image: &[u8], numbers: &mut [u32])
    requires { 512 * table_blocks (length numbers.old) + 512 ≤ length image.now }
    ensures { numbers.new ≡ entries_of (next image.now) (length numbers.old) }
{
    let n = numbers.len();
    let mut b = 0;
    while b < n {
        let end = n.min(b + 128);
        load_block(
            layout::bytes::block(image, 1 + b / 128),
            &mut numbers[b..end],
        );
        b = end;
    }
}

// Stores the numbers as the first entries of a table block.
fn store_block(block: &mut [u8], numbers: &[u32])
    requires { 4 * length numbers.now ≤ length block.old }
    ensures { block.new ≡ splice block.old 0 (joined bytes4 numbers.now) }
{
    for (j, number) in numbers.iter().enumerate() {
        volume::number::put32(block, 4 * j, *number);
    }
}

// Stores all numbers, a table block at a time.
fn store(image: &mut [u8], numbers: &[u32])
    requires { 512 * table_blocks (length numbers.now) + 512 ≤ length image.old }
    ensures { image.new ≡ stored image.old numbers.now }
{
    let n = numbers.len();
    let mut b = 0;
    while b < n {
        let end = n.min(b + 128);
        let a = 512 * (1 + b / 128);
        let e = a + 512;
        store_block(&mut image[a..e], &numbers[b..end]);
        b = end;
    }
}

// Loads the table of an image of n blocks into n numbers.
pub fn load_table(image: &[u8], numbers: &mut [u32]) -> Result<(), Refusal>
    ensures number { outcome result ≡ (load_table image.now numbers.old).number }
    ensures numbers { numbers.new ≡ (load_table image.now numbers.old).numbers }
{
    refusal(image, numbers.len())?;
    load(image, numbers);
    Ok(())
}

// Stores n numbers as the table of an image of n blocks.
pub fn store_table(image: &mut [u8], numbers: &[u32]) -> Result<(), Refusal>
    ensures number { outcome result ≡ (store_table image.old numbers.now).number }
    ensures image { image.new ≡ (store_table image.old numbers.now).image }
{
    refusal(image, numbers.len())?;
    store(image, numbers);
    Ok(())
}
