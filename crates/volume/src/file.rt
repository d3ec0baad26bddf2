// The entry of a file and the end of a directory, written. The work on an entry is given the 512 bytes of its block.
ghost use Rattle.std.specs.Prelude.{◌≡◌, [], ◌∷◌, ◌+◌, ◌*◌, ◌≤◌, ◌<◌, length};
ghost use Rattle.layout.specs.Bytes.{zeros, splice};
ghost use Rattle.volume.specs.Write.{set_file};
ghost use Rattle.volume.specs.Attributes.{set_attribute_fields};
ghost use Rattle.layout.specs.Walks.Slots.{entry_at};

use super::number::{put32, put64};

// Zeroes the `count` bytes at `at` of slot k, which is in block b.
pub fn clear_bytes(image: &mut [u8], b: usize, k: usize, at: usize, count: usize)
    requires { (512 * b + 512 ≤ length image.old) × (at + count ≤ 128) }
    ensures { image.new ≡ splice image.old (entry_at b k + at) (zeros count) }
{
    let a = 512 * b;
    super::data::clear_part(&mut image[a..a + 512], 128 * (k % 4) + at, count);
}

// Zeroes slot k, which is in block b.
pub fn clear_slot(image: &mut [u8], b: usize, k: usize)
    requires { 512 * b + 512 ≤ length image.old }
    ensures { image.new ≡ splice image.old (entry_at b k) (zeros 128) }
{
    clear_bytes(image, b, k, 0, 128);
}

// Writes the end type into the last slot of block b.
pub fn end_block(image: &mut [u8], b: usize)
    requires { 512 * b + 512 ≤ length image.old }
    ensures { image.new ≡ splice image.old (512 * b + 384) (0xFF ∷ []) }
{
    let a = 512 * b;
    super::slot::put_end(&mut image[a..a + 512]);
}

// Writes the numbers and the modified time of the file at o of a directory's block.
fn put_file(block: &mut [u8], o: usize, first: u32, size: u32, blocks: u32, time: u64)
    requires { o + 128 ≤ length block.old }
    ensures { block.new ≡ set_file block.old o first size blocks time }
{
    put32(block, o + 4, first);
    put32(block, o + 8, size);
    put32(block, o + 12, blocks);
    put64(block, o + 24, time);
}

// The same for the file in slot k, which is in block b.
pub fn set_file(
    image: &mut [u8],
    b: usize,
    k: usize,
    first: usize,
    size: usize,
    blocks: usize,
    time: u64,
)
    requires { (512 * b + 512 ≤ length image.old) × (first < 4294967296) × (size < 4294967296) × (blocks < 4294967296) }
    ensures { image.new ≡ set_file image.old (entry_at b k) first size blocks time }
{
    let a = 512 * b;
    put_file(
        &mut image[a..a + 512],
        128 * (k % 4),
        first as u32,
        size as u32,
        blocks as u32,
        time,
    );
}

// Writes the two attribute fields of the file at o of a directory's block.
fn put_attribute_fields(block: &mut [u8], o: usize, first: u32, size: u32)
    requires { o + 128 ≤ length block.old }
    ensures { block.new ≡ set_attribute_fields block.old o first size }
{
    put32(block, o + 32, first);
    put32(block, o + 36, size);
}

// The same for the file in slot k, which is in block b.
pub fn set_attribute_fields(image: &mut [u8], b: usize, k: usize, first: usize, size: usize)
    requires { (512 * b + 512 ≤ length image.old) × (first < 4294967296) × (size < 4294967296) }
    ensures { image.new ≡ set_attribute_fields image.old (entry_at b k) first size }
{
    let a = 512 * b;
    put_attribute_fields(
        &mut image[a..a + 512],
        128 * (k % 4),
        first as u32,
        size as u32,
    );
}
