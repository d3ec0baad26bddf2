// The rest: entries 0 to t, blocks that nobody claims, padding entries, the header.
ghost use Rattle.std.specs.Prelude.{◌≡◌, ◌+◌, ◌-◌, ◌*◌, ◌≤◌, ◌<◌, length};
ghost use Rattle.layout.specs.Lists.{same};
ghost use Rattle.layout.specs.Geometry.{table_blocks};
ghost use Rattle.layout.specs.Table.{table_block_of};
ghost use Rattle.layout.specs.Walks.Shapes.{Shape, Room};
ghost use Rattle.salvage_tree.specs.SalvageTree.{head_put};
ghost use Rattle.salvage_tree.specs.Walks.{Ready, FreedNoted, IsFree, AllFree, signed, BlocksPut, PaddingPut, RestPut};

// What an image begins with: the signature and the version.
pub const SIGNATURE: &[u8; 12] = b"BulgeFS!\x00\x01\x00\x00";

// The code 5 of block b, if it is in use and not claimed.
fn note_block(image: &[u8], marks: &[u8], b: usize, codes: &mut [u8])
    requires { (512 * table_block_of b + 512 ≤ length image.now) × (b < length marks.now) × (4 * b < length codes.old) }
    ensures { FreedNoted image.now marks.now b 1 codes.old codes.new }
{
    if is_free(image, marks, b) {
        return;
    }
    codes[4 * b] = 5;
}

// The same of the blocks from `low` on.
fn note_freed(image: &[u8], n: usize, marks: &[u8], low: usize, codes: &mut [u8])
    requires { (Shape image.now n) × (low ≤ n) × (n ≤ length marks.now) × (length codes.old ≡ 4 * n) }
    ensures { FreedNoted image.now marks.now low (n - low) codes.old codes.new }
{
    for b in low..n {
        note_block(image, marks, b, codes);
    }
}

// Whether entry b is claimed or 0.
fn is_free(image: &[u8], marks: &[u8], b: usize) -> bool
    requires { (512 * table_block_of b + 512 ≤ length image.now) × (b < length marks.now) }
    ensures { IsFree image.now marks.now b result }
{
    marks[b] != 0 || layout::table::entry(image, b) == 0
}

// The same of the entries from n on and below `end`.
fn all_free(image: &[u8], n: usize, marks: &[u8], end: usize) -> bool
    requires { (Shape image.now n) × (end ≤ 128 * table_blocks n) × (end ≤ length marks.now) }
    ensures { AllFree image.now marks.now n (end - n) result }
{
    (n..end).all(|b| is_free(image, marks, b))
}

// Whether the header is right.
fn head_right(image: &[u8], n: usize) -> bool
    requires { Shape image.now n }
    ensures { result ≡ same image.now (head_put image.now) }
{
    if layout::check::head(image).is_err() {
        return false;
    }
    let used = layout::table::count_used(image, n);
    salvage::table::counts_right(image, n, used)
}

// The signature and the version.
fn sign(image: &mut [u8])
    requires { 12 ≤ length image.old }
    ensures { image.new ≡ signed image.old }
{
    if image.starts_with(SIGNATURE) {
        return;
    }
    layout::bytes::copy(SIGNATURE, &mut image[..12]);
}

// Puts the header right.
fn put_header(image: &mut [u8], t: usize, n: usize)
    requires { (Shape image.old n) × (t ≡ table_blocks n) }
    ensures { image.new ≡ head_put image.old }
{
    sign(image);
    super::numbers::put_number(image, 12, n);
    super::numbers::put_number(image, 16, t);
    super::numbers::put_number(image, 28, t + 1);
    salvage::table::put_counts(image, n);
}

// The table's entries 0 to t and those of the blocks; it gives whether the first were right.
fn put_blocks(image: &mut [u8], t: usize, n: usize, marks: &[u8], codes: &mut [u8]) -> bool
    requires { Ready image.old t n marks.now codes.old }
    ensures { BlocksPut image.old marks.now codes.old result image.new codes.new }
{
    let low = t + 1;
    let right = layout::table::ones(image, low);
    salvage::table::put_ones(image, low);
    note_freed(image, n, marks, low, codes);
    salvage::table::free_entries(image, n, marks, low, n - low);
    right
}

// The table's entries from n on; it gives whether they were right.
fn put_padding(image: &mut [u8], t: usize, n: usize, marks: &[u8]) -> bool
    requires { Room image.old t n marks.now }
    ensures { PaddingPut image.old marks.now result image.new }
{
    let end = 128 * t;
    let right = all_free(image, n, marks, end);
    salvage::table::free_entries(image, n, marks, n, end - n);
    right
}

// All of it, with the code of the header.
pub fn put_rest(image: &mut [u8], t: usize, n: usize, marks: &[u8], codes: &mut [u8])
    requires { Ready image.old t n marks.now codes.old }
    ensures { RestPut image.old marks.now codes.old image.new codes.new }
{
    let ones = put_blocks(image, t, n, marks, codes);
    let padded = put_padding(image, t, n, marks);
    let head = head_right(image, n);
    put_header(image, t, n);
    super::numbers::note(codes, 0, 0, ones && padded && head);
}
