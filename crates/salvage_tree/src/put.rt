// A directory put right: the values of its chain, its self entry, its end slot.
ghost use Rattle.std.specs.Prelude.{[], ◌≡◌, ◌+◌, ◌*◌, ◌≤◌, ◌<◌, length, get_or};
ghost use Rattle.layout.specs.Limits.{max_blocks, max_directory};
ghost use Rattle.layout.specs.Lists.{same};
ghost use Rattle.layout.specs.Bytes.{part};
ghost use Rattle.layout.specs.Walks.Shapes.{Shape};
ghost use Rattle.layout.specs.Walks.Slots.{entry_at};
ghost use Rattle.salvage_tree.specs.SalvageTree.{put_byte, linked, self_put, sized};
ghost use Rattle.salvage_tree.specs.Walks.{st, Own, Ready, links_right, self_right, PutDone, Adopted};

use layout::limits::NAME_FIELD;

// Whether the value of each block is the next of them, and of the last 1.
fn links_right(image: &[u8], n: usize, blocks: &[usize]) -> bool
    requires { (Shape image.now n) × (Own n blocks.now) }
    ensures { result ≡ links_right image.now blocks.now }
{
    let mut b = blocks[0];
    for i in 1..blocks.len() {
        if layout::table::entry(image, b) != blocks[i] {
            return false;
        }
        b = blocks[i];
    }
    layout::table::entry(image, b) == 1
}

// Sets the value of each block to the next of them, and of the last to 1.
fn link(image: &mut [u8], n: usize, blocks: &[usize])
    requires { (Shape image.old n) × (Own n blocks.now) }
    ensures { image.new ≡ linked image.old blocks.now }
{
    let mut b = blocks[0];
    for i in 1..blocks.len() {
        super::numbers::put_value(image, b, blocks[i]);
        b = blocks[i];
    }
    super::numbers::put_value(image, b, 1);
}

// Whether the self entry of block b is right: of d blocks, with this parent and this name.
fn self_right(image: &[u8], b: usize, parent: usize, d: usize, field: &[u8]) -> bool
    requires { (512 * b + 512 ≤ length image.now) × (length field.now ≡ 80) }
    ensures { result ≡ self_right image.now b parent d field.now }
{
    if layout::directory::type_at(image, b, 0) != 1
        || layout::directory::number_at(image, b, 0, 4) != b
        || layout::directory::number_at(image, b, 0, 8) != parent
        || layout::directory::number_at(image, b, 0, 12) != d
    {
        return false;
    }
    super::numbers::has_field(image, 512 * b + 48, field)
}

// Puts the self entry of block b right.
fn put_self(image: &mut [u8], b: usize, parent: usize, d: usize, field: &[u8])
    requires { (512 * b + 512 ≤ length image.old) × (b ≤ max_blocks) × (parent ≤ max_blocks) × (d ≤ max_directory) × (length field.now ≡ 80) }
    ensures { image.new ≡ self_put image.old b parent d field.now }
{
    let e = 512 * b;
    super::numbers::put_byte(image, e, 1);
    super::numbers::put_number(image, e + 4, b);
    super::numbers::put_number(image, e + 8, parent);
    super::numbers::put_number(image, e + 12, d);
    super::numbers::put_field(image, e + 48, field);
}

// Puts right the chain and the self entry of a directory, and gives whether all of it was right.
fn put_head(image: &mut [u8], n: usize, blocks: &[usize], parent: usize, field: &[u8]) -> bool
    requires { (Shape image.old n) × (Own n blocks.now) × (parent < n) × (length field.now ≡ 80) }
    ensures right { result ≡ same image.old image.new }
    ensures bytes { image.new ≡ self_put (linked image.old blocks.now) (get_or blocks.now 0 0) parent (length blocks.now) field.now }
{
    let b = blocks[0];
    let d = blocks.len();
    let chained = links_right(image, n, blocks);
    link(image, n, blocks);
    let named = self_right(image, b, parent, d, field);
    put_self(image, b, parent, d, field);
    chained & named
}

// Puts right the type of the end slot, which is in block b, and gives whether it was.
fn put_end(image: &mut [u8], b: usize) -> bool
    requires { 512 * b + 512 ≤ length image.old }
    ensures right { result ≡ same image.old image.new }
    ensures bytes { image.new ≡ put_byte image.old (512 * b + 384) 0xFF }
{
    if layout::directory::type_at(image, b, 3) == 0xFF {
        return true;
    }
    volume::file::end_block(image, b);
    false
}

// Puts a directory right: its blocks, its parent, its name's field.
pub fn put_directory(
    image: &mut [u8],
    t: usize,
    n: usize,
    blocks: &[usize],
    parent: usize,
    field: &[u8],
    marks: &mut [u8],
    codes: &mut [u8],
)
    requires { (Ready image.old t n marks.old codes.old) × (Own n blocks.now) × (parent < n) × (length field.now ≡ 80) }
    ensures { PutDone image.old blocks.now parent field.now marks.old codes.old image.new marks.new codes.new }
{
    let b = blocks[0];
    let last = blocks[blocks.len() - 1];
    let head = put_head(image, n, blocks, parent, field);
    super::numbers::note(codes, b, 0, head);
    let end = put_end(image, last);
    super::numbers::note(codes, last, 3, end);
    super::blocks::claim_blocks(blocks, marks);
}

// Puts right a directory, with the name's field of slot k of block b.
pub fn put_named(
    image: &mut [u8],
    t: usize,
    n: usize,
    b: usize,
    k: usize,
    blocks: &[usize],
    parent: usize,
    marks: &mut [u8],
    codes: &mut [u8],
)
    requires { (Ready image.old t n marks.old codes.old) × (Own n blocks.now) × (parent < n) × (b < n) }
    ensures { PutDone image.old blocks.now parent (part image.old (entry_at b k + 48) 80) marks.old codes.old image.new marks.new codes.new }
{
    let mut field = [0; NAME_FIELD];
    layout::bytes::copy(layout::directory::field_at(image, b, k), &mut field);
    put_directory(image, t, n, blocks, parent, &field, marks, codes);
}

// Sets the size in blocks of the entry in slot k of block b, with its code.
fn put_size(image: &mut [u8], b: usize, k: usize, d: usize, codes: &mut [u8])
    requires { (512 * b + 512 ≤ length image.old) × (4 * b + 4 ≤ length codes.old) × (d ≤ max_directory) }
    ensures bytes { image.new ≡ (sized (st image.old [] codes.old) (entry_at b k) d).image }
    ensures codes { codes.new ≡ (sized (st image.old [] codes.old) (entry_at b k) d).codes }
{
    let i = k % 4;
    let right = layout::directory::number_at(image, b, k, 12) == d;
    super::numbers::put_number(image, 512 * b + 128 * i + 12, d);
    super::numbers::note(codes, b, i, right);
}

// The blocks are made the directory of the entry in slot k of block b.
pub fn adopt(
    image: &mut [u8],
    t: usize,
    n: usize,
    b: usize,
    k: usize,
    blocks: &[usize],
    parent: usize,
    marks: &mut [u8],
    codes: &mut [u8],
)
    requires { (Ready image.old t n marks.old codes.old) × (Own n blocks.now) × (parent < n) × (b < n) }
    ensures { Adopted image.old parent (entry_at b k) blocks.now marks.old codes.old image.new marks.new codes.new }
{
    let mut field = [0; NAME_FIELD];
    layout::bytes::copy(layout::directory::field_at(image, b, k), &mut field);
    put_size(image, b, k, blocks.len(), codes);
    put_directory(image, t, n, blocks, parent, &field, marks, codes);
}
