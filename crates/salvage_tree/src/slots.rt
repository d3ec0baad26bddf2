// One slot: what is dropped, files, and the directory of an entry as far as its own blocks.
ghost use Rattle.std.specs.Prelude.{◌≡◌, ◌+◌, ◌*◌, ◌/◌, ◌≤◌, ◌<◌, length, get_or, IfSome};
ghost use Rattle.std.specs.Option.{unwrap_or};
ghost use Rattle.layout.specs.Limits.{max_directory};
ghost use Rattle.layout.specs.Bytes.{zeros, splice};
ghost use Rattle.layout.specs.Directory.{first_block};
ghost use Rattle.layout.specs.Walks.Shapes.{Shape, Room};
ghost use Rattle.layout.specs.Walks.Slots.{entry_at};
ghost use Rattle.salvage_tree.specs.SalvageTree.{coded, witness};
ghost use Rattle.salvage_tree.specs.Walks.{Own, Ready, FileDone, EntryTaken, Found, Entered};

// Zeroes slot k of block b, with a code.
pub fn drop_slot(image: &mut [u8], b: usize, k: usize, code: u8, codes: &mut [u8])
    requires { (512 * b + 512 ≤ length image.old) × (4 * b + 4 ≤ length codes.old) }
    ensures bytes { image.new ≡ splice image.old (entry_at b k) (zeros 128) }
    ensures codes { codes.new ≡ coded codes.old (entry_at b k) code }
{
    volume::file::clear_slot(image, b, k);
    super::numbers::put_code(codes, b, k, code);
}

// The file in slot k of block b, which meets stage 5.
fn take_file(
    image: &mut [u8],
    t: usize,
    n: usize,
    b: usize,
    k: usize,
    marks: &mut [u8],
    codes: &mut [u8],
)
    requires { (Ready image.old t n marks.old codes.old) × (b < n) }
    ensures { FileDone image.old (entry_at b k) marks.old codes.old image.new marks.new codes.new }
{
    let first = layout::directory::number_at(image, b, k, 4);
    let blocks = layout::directory::number_at(image, b, k, 12);
    if !salvage::chains::claim(image, t, n, first, blocks, marks) {
        drop_slot(image, b, k, 2, codes);
        return;
    }
    let code = salvage::slots::take_file(image, t, n, b, k, marks);
    super::numbers::put_code(codes, b, k, code);
}

// Slot k of a directory, in block b; it gives whether it is a child directory's that meets stage 5, which is left as it is.
pub fn take_entry(
    image: &mut [u8],
    t: usize,
    n: usize,
    blocks: &[usize],
    b: usize,
    k: usize,
    marks: &mut [u8],
    codes: &mut [u8],
) -> bool
    requires { (Ready image.old t n marks.old codes.old) × (Own n blocks.now) × (1 ≤ k) × (k < 4 * length blocks.now) × (b ≡ get_or blocks.now (k / 4) 0) }
    ensures { EntryTaken image.old blocks.now k marks.old codes.old result image.new marks.new codes.new }
{
    let ty = layout::directory::type_at(image, b, k);
    if ty == 0 {
        return false;
    }
    if !super::names::slot_right(image, n, blocks, b, k) {
        drop_slot(image, b, k, 1, codes);
        return false;
    }
    if layout::directory::is_file(ty) {
        take_file(image, t, n, b, k, marks, codes);
        return false;
    }
    true
}

// Whether the blocks are the directory of the entry in slot k of block b, whose first block is the first of them.
fn is_witnessed(image: &[u8], n: usize, b: usize, k: usize, blocks: &[usize]) -> bool
    requires { (Shape image.now n) × (Own n blocks.now) × (b < n) × (first_block image.now (entry_at b k) ≡ get_or blocks.now 0 0) }
    ensures { result ≡ witness image.now (entry_at b k) blocks.now }
{
    let first = blocks[0];
    let last = blocks[blocks.len() - 1];
    let own_number = layout::directory::number_at(image, first, 0, 4) == first;
    let own_name = layout::directory::field_at(image, first, 0)
        == layout::directory::field_at(image, b, k);
    let own_size = layout::directory::number_at(image, b, k, 12) == blocks.len();
    let ended = layout::directory::type_at(image, last, 3) == 0xFF;
    own_number || own_name || own_size && ended
}

// The blocks of the directory of the entry in slot k of block b; how many, or none if it has none or no witness.
fn find_blocks(
    image: &[u8],
    t: usize,
    n: usize,
    b: usize,
    k: usize,
    marks: &[u8],
    blocks: &mut [usize],
) -> Option<usize>
    requires { (Room image.now t n marks.now) × (b < n) × (length blocks.old ≡ max_directory) }
    ensures found { Found image.now n (entry_at b k) marks.now (unwrap_or result 0) blocks.new }
    ensures some { IfSome result (λ d. 0 < d) }
{
    let first = layout::directory::number_at(image, b, k, 4);
    let said = layout::directory::number_at(image, b, k, 12);
    if !super::blocks::is_good(t, n, marks, first) {
        return None;
    }
    let sure = layout::directory::number_at(image, first, 0, 12) == said;
    let d = super::blocks::choose(image, t, n, first, said, sure, marks, blocks);
    if !is_witnessed(image, n, b, k, &blocks[..d]) {
        return None;
    }
    Some(d)
}

// The child directory of the entry in slot k of block b is put right; it gives how many blocks it has, or none if the entry is zeroed.
pub fn enter(
    image: &mut [u8],
    t: usize,
    n: usize,
    parent: usize,
    b: usize,
    k: usize,
    blocks: &mut [usize],
    marks: &mut [u8],
    codes: &mut [u8],
) -> Option<usize>
    requires { (Ready image.old t n marks.old codes.old) × (parent < n) × (b < n) × (length blocks.old ≡ max_directory) }
    ensures entered { Entered image.old n parent (entry_at b k) marks.old codes.old (unwrap_or result 0) blocks.new image.new marks.new codes.new }
    ensures some { IfSome result (λ d. 0 < d) }
{
    let Some(d) = find_blocks(image, t, n, b, k, marks, blocks) else {
        drop_slot(image, b, k, 2, codes);
        return None;
    };
    super::put::adopt(image, t, n, b, k, &blocks[..d], parent, marks, codes);
    Some(d)
}
