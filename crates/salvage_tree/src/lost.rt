// Lost folders: directories of the root that no entry names, hung again in free slots of the root.
ghost use Rattle.std.specs.Prelude.{◌≡◌, ◌+◌, ◌*◌, ◌≤◌, ◌<◌, true, length, get_or};
ghost use Rattle.layout.specs.Directory.{blocks_of, name_ok};
ghost use Rattle.layout.specs.Walks.Shapes.{Room, DirectoryAt};
ghost use Rattle.layout.specs.Walks.Slots.{entry_at};
ghost use Rattle.salvage_tree.specs.SalvageTree.{hung_at};
ghost use Rattle.salvage_tree.specs.Walks.{Ready, LooksLost, unnamed, HungIn, HangDone, TreeTaken, FoldersDone};

// Whether block b is not claimed, in use, and begins as a directory of the root with a good name.
fn looks_lost(image: &[u8], t: usize, n: usize, marks: &[u8], b: usize) -> bool
    requires { (Room image.now t n marks.now) × (b < n) }
    ensures { LooksLost image.now (t + 1) b marks.now result }
{
    if marks[b] != 0 || layout::table::entry(image, b) == 0 {
        return false;
    }
    if layout::directory::type_at(image, b, 0) != 1
        || layout::directory::number_at(image, b, 0, 4) != b
        || layout::directory::number_at(image, b, 0, 8) != t + 1
    {
        return false;
    }
    layout::bytes::name_ok(layout::directory::field_at(image, b, 0))
}

// Whether no slot of the root has the name of block b's self entry, which is good.
fn is_unnamed(image: &[u8], n: usize, root: usize, b: usize) -> bool
    requires { (DirectoryAt image.now n root (blocks_of image.now (512 * root))) × (b < n) × (root < n) × (name_ok image.now (512 * b) ≡ true) }
    ensures { result ≡ unnamed image.now root (512 * b) }
{
    let d = layout::directory::number_at(image, root, 0, 12);
    let mut blocks = super::blocks::no_blocks();
    super::blocks::read_blocks(image, n, root, d, &mut blocks);
    super::names::is_new(
        image,
        n,
        &blocks[..d],
        4 * d - 2,
        super::names::name_at(image, b, 0),
    )
}

// Slot k of block `at` gets block b's self entry, as that of a child directory.
fn put_hung(image: &mut [u8], at: usize, k: usize, b: usize)
    requires { (512 * at + 512 ≤ length image.old) × (512 * b + 512 ≤ length image.old) }
    ensures { image.new ≡ hung_at image.old (entry_at at k) b }
{
    let mut entry = [0; 128];
    layout::bytes::copy_part(image, 512 * b, &mut entry, 0, 128);
    let e = 512 * at + 128 * (k % 4);
    layout::bytes::copy_part(&entry, 0, image, e, 128);
    super::numbers::set_byte(image, e, 0x20);
    volume::file::clear_bytes(image, at, k, 8, 4);
    volume::file::clear_bytes(image, at, k, 32, 8);
}

// The lost folder at block b is hung in slot k of block `at`, with all below it.
fn hang_at(
    image: &mut [u8],
    t: usize,
    n: usize,
    b: usize,
    at: usize,
    k: usize,
    marks: &mut [u8],
    codes: &mut [u8],
)
    requires { (Ready image.old t n marks.old codes.old) × (t < b) × (b < n) × (get_or marks.old b 0 ≡ 0) × (at < n) }
    ensures { HungIn image.old (t + 1) (entry_at at k) b marks.old codes.old image.new marks.new codes.new }
{
    let said = layout::directory::number_at(image, b, 0, 12);
    let mut own = super::blocks::no_blocks();
    let d = super::blocks::choose(image, t, n, b, said, false, marks, &mut own);
    put_hung(image, at, k, b);
    super::put::adopt(image, t, n, at, k, &own[0..d], t + 1, marks, codes);
    super::tree::take_slots(image, t, n, &own[0..d], 7, marks, codes);
    super::numbers::put_code(codes, at, k, 6);
}

// Block b, hung if it is a lost folder and the root has room.
fn hang(image: &mut [u8], t: usize, n: usize, b: usize, marks: &mut [u8], codes: &mut [u8])
    requires { (Ready image.old t n marks.old codes.old) × (t < b) × (b < n) × (DirectoryAt image.old n (t + 1) (blocks_of image.old (512 * (t + 1)))) }
    ensures { HangDone image.old (t + 1) b marks.old codes.old image.new marks.new codes.new }
{
    let root = t + 1;
    if !looks_lost(image, t, n, marks, b) || !is_unnamed(image, n, root, b) {
        return;
    }
    if let Some(free) = layout::directory::free_slot(image, n, root) {
        hang_at(image, t, n, b, free.block, free.slot, marks, codes);
    }
}

// All lost folders, in ascending order of their blocks.
pub fn hang_each(image: &mut [u8], t: usize, n: usize, marks: &mut [u8], codes: &mut [u8])
    requires { (Ready image.old t n marks.old codes.old) × (TreeTaken image.old marks.old codes.old) }
    ensures { FoldersDone image.old marks.old codes.old image.new marks.new codes.new }
{
    for b in t + 2..n {
        hang(image, t, n, b, marks, codes);
    }
}
