// Move, on an image that the caller has checked: the entry of a file goes, under the name of another path, to a slot of that path's directory.
ghost use Rattle.std.specs.Prelude.{◌≡◌, true, ◌∷◌, [], ◌++◌, ◌+◌, ◌*◌, ◌≤◌, length};
ghost use Rattle.layout.specs.Reasons.{outcome};
ghost use Rattle.layout.specs.Bytes.{part, splice, zeros};
ghost use Rattle.layout.specs.Table.{next, chain};
ghost use Rattle.layout.specs.Directory.{blocks_of, directory, padded};
ghost use Rattle.layout.specs.Check.{check};
ghost use Rattle.layout.specs.Paths.{path_ok, parts, last_part};
ghost use Rattle.layout.specs.Walks.Shapes.{DirectoryAt};
ghost use Rattle.layout.specs.Walks.Slots.{StandsAt, entry_at};
ghost use Rattle.volume.specs.Move.{open_slot};
ghost use Rattle.volume.specs.Walks.Marks.{marked};
ghost use Rattle.volume.specs.Walks.Moves.{either_form, PreparesFor};

use layout::directory::Entry;
use layout::file::File;
use layout::refusal::Refusal;

// The bytes of an entry before its name.
const HEAD: usize = 48;

// The refusal of two paths by their forms, x that of one and y that of the other: 9 before 17.
fn either_form(x: Result<(), Refusal>, y: Result<(), Refusal>) -> Result<(), Refusal>
    ensures { outcome result ≡ either_form (outcome x) (outcome y) }
{
    if y == Err(Refusal::BadArgument) {
        return y;
    }
    x?;
    y
}

// The lowest slot of a directory that is free or begins at `own`.
fn find_open(image: &[u8], n: usize, first: usize, d: usize, own: usize) -> Option<Entry>
    requires { DirectoryAt image.now n first d }
    ensures { StandsAt (chain (next image.now) first d) n (open_slot image.now (chain (next image.now) first d) own) result }
{
    let mut b = first;
    for slot in 1..4 * d - 1 {
        let at = 512 * b + 128 * (slot % 4);
        if (layout::directory::type_at(image, b, slot) == 0) | (at == own) {
            return Some(Entry { slot, block: b });
        }
        b = layout::directory::following(image, b, slot + 1);
    }
    None
}

// The same of the directory at block b.
fn open_slot(image: &[u8], n: usize, b: usize, own: usize) -> Option<Entry>
    requires { DirectoryAt image.now n b (blocks_of image.now (512 * b)) }
    ensures { StandsAt (directory image.now b) n (open_slot image.now (directory image.now b) own) result }
{
    let d = layout::directory::number_at(image, b, 0, 12);
    find_open(image, n, b, d, own)
}

// Where the entry goes, and as `first` and `size` the slot and the block where it stands; or the refusal.
pub fn move_refusal(image: &[u8], path: &[u8], to: &[u8]) -> Result<File, Refusal>
    requires { check image.now ≡ 0 }
    ensures { PreparesFor image.now path.now to.now result }
{
    either_form(
        layout::file::path_refusal(path),
        layout::file::path_refusal(to),
    )?;
    let Some(own) = layout::path::find_path(image, path, 0x60, 0x9F) else {
        return Err(Refusal::NotFound);
    };
    let Some(spot) = layout::path::follow_used(image, to) else {
        return Err(Refusal::NotFound);
    };
    if spot.entry.is_some() {
        return Err(Refusal::NameTaken);
    }
    let n = image.len() / 512;
    let place = 512 * own.block + 128 * (own.slot % 4);
    let Some(open) = open_slot(image, n, spot.home, place) else {
        return Err(Refusal::DirectoryFull);
    };
    Ok(File {
        slot: open.slot,
        block: open.block,
        first: own.slot,
        size: own.block,
        blocks: 0,
    })
}

// Marks the blocks of both slots.
pub fn move_named(found: File, marks: &mut [u8])
    requires { (found.size + 1 ≤ length marks.old) × (found.block + 1 ≤ length marks.old) }
    ensures { marks.new ≡ marked marks.old (found.size ∷ found.block ∷ []) }
{
    super::marks::mark(marks, found.size);
    super::marks::mark(marks, found.block);
}

// Writes all the bytes of a slot: those before the name, the name, and 0 after it.
fn fill_renamed(slot: &mut [u8], head: &[u8], name: &[u8])
    requires { (length slot.old ≡ 128) × (length head.now ≡ 48) × (length name.now ≤ 80) }
    ensures { slot.new ≡ head.now ++ padded name.now }
{
    slot.fill(0);
    layout::bytes::copy(head, &mut slot[..HEAD]);
    layout::bytes::copy(name, &mut slot[HEAD..HEAD + name.len()]);
}

// The same for the slot at o of a directory's block.
fn put_renamed(block: &mut [u8], o: usize, head: &[u8], name: &[u8])
    requires { (o + 128 ≤ length block.old) × (length head.now ≡ 48) × (length name.now ≤ 80) }
    ensures { block.new ≡ splice block.old o (head.now ++ padded name.now) }
{
    fill_renamed(&mut block[o..o + 128], head, name);
}

// The same for slot k of an image's directory, which is in block b.
fn put_moved(image: &mut [u8], b: usize, k: usize, head: &[u8], name: &[u8])
    requires { (512 * b + 512 ≤ length image.old) × (length head.now ≡ 48) × (length name.now ≤ 80) }
    ensures { image.new ≡ splice image.old (entry_at b k) (head.now ++ padded name.now) }
{
    let a = 512 * b;
    put_renamed(&mut image[a..a + 512], 128 * (k % 4), head, name);
}

// Copies the bytes before the name of slot k, which is in block b.
fn copy_head(image: &[u8], b: usize, k: usize, head: &mut [u8])
    requires { (512 * b + 512 ≤ length image.now) × (length head.old ≡ 48) }
    ensures { head.new ≡ part image.now (entry_at b k) 48 }
{
    let o = 128 * (k % 4);
    layout::bytes::copy(&layout::bytes::block(image, b)[o..o + HEAD], head);
}

// Moves the entry: its old slot is zeroed, and the new one written.
pub fn move_entry(image: &mut [u8], found: File, to: &[u8])
    requires { (512 * found.size + 512 ≤ length image.old) × (512 * found.block + 512 ≤ length image.old) × (path_ok to.now ≡ true) }
    ensures { image.new ≡ splice (splice image.old (entry_at found.size found.first) (zeros 128)) (entry_at found.block found.slot) (part image.old (entry_at found.size found.first) 48 ++ padded (last_part (parts to.now))) }
{
    let mut head = [0; HEAD];
    copy_head(image, found.size, found.first, &mut head);
    super::file::clear_slot(image, found.size, found.first);
    put_moved(
        image,
        found.block,
        found.slot,
        &head,
        layout::path::last_part(to),
    );
}
