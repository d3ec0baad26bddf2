// Stages 4 and 5: from a directory to its entries, and from an entry to a child directory. The blocks of each directory met are marked.
ghost use Rattle.std.specs.Prelude.{◌+◌, ◌-◌, ◌*◌, ◌≤◌, ◌<◌, ◌≡◌, length};
ghost use Rattle.layout.specs.Limits.{max_levels};
ghost use Rattle.layout.specs.Reasons.{outcome};
ghost use Rattle.layout.specs.Table.{next, chain};
ghost use Rattle.layout.specs.Directory.{slot_at, type_of};
ghost use Rattle.layout.specs.Walks.Chains.{walked};
ghost use Rattle.layout.specs.Walks.Names.{NoteRoom};
ghost use Rattle.layout.specs.Walks.Shapes.{Room, DirectoryAt};
ghost use Rattle.layout.specs.Walks.Slots.{entry_at};
ghost use Rattle.layout.specs.Walks.Stages.{child_entry, follow_child, visited, walk_entry, walk_entries, walk_child, walk_root};

use super::directory::number_at;
use super::limits::MAX_LEVELS;
use super::refusal::Refusal;

// Whether the entry of a child directory, in slot k of block at, and the child's self entry have the same size and name.
fn child_matches(image: &[u8], n: usize, at: usize, k: usize) -> bool
    requires { (512 * n ≤ length image.now) × (at < n) }
    ensures { result ≡ child_entry image.now n (entry_at at k) }
{
    let b = number_at(image, at, k, 4);
    if n <= b {
        return false;
    }
    if number_at(image, b, 0, 12) != number_at(image, at, k, 12) {
        return false;
    }
    super::bytes::equal(
        super::directory::field_at(image, b, 0),
        super::directory::field_at(image, at, k),
    )
}

// Stage 4 of the child directory whose entry is in slot k of block at. It marks the child's blocks.
fn child_ok(
    image: &[u8],
    t: usize,
    n: usize,
    parent: usize,
    at: usize,
    k: usize,
    marks: &mut [u8],
) -> bool
    requires { (Room image.now t n marks.old) × (at < n) }
    ensures { walked result marks.new ≡ follow_child image.now n parent (entry_at at k) marks.old }
{
    if !child_matches(image, n, at, k) {
        return false;
    }
    let b = number_at(image, at, k, 4);
    super::directory::directory_ok(image, t, n, b, parent, marks)
}

// The type of the end slot of a directory.
fn end_type(image: &[u8], n: usize, first: usize, d: usize) -> u8
    requires { DirectoryAt image.now n first d }
    ensures { result ≡ type_of image.now (slot_at (chain (next image.now) first d) (4 * d - 1)) }
{
    let b = super::table::nth(image, n, first, d, d - 1);
    super::directory::type_at(image, b, 4 * d - 1)
}

// The directory of d blocks from b on, and all below it, at most `left` levels: its end slot, then its slots; the first fault is refused.
#[cycle(directory_check_entry_check)]
fn directory_check(
    image: &[u8],
    t: usize,
    n: usize,
    b: usize,
    d: usize,
    left: usize,
    prints: &mut [usize],
    places: &mut [usize],
    seen: &mut [u8],
    marks: &mut [u8],
) -> Result<(), Refusal>
    requires { (Room image.now t n marks.old) × (DirectoryAt image.now n b d) × (left ≤ max_levels) × (NoteRoom prints.old places.old seen.old) }
    ensures { visited (outcome result) marks.new
        ≡ walk_entries (walk_child left image.now n b) image.now (chain (next image.now) b d) d marks.old }
{
    if end_type(image, n, b, d) != 0xFF {
        return Err(Refusal::BadSlot);
    }
    let bad = super::names::bad_slot(image, n, b, d, prints, places, seen);
    let mut at = b;
    for k in 1..4 * d - 1 {
        if k == bad {
            return Err(Refusal::BadSlot);
        }
        entry_check(image, t, n, b, at, k, left, prints, places, seen, marks)?;
        at = super::directory::following(image, at, k + 1);
    }
    Ok(())
}

// Slot k, a right one, in block at, of the directory at block b: if it is a child directory's, the child and all below it.
#[cycle(directory_check_entry_check)]
fn entry_check(
    image: &[u8],
    t: usize,
    n: usize,
    b: usize,
    at: usize,
    k: usize,
    left: usize,
    prints: &mut [usize],
    places: &mut [usize],
    seen: &mut [u8],
    marks: &mut [u8],
) -> Result<(), Refusal>
    requires { (Room image.now t n marks.old) × (at < n) × (left ≤ max_levels) × (NoteRoom prints.old places.old seen.old) }
    ensures { visited (outcome result) marks.new ≡ walk_entry (walk_child left image.now n b) image.now (entry_at at k) marks.old }
{
    if !super::directory::is_directory(super::directory::type_at(image, at, k)) {
        return Ok(());
    }
    if left == 0 {
        return Err(Refusal::BadSelf);
    }
    if !child_ok(image, t, n, b, at, k, marks) {
        return Err(Refusal::BadSelf);
    }
    let child = number_at(image, at, k, 4);
    let d = number_at(image, child, 0, 12);
    directory_check(image, t, n, child, d, left - 1, prints, places, seen, marks)
}

// The root and all below it, with room to note the slots of one directory after the other.
fn visit_with(
    image: &[u8],
    t: usize,
    n: usize,
    prints: &mut [usize],
    places: &mut [usize],
    seen: &mut [u8],
    marks: &mut [u8],
) -> Result<(), Refusal>
    requires { (Room image.now t n marks.old) × (NoteRoom prints.old places.old seen.old) }
    ensures { visited (outcome result) marks.new ≡ walk_root image.now n marks.old }
{
    let root = t + 1;
    if !super::directory::directory_ok(image, t, n, root, root, marks) {
        return Err(Refusal::BadSelf);
    }
    let d = number_at(image, root, 0, 12);
    directory_check(
        image, t, n, root, d, MAX_LEVELS, prints, places, seen, marks,
    )
}

// The root and all below it: stages 4 and 5 of the whole tree.
pub fn visit(image: &[u8], t: usize, n: usize, marks: &mut [u8]) -> Result<(), Refusal>
    requires { Room image.now t n marks.old }
    ensures { visited (outcome result) marks.new ≡ walk_root image.now n marks.old }
{
    let mut prints = super::names::no_slots();
    let mut places = super::names::no_slots();
    let mut seen = super::names::no_names();
    visit_with(image, t, n, &mut prints, &mut places, &mut seen, marks)
}
