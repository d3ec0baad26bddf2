// The root's slots, one after the other.
ghost use Rattle.std.specs.Prelude.{cond, ◌&&◌, ◌≡◌, ℕ, ◌+◌, ◌*◌, ◌≤◌, ◌<◌, length, set};
ghost use Rattle.layout.specs.Bytes.{part};
ghost use Rattle.layout.specs.Table.{next, chain};
ghost use Rattle.layout.specs.Directory.{first_block, blocks_of, type_of};
ghost use Rattle.layout.specs.Check.{slot_ok, new_name};
ghost use Rattle.layout.specs.Walks.Names.{fingerprint};
ghost use Rattle.layout.specs.Walks.Shapes.{Room, ChainBelow};
ghost use Rattle.layout.specs.Walks.Slots.{entry_at};
ghost use Rattle.salvage.specs.Walks.{FileTaken, SlotTaken, SlotGiven, RootGiven, RootTaken};

use layout::limits::MAX_SLOTS;

// The root of a volume of n blocks with t table blocks: d blocks from `first` on.
#[derive(Clone, Copy)]
pub struct Root {
    pub t: usize,
    pub n: usize,
    pub first: usize,
    pub d: usize,
}

// What is noted of each slot: the fingerprint of its name, and its block. The look-up of names goes through the fingerprints alone, so they are an array of their own.
#[derive(Drop)]
struct Notes {
    prints: [usize; MAX_SLOTS],
    places: [usize; MAX_SLOTS],
}

// The code of a file that is kept, by whether the last value of each of its chains was right.
fn file_code(own: bool, second: bool) -> u8
    ensures { ◌≡◌ {A = ℕ} result (cond (own && second) 0 3) }
{
    if own && second { 0 } else { 3 }
}

// The file in slot k of block b, whose own chain is claimed: the last value of it, then the chain of its attributes. It gives the slot's code.
pub fn take_file(image: &mut [u8], t: usize, n: usize, b: usize, k: usize, marks: &mut [u8]) -> u8
    requires { (Room image.old t n marks.old) × (b < n) × (ChainBelow image.old n (first_block image.old (entry_at b k)) (blocks_of image.old (entry_at b k))) }
    ensures { FileTaken image.old marks.old (entry_at b k) result image.new marks.new }
{
    let first = layout::directory::number_at(image, b, k, 4);
    let blocks = layout::directory::number_at(image, b, k, 12);
    let own = super::chains::end_chain(image, n, first, blocks);
    let c = layout::file::attribute_chain(image, b, k);
    if !super::chains::claim(image, t, n, c.first, c.blocks, marks) {
        volume::file::set_attribute_fields(image, b, k, 0, 0);
        return 4;
    }
    let second = super::chains::end_chain(image, n, c.first, c.blocks);
    file_code(own, second)
}

// Whether slot k, in block b, which is not free, is right and its name new. The slots before it are right.
fn slot_right(image: &[u8], root: Root, notes: &Notes, b: usize, k: usize) -> bool
    requires { (SlotGiven image.now root.first root.d notes.now.prints notes.now.places b k) × (type_of image.now (entry_at b k) ≡ 0 → ⊥) }
    ensures { result ≡ slot_ok image.now (entry_at b k) && new_name image.now (chain (next image.now) root.first root.d) k }
{
    layout::directory::slot_ok_at(image, b, k)
        && !layout::names::name_in(
            image,
            root.first,
            root.d,
            b,
            k,
            &notes.prints,
            &notes.places,
        )
}

// Slot k of the root, in block b. It gives the slot's code.
fn take_slot(
    image: &mut [u8],
    root: Root,
    notes: &Notes,
    b: usize,
    k: usize,
    marks: &mut [u8],
) -> u8
    requires { (Room image.old root.t root.n marks.old) × (b < root.n) × (SlotGiven image.old root.first root.d notes.now.prints notes.now.places b k) }
    ensures { SlotTaken image.old marks.old (chain (next image.old) root.first root.d) k result image.new marks.new }
{
    if layout::directory::type_at(image, b, k) == 0 {
        return 0;
    }
    if !slot_right(image, root, notes, b, k) {
        volume::file::clear_slot(image, b, k);
        return 1;
    }
    let file = layout::directory::number_at(image, b, k, 4);
    let blocks = layout::directory::number_at(image, b, k, 12);
    if !super::chains::claim(image, root.t, root.n, file, blocks, marks) {
        volume::file::clear_slot(image, b, k);
        return 2;
    }
    take_file(image, root.t, root.n, b, k, marks)
}

// The fingerprint of the name of slot k, in block b.
fn fingerprint_at(image: &[u8], b: usize, k: usize) -> usize
    requires { 512 * b + 512 ≤ length image.now }
    ensures { result ≡ fingerprint (part image.now (entry_at b k + 48) 80) }
{
    layout::names::fingerprint(layout::directory::field_at(image, b, k))
}

// All slots of the root from 1 to 4·d − 2; the code of each goes into the report. A slot's block and fingerprint are noted, the fingerprint again when it is done: it may be free now.
pub fn take_slots(image: &mut [u8], root: Root, marks: &mut [u8], report: &mut [u8])
    requires { RootGiven image.old root.t root.n root.first root.d marks.old report.old }
    ensures { RootTaken image.old report.old image.new marks.new report.new }
{
    let mut notes = Notes {
        prints: [0; MAX_SLOTS],
        places: [0; MAX_SLOTS],
    };
    let mut b = root.first;
    for k in 1..4 * root.d - 1 {
        notes.places[k] = b;
        notes.prints[k] = fingerprint_at(image, b, k);
        report[k] = take_slot(image, root, &notes, b, k, marks);
        notes.prints[k] = fingerprint_at(image, b, k);
        b = layout::directory::following(image, b, k + 1);
    }
}
