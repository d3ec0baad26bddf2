// The slots of a directory by stage 5: the first that is not right, or whose name an earlier one has. Each name has a fingerprint, a checksum of its
// field: names whose fingerprints differ are different. A filter with a mark at each fingerprint met tells for most names that no earlier one has
// theirs; only where there is a mark are the earlier fingerprints looked through, and only where two agree the names.
ghost use Rattle.std.specs.Prelude.{◌+◌, ◌-◌, ◌*◌, ◌≤◌, ◌<◌, not, true, ◌≡◌, length, get_or};
ghost use Rattle.layout.specs.Limits.{max_slots};
ghost use Rattle.layout.specs.Bytes.{part, zeros};
ghost use Rattle.layout.specs.Table.{next, chain};
ghost use Rattle.layout.specs.Check.{slot_ok, new_name};
ghost use Rattle.layout.specs.Walks.Shapes.{DirectoryAt};
ghost use Rattle.layout.specs.Walks.Slots.{entry_at};
ghost use Rattle.layout.specs.Walks.Names.{fingerprint, other_name, other_names, bad_from, filter_size, SlotIn, Used, Noted, Filtered, NoteRoom, Nearest};

use super::limits::{MAX_SLOTS, NAME_FIELD};

// The places of the filter: a prime, so that all of a fingerprint counts.
const FILTER: usize = 4093;

// The fingerprint of a field of 80 bytes: its words, each by a weight of its own, added up.
pub fn fingerprint(field: &[u8]) -> usize
    requires { length field.now ≡ 80 }
    ensures { result ≡ fingerprint field.now }
{
    let mut sum = 0;
    for i in 0..NAME_FIELD / 4 {
        sum += (1048576 + i) * super::number::word(field, 4 * i) as usize;
    }
    sum
}

// The first index from `from` on, below `end`, at which p stands, or `end`.
fn nearest(prints: &[usize], p: usize, from: usize, end: usize) -> usize
    requires { (from ≤ end) × (end ≤ length prints.now) }
    ensures { Nearest prints.now p from end result }
{
    for i in from..end {
        if prints[i] == p {
            return i;
        }
    }
    end
}

// Whether slot i, in block c, is used and has the name of slot k, in block b, which is used. Right names are equal exactly if their fields are.
fn same_names(image: &[u8], b: usize, k: usize, c: usize, i: usize) -> bool
    requires { (512 * b + 512 ≤ length image.now) × (512 * c + 512 ≤ length image.now)
        × (Used image.now (entry_at b k)) × (slot_ok image.now (entry_at c i) ≡ true) }
    ensures { result ≡ not (other_name image.now (entry_at b k) (entry_at c i)) }
{
    if super::directory::type_at(image, c, i) == 0 {
        return false;
    }
    super::bytes::equal(
        super::directory::field_at(image, c, i),
        super::directory::field_at(image, b, k),
    )
}

// Whether a slot before k is used and has the name of slot k, in block b, which is used and whose fingerprint is noted.
pub fn name_in(
    image: &[u8],
    first: usize,
    d: usize,
    b: usize,
    k: usize,
    prints: &[usize],
    places: &[usize],
) -> bool
    requires { (Noted image.now (chain (next image.now) first d) prints.now places.now k) × (SlotIn image.now (chain (next image.now) first d) b k)
        × (Used image.now (entry_at b k)) × (get_or prints.now k 0 ≡ fingerprint (part image.now (entry_at b k + 48) 80)) }
    ensures { result ≡ not (other_names image.now (chain (next image.now) first d) (entry_at b k) 1 (k - 1)) }
{
    let p = prints[k];
    let mut i = nearest(prints, p, 1, k);
    while i < k {
        if same_names(image, b, k, places[i], i) {
            return true;
        }
        i = nearest(prints, p, i + 1, k);
    }
    false
}

// Whether slot k, in block b, is free or has a name that no slot before it has. It notes the slot for those after it, in the filter by the mark.
fn is_new(
    image: &[u8],
    first: usize,
    d: usize,
    b: usize,
    k: usize,
    mark: u8,
    prints: &mut [usize],
    places: &mut [usize],
    seen: &mut [u8],
) -> bool
    requires { (Noted image.now (chain (next image.now) first d) prints.old places.old k) × (Filtered image.now (chain (next image.now) first d) seen.old mark k)
        × (SlotIn image.now (chain (next image.now) first d) b k) × (slot_ok image.now (entry_at b k) ≡ true) }
    ensures { (result ≡ new_name image.now (chain (next image.now) first d) k)
        × (Noted image.now (chain (next image.now) first d) prints.new places.new (k + 1))
        × (Filtered image.now (chain (next image.now) first d) seen.new mark (k + 1)) }
{
    places[k] = b;
    if super::directory::type_at(image, b, k) == 0 {
        return true;
    }
    let p = fingerprint(super::directory::field_at(image, b, k));
    prints[k] = p;
    let h = p % FILTER;
    if seen[h] != mark {
        seen[h] = mark;
        return true;
    }
    !name_in(image, first, d, b, k, prints, places)
}

// The first slot of a directory that stage 5 refuses, not right or not new, or the end slot. It is lent room to note the slots, which may hold anything.
pub fn bad_slot(
    image: &[u8],
    n: usize,
    first: usize,
    d: usize,
    prints: &mut [usize],
    places: &mut [usize],
    seen: &mut [u8],
) -> usize
    requires { (DirectoryAt image.now n first d) × (NoteRoom prints.old places.old seen.old) }
    ensures { result ≡ bad_from image.now (chain (next image.now) first d) 1 (4 * d - 2) }
{
    let mark = (first % 255 + 1) as u8;
    let mut b = first;
    let mut k = 1;
    let mut left = 4 * d - 2;
    while 0 < left {
        if !super::directory::slot_ok_at(image, b, k) {
            return k;
        }
        if !is_new(image, first, d, b, k, mark, prints, places, seen) {
            return k;
        }
        k += 1;
        b = super::directory::following(image, b, k);
        left -= 1;
    }
    k
}

// Room for a number of each slot: its fingerprint, its block.
pub fn no_slots() -> [usize; MAX_SLOTS]
    ensures { result ≡ zeros max_slots }
{
    [0usize; MAX_SLOTS]
}

// A filter without a mark.
pub fn no_names() -> [u8; FILTER]
    ensures { result ≡ zeros filter_size }
{
    super::table::marks()
}
