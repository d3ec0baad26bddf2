// The form of a file of the store, in a room that has the file's first bytes.
ghost use Rattle.std.specs.Prelude.{◌+◌, ◌-◌, ◌≤◌, ◌<◌, ◌≡◌, ◌≢◌, true, false, ◌∷◌, length, MatchOption, IfSome};
ghost use Rattle.layout.specs.Bytes.{be32, bytes4, zeros, part, splice};
ghost use Rattle.store.specs.Settings.{max_setting, max_revisions, max_number, record_bytes, whole_file, encoded, broken, held, records_in, numbered, added};
ghost use Rattle.store.specs.Get.{stands, data_of};
ghost use Rattle.store.specs.Walks.Loads.{Loaded};
ghost use Rattle.store.specs.Walks.Forms.{max_form, length_at, follows_on, held_by, in_room, form_in, Counted, Summary, dropped_by, length_after, revision};

use layout::number::get32;
use volume::number::put32;

// A setting has at most 200 bytes.
pub const MAX_SETTING: usize = 200;

// A file has 1 to 16 revisions.
const MAX_REVISIONS: usize = 16;

// The five bytes and 16 records of 205 bytes: a room has this length.
pub const MAX_FORM: usize = 3285;

// A room with nothing in it.
pub fn empty_room() -> [u8; MAX_FORM]
    ensures { result ≡ zeros max_form }
{
    [0u8; MAX_FORM]
}

// Of a file of the form: its used length, how many revisions it has, the number of the latest, 0 if there is none, and the length of the oldest record.
#[derive(Clone, Copy)]
#[derive(Drop)]
pub struct Form {
    pub used: usize,
    pub count: usize,
    pub last: u32,
    pub oldest: usize,
}

// The form before the first revision.
pub fn no_records() -> Form
    ensures { (result.used ≡ 5) × (result.count ≡ 0) × (result.last ≡ 0) × (result.oldest ≡ 0) }
{
    Form {
        used: 5,
        count: 0,
        last: 0,
        oldest: 0,
    }
}

// The length of the record at `at`, if one stands there.
fn record_length(records: &[u8], at: usize) -> Option<usize>
    requires { at < length records.now }
    ensures { MatchOption result (length_at records.now at ≡ 0) (λ size. (size ≡ length_at records.now at) × (size ≢ 0)) }
{
    let size = usize::from(records[at]);
    if MAX_SETTING < size || records.len() - at < 5 + size {
        return None;
    }
    Some(5 + size)
}

// Whether a number may follow the last one, 0 if there is none.
fn follows(last: u32, number: u32) -> bool
    ensures { result ≡ follows_on last number }
{
    number != 0 && (last == 0 || number - 1 == last)
}

// The form of a file that has these records. Each record says how long it is, so the offset moves on by that and no `for` counts it.
fn scan(records: &[u8]) -> Option<Form>
    requires { length records.now ≤ max_form }
    ensures { MatchOption result (numbered (records_in max_revisions records.now) ≡ broken) (λ f. Counted records.now true f.used f.count f.last f.oldest) }
{
    let mut at = 0;
    let mut count = 0;
    let mut last = 0;
    while at < records.len() {
        let size = record_length(records, at)?;
        let number = get32(records, at + 1);
        if !follows(last, number) || count == MAX_REVISIONS {
            return None;
        }
        count += 1;
        last = number;
        at += size;
    }
    if count == 0 {
        return None;
    }
    Some(Form {
        used: 5 + records.len(),
        count,
        last,
        oldest: 5 + usize::from(records[0]),
    })
}

// The form of a file of `size` bytes, but for the zeros behind the records.
pub fn parse(room: &[u8], size: usize) -> Option<Form>
    requires { length room.now ≡ max_form }
    ensures form { Loaded (form_in room.now size) room.now result }
    ensures used { IfSome result (λ f. f.used ≡ be32 room.now 1) }
{
    let used = get32(room, 1) as usize;
    if room[0] != 1 || used < 5 || size < used || MAX_FORM < used {
        return None;
    }
    scan(&room[5..used])
}

// The data of revision x among some records, if it stands there. The offset moves on as in `scan`.
fn find_record(records: &[u8], x: u32) -> Option<&[u8]>
    requires { records_in max_revisions records.now ≡ held (held_by records.now) }
    ensures { MatchOption result (stands x (held_by records.now) ≡ false) (λ bytes. (stands x (held_by records.now) ≡ true) × (bytes.now ≡ data_of x (held_by records.now)) × (length bytes.now ≤ max_setting)) }
{
    let mut at = 0;
    while at < records.len() {
        let start = at + 5;
        let end = start + usize::from(records[at]);
        if get32(records, at + 1) == x {
            return Some(&records[start..end]);
        }
        at = end;
    }
    None
}

// The data of revision x in a room, if it stands there.
pub fn find(room: &[u8], used: usize, x: u32) -> Option<&[u8]>
    requires { (5 ≤ used) × (used ≤ length room.now) × (records_in max_revisions (part room.now 5 (used - 5)) ≡ held (in_room room.now used)) }
    ensures { MatchOption result (stands x (in_room room.now used) ≡ false) (λ bytes. (stands x (in_room room.now used) ≡ true) × (bytes.now ≡ data_of x (in_room room.now used)) × (length bytes.now ≤ max_setting)) }
{
    find_record(&room[5..used], x)
}

// The length of the records that a further revision drops.
fn dropped(form: Form) -> usize
    ensures { result ≡ dropped_by form.count form.oldest }
{
    if form.count < MAX_REVISIONS {
        0
    } else {
        form.oldest
    }
}

// The used length with a revision of `size` bytes more.
pub fn length_after(form: Form, size: usize) -> usize
    requires { (form.oldest ≤ form.used) × (form.used ≤ max_form) × (size ≤ max_setting) }
    ensures { result ≡ length_after form.used form.count form.oldest size }
{
    form.used - dropped(form) + 5 + size
}

// Writes a byte and the four bytes of a number: the start of a file, or of a record.
fn put_start(room: &mut [u8], at: usize, first: u8, number: u32)
    requires { at + 5 ≤ length room.old }
    ensures { room.new ≡ splice room.old at (first ∷ bytes4 number) }
{
    room[at] = first;
    put32(room, at + 1, number);
}

// Writes a record.
fn put_record(room: &mut [u8], at: usize, number: u32, bytes: &[u8])
    requires { (at + 5 + length bytes.now ≤ length room.old) × (length bytes.now ≤ max_setting) }
    ensures { room.new ≡ splice room.old at (record_bytes (revision number bytes.now)) }
{
    put_start(room, at, bytes.len() as u8, number);
    layout::bytes::copy_part(bytes, 0, room, at + 5, bytes.len());
}

// Sets all bytes from `at` on to 0.
fn clear_from(room: &mut [u8], at: usize)
    requires { at ≤ length room.old }
    ensures { room.new ≡ splice room.old at (zeros (length room.old - at)) }
{
    room[at..].fill(0);
}

// The file with a revision more: the records with it, the oldest dropped where 16 stand, and zeros to the end of the new room. Gives the new used length.
pub fn rewrite(old: &[u8], form: Form, bytes: &[u8], new: &mut [u8]) -> usize
    requires { (Summary old.now form.used form.count form.last form.oldest) × (form.last < max_number) × (length bytes.now ≤ max_setting)
        × (length old.now ≡ max_form) × (length new.old ≡ max_form) }
    ensures bytes { new.new ≡ encoded (added (in_room old.now form.used) bytes.now) max_form }
    ensures size { result ≡ length (whole_file (added (in_room old.now form.used) bytes.now)) }
{
    let from = 5 + dropped(form);
    let kept = form.used - from;
    let at = 5 + kept;
    let used = at + 5 + bytes.len();
    put_start(new, 0, 1, used as u32);
    layout::bytes::copy_part(old, from, new, 5, kept);
    put_record(new, at, form.last + 1, bytes);
    clear_from(new, used);
    used
}
