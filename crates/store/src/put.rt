// Put, on an image that the caller has checked. Its three functions, as those of the volume's changes, are given the whole put: directory, serial number, data and time.
ghost use Rattle.std.specs.Prelude.{IfOk, ◌≡◌, [], suc, ◌+◌, ◌≤◌, length};
ghost use Rattle.layout.specs.Reasons.{outcome};
ghost use Rattle.layout.specs.Geometry.{block_count};
ghost use Rattle.layout.specs.Check.{check};
ghost use Rattle.layout.specs.Paths.{file_refusal};
ghost use Rattle.layout.specs.Walks.Slots.{entry_at};
ghost use Rattle.volume.specs.Write.{write_at_refusal, write_at, write_named};
ghost use Rattle.volume.specs.Walks.Marks.{marked};
ghost use Rattle.volume.specs.Walks.Places.{SearchedFor};
ghost use Rattle.volume.specs.Walks.Targets.{Standing};
ghost use Rattle.store.specs.Settings.{max_setting, encoded, latest, added};
ghost use Rattle.store.specs.Put.{path_of, put_refusal, put_image, put_named, put_revision};
ghost use Rattle.store.specs.Walks.Addresses.{Addressed};
ghost use Rattle.store.specs.Walks.Forms.{max_form};
ghost use Rattle.store.specs.Walks.Puts.{held_at, rewritten_at, more_refusal, first_refusal, WeighedFor, PutTarget, PutPreparedFor};

use super::form::MAX_SETTING;
use layout::file::File;
use layout::refusal::Refusal;

// The size of a file with the new revision, with a room for the file's first bytes; or the refusal, 24 if it is not of the form, 25 if the revision number is used up.
fn weigh_in(image: &[u8], found: File, bytes: &[u8], room: &mut [u8]) -> Result<usize, Refusal>
    requires { (check image.now ≡ 0) × (Standing image.now (file_refusal image.now) found.slot found.block found.first found.size found.blocks) × (length bytes.now ≤ max_setting) × (length room.old ≡ max_form) }
    ensures { WeighedFor image.now (entry_at found.block found.slot) bytes.now result }
{
    let Some(form) = super::load::load(image, found, room) else {
        return Err(Refusal::NotSettings);
    };
    if form.last == u32::MAX {
        return Err(Refusal::RevisionsUsed);
    }
    let used = super::form::length_after(form, bytes.len());
    Ok(found.size.max(used))
}

// The same, with a room of its own.
fn weigh(image: &[u8], found: File, bytes: &[u8]) -> Result<usize, Refusal>
    requires { (check image.now ≡ 0) × (Standing image.now (file_refusal image.now) found.slot found.block found.first found.size found.blocks) × (length bytes.now ≤ max_setting) }
    ensures { WeighedFor image.now (entry_at found.block found.slot) bytes.now result }
{
    let mut room = super::form::empty_room();
    weigh_in(image, found, bytes, &mut room)
}

// The refusals of a put to a file that is there, 24, 25 and 14.
fn more_refusal(image: &[u8], found: File, bytes: &[u8]) -> Result<(), Refusal>
    requires { (check image.now ≡ 0) × (Standing image.now (file_refusal image.now) found.slot found.block found.first found.size found.blocks) × (length bytes.now ≤ max_setting) }
    ensures { outcome result ≡ more_refusal image.now (entry_at found.block found.slot) bytes.now }
{
    let size = weigh(image, found, bytes)?;
    volume::write::write_at_refusal(image, found, 0, size)
}

// The place of a put that makes its file, or the refusal, 10, 11, 13 or 14.
fn first_refusal(image: &[u8], directory: &[u8], serial: &[u8]) -> Result<File, Refusal>
    requires { (check image.now ≡ 0) × (Addressed directory.now serial.now) }
    ensures place { SearchedFor image.now (path_of directory.now serial.now) (first_refusal image.now (path_of directory.now serial.now)) result }
    ensures empty { IfOk result (λ f. f.size ≡ 0) }
{
    let place = super::serial::find_place(image, directory, serial)?;
    if layout::number::header_number(image, 24) < 1 {
        return Err(Refusal::VolumeFull);
    }
    Ok(File {
        size: 0,
        blocks: 0,
        ..place
    })
}

// Where the entry of a put is, or goes; or its refusal.
pub fn put_refusal(
    image: &[u8],
    directory: &[u8],
    serial: &[u8],
    bytes: &[u8],
    time: u64,
) -> Result<File, Refusal>
    requires { check image.now ≡ 0 }
    ensures { PutPreparedFor image.now directory.now serial.now time bytes.now result }
{
    super::serial::address_refusal(directory, serial, bytes.len() <= MAX_SETTING)?;
    let Ok(file) = super::serial::open_file(image, directory, serial) else {
        return first_refusal(image, directory, serial);
    };
    more_refusal(image, file, bytes)?;
    Ok(file)
}

// Marks the blocks that an accepted put to a file names. Where a revision more fits into the file's blocks in any case, they are those of a write of the
// file's size, and the file need not be loaded.
fn more_named(image: &[u8], found: File, bytes: &[u8], marks: &mut [u8])
    requires { (check image.now ≡ 0) × (Standing image.now (file_refusal image.now) found.slot found.block found.first found.size found.blocks) × (length bytes.now ≤ max_setting) × (more_refusal image.now (entry_at found.block found.slot) bytes.now ≡ 0) × (block_count image.now ≤ length marks.old) }
    ensures { marks.new ≡ marked marks.old (write_named image.now (entry_at found.block found.slot) 0 (length (rewritten_at image.now (entry_at found.block found.slot) bytes.now))) }
{
    if found.size + 5 + bytes.len() <= 512 * found.blocks {
        volume::write::write_at_named(image, found, 0, found.size, marks);
        return;
    }
    let size = weigh(image, found, bytes).unwrap();
    volume::write::write_at_named(image, found, 0, size, marks);
}

// Marks the blocks that an accepted put names. What was found has size 0 if it is a place, since a file of the form has bytes; a first put fills one block.
pub fn put_named(
    image: &[u8],
    directory: &[u8],
    serial: &[u8],
    bytes: &[u8],
    time: u64,
    found: File,
    marks: &mut [u8],
)
    requires { (check image.now ≡ 0) × (put_refusal image.now directory.now serial.now time bytes.now ≡ 0) × (PutTarget image.now directory.now serial.now found.slot found.block found.first found.size found.blocks) × (block_count image.now ≤ length marks.old) }
    ensures { marks.new ≡ marked marks.old (put_named image.now directory.now serial.now time bytes.now) }
{
    if found.size == 0 {
        let n = image.len() / 512;
        volume::marks::mark(marks, found.block);
        volume::marks::mark_grown(image, n, 0, 1, marks);
        return;
    }
    more_named(image, found, bytes, marks);
}

// Adds a revision to a file that is there, with rooms for its first bytes before and after; gives the revision's number. The bytes behind the records are
// zeros before and after, and are not written.
fn put_in(
    image: &mut [u8],
    found: File,
    bytes: &[u8],
    time: u64,
    old: &mut [u8],
    new: &mut [u8],
) -> u32
    requires { (check image.old ≡ 0) × (Standing image.old (file_refusal image.old) found.slot found.block found.first found.size found.blocks) × (length bytes.now ≤ max_setting) × (more_refusal image.old (entry_at found.block found.slot) bytes.now ≡ 0) × (length old.old ≡ max_form) × (length new.old ≡ max_form) }
    ensures revision { result ≡ suc (latest (held_at image.old (entry_at found.block found.slot))) }
    ensures bytes { image.new ≡ write_at image.old (entry_at found.block found.slot) 0 (rewritten_at image.old (entry_at found.block found.slot) bytes.now) time }
{
    let form = super::load::load(image, found, old).unwrap();
    let used = super::form::rewrite(old, form, bytes, new);
    let k = form.used.max(used);
    volume::write::write_at(image, found, 0, &new[..k], time);
    form.last + 1
}

// The same, with rooms of its own.
fn put_more(image: &mut [u8], found: File, bytes: &[u8], time: u64) -> u32
    requires { (check image.old ≡ 0) × (Standing image.old (file_refusal image.old) found.slot found.block found.first found.size found.blocks) × (length bytes.now ≤ max_setting) × (more_refusal image.old (entry_at found.block found.slot) bytes.now ≡ 0) }
    ensures revision { result ≡ suc (latest (held_at image.old (entry_at found.block found.slot))) }
    ensures bytes { image.new ≡ write_at image.old (entry_at found.block found.slot) 0 (rewritten_at image.old (entry_at found.block found.slot) bytes.now) time }
{
    let mut old = super::form::empty_room();
    let mut new = super::form::empty_room();
    put_in(image, found, bytes, time, &mut old, &mut new)
}

// Writes the first revision into the file that was just made at a place.
fn put_first(image: &mut [u8], found: File, bytes: &[u8], time: u64)
    requires { (check image.old ≡ 0) × (Standing image.old (file_refusal image.old) found.slot found.block 0 0 0) × (length bytes.now ≤ max_setting) × (write_at_refusal image.old (entry_at found.block found.slot) 0 (10 + length bytes.now) ≡ 0) }
    ensures { image.new ≡ write_at image.old (entry_at found.block found.slot) 0 (encoded (added [] bytes.now) 0) time }
{
    let old = super::form::empty_room();
    let mut new = super::form::empty_room();
    let used = super::form::rewrite(&old, super::form::no_records(), bytes, &mut new);
    let file = File {
        first: 0,
        size: 0,
        blocks: 0,
        ..found
    };
    volume::write::write_at(image, file, 0, &new[..used], time);
}

// Makes an accepted put; gives the new revision's number.
pub fn put(
    image: &mut [u8],
    directory: &[u8],
    serial: &[u8],
    bytes: &[u8],
    time: u64,
    found: File,
) -> u32
    requires { (check image.old ≡ 0) × (put_refusal image.old directory.now serial.now time bytes.now ≡ 0) × (PutTarget image.old directory.now serial.now found.slot found.block found.first found.size found.blocks) }
    ensures revision { result ≡ put_revision image.old directory.now serial.now }
    ensures bytes { image.new ≡ put_image image.old directory.now serial.now time bytes.now }
{
    if found.size == 0 {
        super::serial::create_file(image, directory, serial, found, time);
        put_first(image, found, bytes, time);
        return 1;
    }
    put_more(image, found, bytes, time)
}
