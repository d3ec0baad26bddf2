// The calls that are lent a journal. Each checks the image and scans the journal once.
ghost use Rattle.std.specs.Prelude.{◌≡◌, ◌≢◌, unwrap_or, IfSome};
ghost use Rattle.layout.specs.Reasons.{outcome};
ghost use Rattle.store.specs.Change.{create, write, delete, create_directory, delete_directory, set_attributes, clear_attributes, clear_flags, shorten, replace, move, put_in, put};
ghost use Rattle.store.specs.Asked.{asked_in, asked};
ghost use Rattle.journal.specs.Run.{after_undo, undo_answer, after_change, change_answer, state};
ghost use Rattle.journal.specs.Walks.Changes.{Inspected, Ready, ready_refusal};
ghost use Rattle.journal.specs.Answers.{changed_answer, undone_answer};

use super::naming::Asked;
use layout::refusal::Refusal;
use store::change::Change;
use volume::change::Change as VolumeChange;
use volume::create::Given;

// What a change gives: the slot of a create, of a directory too, or of a move, or the revision of a put (0 for the others), and the length of the record added.
#[derive(Clone, Copy, Debug, PartialEq, Eq, Drop)]
pub struct Changed {
    pub slot: u32,
    pub size: u32,
}

// The refusals that come first in every call, 1 to 8; and the offset of the journal's last record, if there is one.
fn inspect(image: &[u8], journal: &[u8]) -> Result<Option<usize>, Refusal>
    ensures { Inspected (state image.now journal.now) result }
{
    layout::check::check(image)?;
    let Some(found) = super::scan::scan(journal, image.len() / 512) else {
        return Err(Refusal::BadJournal);
    };
    Ok(found.last)
}

// The refusals 1 to 8 alone.
pub fn ready_refusal(image: &[u8], journal: &[u8]) -> Result<(), Refusal>
    ensures { outcome result ≡ ready_refusal (state image.now journal.now) }
{
    inspect(image, journal)?;
    Ok(())
}

// Undo: takes the last record back; gives its length.
pub fn undo(image: &mut [u8], journal: &mut [u8]) -> Result<u32, Refusal>
    ensures answer { undone_answer result ≡ undo_answer (state image.old journal.old) }
    ensures state { state image.new journal.new ≡ after_undo (state image.old journal.old) }
{
    let last = inspect(image, journal)?;
    let Some(at) = last else {
        return Err(Refusal::NothingToUndo);
    };
    Ok(super::restoring::take_back(image, journal, at))
}

// A change on a sound image and a well-formed journal: its own refusals first, then its record, then the change itself. A put is in the directory beside its
// path; the others look at their path alone.
fn change_ready_in(image: &mut [u8], journal: &mut [u8], asked: Asked) -> Result<Changed, Refusal>
    requires { Ready image.old journal.old }
    ensures answer { changed_answer result ≡ change_answer (state image.old journal.old) (asked_in asked.entry.what asked.entry.directory.now asked.entry.path.now asked.entry.bytes.now) }
    ensures state { state image.new journal.new ≡ after_change (state image.old journal.old) (asked_in asked.entry.what asked.entry.directory.now asked.entry.path.now asked.entry.bytes.now) }
{
    let found = store::change::refusal(
        image,
        asked.what,
        asked.directory,
        asked.path,
        asked.bytes,
    )?;
    let Some(size) = super::naming::record_change(image, journal, asked, found) else {
        return Err(Refusal::JournalFull);
    };
    let slot = store::change::make(
        image,
        asked.what,
        asked.directory,
        asked.path,
        asked.bytes,
        found,
    );
    Ok(Changed { slot, size })
}

// Any change: the refusals 1 to 8 first.
fn change_in(image: &mut [u8], journal: &mut [u8], asked: Asked) -> Result<Changed, Refusal>
    ensures answer { changed_answer result ≡ change_answer (state image.old journal.old) (asked_in asked.entry.what asked.entry.directory.now asked.entry.path.now asked.entry.bytes.now) }
    ensures state { state image.new journal.new ≡ after_change (state image.old journal.old) (asked_in asked.entry.what asked.entry.directory.now asked.entry.path.now asked.entry.bytes.now) }
{
    ready_refusal(image, journal)?;
    change_ready_in(image, journal, asked)
}

// A change with no directory beside its path, on a sound image and a well-formed journal.
pub fn change_ready(
    image: &mut [u8],
    journal: &mut [u8],
    what: Change,
    path: &[u8],
    bytes: &[u8],
) -> Result<Changed, Refusal>
    requires { Ready image.old journal.old }
    ensures answer { changed_answer result ≡ change_answer (state image.old journal.old) (asked what path.now bytes.now) }
    ensures state { state image.new journal.new ≡ after_change (state image.old journal.old) (asked what path.now bytes.now) }
{
    let asked = Asked {
        what,
        directory: b"/",
        path,
        bytes,
    };
    change_ready_in(image, journal, asked)
}

// The same on any bytes.
pub fn change(
    image: &mut [u8],
    journal: &mut [u8],
    what: Change,
    path: &[u8],
    bytes: &[u8],
) -> Result<Changed, Refusal>
    ensures answer { changed_answer result ≡ change_answer (state image.old journal.old) (asked what path.now bytes.now) }
    ensures state { state image.new journal.new ≡ after_change (state image.old journal.old) (asked what path.now bytes.now) }
{
    let asked = Asked {
        what,
        directory: b"/",
        path,
        bytes,
    };
    change_in(image, journal, asked)
}

// Create: a new empty file, in the lowest free slot.
pub fn create(
    image: &mut [u8],
    journal: &mut [u8],
    path: &[u8],
    kind: u8,
    user: u8,
    group: u8,
    permissions: u8,
    flags: u32,
    time: u64,
) -> Result<Changed, Refusal>
    ensures answer { changed_answer result ≡ change_answer (state image.old journal.old) (create path.now kind user group permissions flags time) }
    ensures state { state image.new journal.new ≡ after_change (state image.old journal.old) (create path.now kind user group permissions flags time) }
{
    let given = Given {
        kind,
        user,
        group,
        permissions,
        flags,
        time,
    };
    let what = VolumeChange::Create(given);
    change(image, journal, Change::Volume(what), path, b"")
}

// Write: puts data at an offset of a file.
pub fn write(
    image: &mut [u8],
    journal: &mut [u8],
    path: &[u8],
    offset: usize,
    bytes: &[u8],
    time: u64,
) -> Result<Changed, Refusal>
    ensures answer { changed_answer result ≡ change_answer (state image.old journal.old) (write path.now offset bytes.now time) }
    ensures state { state image.new journal.new ≡ after_change (state image.old journal.old) (write path.now offset bytes.now time) }
{
    let what = VolumeChange::Write { offset, time };
    change(image, journal, Change::Volume(what), path, bytes)
}

// Delete: frees a file's blocks and its slot.
pub fn delete(image: &mut [u8], journal: &mut [u8], path: &[u8]) -> Result<Changed, Refusal>
    ensures answer { changed_answer result ≡ change_answer (state image.old journal.old) (delete path.now) }
    ensures state { state image.new journal.new ≡ after_change (state image.old journal.old) (delete path.now) }
{
    change(
        image,
        journal,
        Change::Volume(VolumeChange::Delete),
        path,
        b"",
    )
}

// Create directory: a new empty directory of so many blocks, its entry in the lowest free slot.
pub fn create_directory(
    image: &mut [u8],
    journal: &mut [u8],
    path: &[u8],
    kind: u8,
    user: u8,
    group: u8,
    permissions: u8,
    flags: u32,
    blocks: u32,
    time: u64,
) -> Result<Changed, Refusal>
    ensures answer { changed_answer result ≡ change_answer (state image.old journal.old) (create_directory path.now kind user group permissions flags time blocks) }
    ensures state { state image.new journal.new ≡ after_change (state image.old journal.old) (create_directory path.now kind user group permissions flags time blocks) }
{
    let given = Given {
        kind,
        user,
        group,
        permissions,
        flags,
        time,
    };
    let what = VolumeChange::CreateDirectory { given, blocks };
    change(image, journal, Change::Volume(what), path, b"")
}

// Delete directory: frees an empty directory's blocks and its slot.
pub fn delete_directory(
    image: &mut [u8],
    journal: &mut [u8],
    path: &[u8],
) -> Result<Changed, Refusal>
    ensures answer { changed_answer result ≡ change_answer (state image.old journal.old) (delete_directory path.now) }
    ensures state { state image.new journal.new ≡ after_change (state image.old journal.old) (delete_directory path.now) }
{
    change(
        image,
        journal,
        Change::Volume(VolumeChange::DeleteDirectory),
        path,
        b"",
    )
}

// Set attributes: puts whole blocks of data beside a file, in place of those that it has.
pub fn set_attributes(
    image: &mut [u8],
    journal: &mut [u8],
    path: &[u8],
    bytes: &[u8],
) -> Result<Changed, Refusal>
    ensures answer { changed_answer result ≡ change_answer (state image.old journal.old) (set_attributes path.now bytes.now) }
    ensures state { state image.new journal.new ≡ after_change (state image.old journal.old) (set_attributes path.now bytes.now) }
{
    change(
        image,
        journal,
        Change::Volume(VolumeChange::SetAttributes),
        path,
        bytes,
    )
}

// Clear attributes: frees the blocks of a file's attributes.
pub fn clear_attributes(
    image: &mut [u8],
    journal: &mut [u8],
    path: &[u8],
) -> Result<Changed, Refusal>
    ensures answer { changed_answer result ≡ change_answer (state image.old journal.old) (clear_attributes path.now) }
    ensures state { state image.new journal.new ≡ after_change (state image.old journal.old) (clear_attributes path.now) }
{
    change(
        image,
        journal,
        Change::Volume(VolumeChange::ClearAttributes),
        path,
        b"",
    )
}

// Clear flags: sets a file's system flags to 0.
pub fn clear_flags(image: &mut [u8], journal: &mut [u8], path: &[u8]) -> Result<Changed, Refusal>
    ensures answer { changed_answer result ≡ change_answer (state image.old journal.old) (clear_flags path.now) }
    ensures state { state image.new journal.new ≡ after_change (state image.old journal.old) (clear_flags path.now) }
{
    change(
        image,
        journal,
        Change::Volume(VolumeChange::ClearFlags),
        path,
        b"",
    )
}

// Shorten: a file keeps its first bytes.
pub fn shorten(
    image: &mut [u8],
    journal: &mut [u8],
    path: &[u8],
    size: usize,
    time: u64,
) -> Result<Changed, Refusal>
    ensures answer { changed_answer result ≡ change_answer (state image.old journal.old) (shorten path.now size time) }
    ensures state { state image.new journal.new ≡ after_change (state image.old journal.old) (shorten path.now size time) }
{
    let what = VolumeChange::Shorten { size, time };
    change(image, journal, Change::Volume(what), path, b"")
}

// Replace: a file's bytes become the given ones.
pub fn replace(
    image: &mut [u8],
    journal: &mut [u8],
    path: &[u8],
    bytes: &[u8],
    time: u64,
) -> Result<Changed, Refusal>
    ensures answer { changed_answer result ≡ change_answer (state image.old journal.old) (replace path.now bytes.now time) }
    ensures state { state image.new journal.new ≡ after_change (state image.old journal.old) (replace path.now bytes.now time) }
{
    let what = VolumeChange::Replace { time };
    change(image, journal, Change::Volume(what), path, bytes)
}

// Move: the file of a path is then the file of another path.
pub fn move_file(
    image: &mut [u8],
    journal: &mut [u8],
    path: &[u8],
    to: &[u8],
) -> Result<Changed, Refusal>
    ensures answer { changed_answer result ≡ change_answer (state image.old journal.old) (move path.now to.now) }
    ensures state { state image.new journal.new ≡ after_change (state image.old journal.old) (move path.now to.now) }
{
    change(image, journal, Change::Volume(VolumeChange::Move), path, to)
}

// Put settings in a directory: adds a revision to the settings of a serial number; the slot of its answer is the revision's number.
pub fn put_settings_in(
    image: &mut [u8],
    journal: &mut [u8],
    directory: &[u8],
    serial: &[u8],
    bytes: &[u8],
    time: u64,
) -> Result<Changed, Refusal>
    ensures answer { changed_answer result ≡ change_answer (state image.old journal.old) (put_in directory.now serial.now time bytes.now) }
    ensures state { state image.new journal.new ≡ after_change (state image.old journal.old) (put_in directory.now serial.now time bytes.now) }
{
    let asked = Asked {
        what: Change::Put { time },
        directory,
        path: serial,
        bytes,
    };
    change_in(image, journal, asked)
}

// Put settings in the root: adds a revision to the settings of a serial number; the slot of its answer is the revision's number.
pub fn put_settings(
    image: &mut [u8],
    journal: &mut [u8],
    serial: &[u8],
    bytes: &[u8],
    time: u64,
) -> Result<Changed, Refusal>
    ensures answer { changed_answer result ≡ change_answer (state image.old journal.old) (put serial.now time bytes.now) }
    ensures state { state image.new journal.new ≡ after_change (state image.old journal.old) (put serial.now time bytes.now) }
{
    change(image, journal, Change::Put { time }, serial, bytes)
}
