// A change as one value, for the journal above: its refusal, its named blocks as marks and the change itself, on an image that the caller has
// checked. The path and the data stand beside it; the data of a move is its second path. Its path is looked up once: what the refusal found is handed on.
ghost use Rattle.std.specs.Prelude.{◌≡◌, ◌≤◌, ◌<◌, length};
ghost use Rattle.layout.specs.Geometry.{block_count};
ghost use Rattle.layout.specs.Check.{check};
ghost use Rattle.volume.specs.Change.{refusal, after, named, slot_given};
ghost use Rattle.volume.specs.Asked.{asked};
ghost use Rattle.volume.specs.Walks.Marks.{marked};
ghost use Rattle.volume.specs.Walks.Targets.{Target, PreparedFor, answered};

use super::attributes::{clear_attributes, set_attributes};
use super::create::{Given, create_at};
use super::create_directory::create_directory;
use super::delete::drop_entry;
use super::file::clear_bytes;
use super::replace::replace_at;
use super::shorten::shorten_at;
use super::write::write_at;
use layout::file::File;
use layout::refusal::Refusal;

// The kind of a change, with its numbers.
#[derive(Clone, Copy)]
#[derive(Drop)]
pub enum Change {
    Create(Given),
    Write { offset: usize, time: u64 },
    Delete,
    CreateDirectory { given: Given, blocks: u32 },
    DeleteDirectory,
    SetAttributes,
    ClearAttributes,
    ClearFlags,
    Shorten { size: usize, time: u64 },
    Replace { time: u64 },
    Move,
}

// What the change is about, or the refusal, 9 to 26.
pub fn refusal(image: &[u8], what: Change, path: &[u8], bytes: &[u8]) -> Result<File, Refusal>
    requires { check image.now ≡ 0 }
    ensures { PreparedFor image.now (asked what path.now bytes.now) result }
{
    match what {
        Change::Create(given) => super::create::create_refusal(
            image,
            path,
            given.kind,
            given.flags,
        ),
        Change::Write { offset, .. } => super::write::write_refusal(
            image,
            path,
            offset,
            bytes.len(),
        ),
        Change::Delete => layout::file::open_file(image, path),
        Change::CreateDirectory { given, blocks } => {
            super::create_directory::create_directory_refusal(
                image,
                path,
                given.kind,
                given.flags,
                blocks,
            )
        }
        Change::DeleteDirectory => super::delete_directory::delete_directory_refusal(image, path),
        Change::SetAttributes => super::attributes::set_attributes_refusal(
            image,
            path,
            bytes.len(),
        ),
        Change::ClearAttributes => layout::file::open_file(image, path),
        Change::ClearFlags => layout::file::open_file(image, path),
        Change::Shorten { size, .. } => super::shorten::shorten_refusal(image, path, size),
        Change::Replace { .. } => super::write::write_refusal(image, path, 0, bytes.len()),
        Change::Move => super::moving::move_refusal(image, path, bytes),
    }
}

// Marks the blocks that an accepted change names.
pub fn mark_named(
    image: &[u8],
    what: Change,
    path: &[u8],
    bytes: &[u8],
    found: File,
    marks: &mut [u8],
)
    requires { (check image.now ≡ 0) × (refusal image.now (asked what path.now bytes.now) ≡ 0) × (Target image.now (asked what path.now bytes.now) found.slot found.block found.first found.size found.blocks) × (block_count image.now ≤ length marks.old) }
    ensures { marks.new ≡ marked marks.old (named image.now (asked what path.now bytes.now)) }
{
    match what {
        Change::Create(_) => super::marks::mark(marks, found.block),
        Change::Write { offset, .. } => super::write::write_at_named(
            image,
            found,
            offset,
            bytes.len(),
            marks,
        ),
        Change::Delete => super::delete::drop_named(image, found, marks),
        Change::CreateDirectory { blocks, .. } => {
            super::create_directory::create_directory_named(image, found.block, blocks, marks)
        }
        Change::DeleteDirectory => super::delete::drop_named(image, found, marks),
        Change::SetAttributes => super::attributes::set_attributes_named(
            image,
            found,
            bytes.len(),
            marks,
        ),
        Change::ClearAttributes => super::attributes::clear_attributes_named(image, found, marks),
        Change::ClearFlags => super::marks::mark(marks, found.block),
        Change::Shorten { size, .. } => super::shorten::shorten_named(image, found, size, marks),
        Change::Replace { .. } => super::replace::replace_named(image, found, bytes.len(), marks),
        Change::Move => super::moving::move_named(found, marks),
    }
}

// Makes the bytes of an accepted change.
fn apply(image: &mut [u8], what: Change, path: &[u8], bytes: &[u8], found: File)
    requires { (check image.old ≡ 0) × (refusal image.old (asked what path.now bytes.now) ≡ 0) × (Target image.old (asked what path.now bytes.now) found.slot found.block found.first found.size found.blocks) }
    ensures { image.new ≡ after image.old (asked what path.now bytes.now) }
{
    match what {
        Change::Create(given) => {
            create_at(image, found, path, given);
        }
        Change::Write { offset, time } => write_at(image, found, offset, bytes, time),
        Change::Delete => drop_entry(image, found),
        Change::CreateDirectory { given, blocks } => {
            create_directory(image, found, path, given, blocks);
        }
        Change::DeleteDirectory => drop_entry(image, found),
        Change::SetAttributes => set_attributes(image, found, bytes),
        Change::ClearAttributes => clear_attributes(image, found),
        Change::ClearFlags => clear_bytes(image, found.block, found.slot, 40, 4),
        Change::Shorten { size, time } => {
            shorten_at(image, found, size, time);
        }
        Change::Replace { time } => replace_at(image, found, bytes, time),
        Change::Move => super::moving::move_entry(image, found, bytes),
    }
}

// The slot that a change answers: of a create, of a directory too, and of a move that of its entry; 0 for the others.
fn slot_of(what: Change, slot: usize) -> u32
    requires { slot < 256 }
    ensures { result ≡ answered what slot }
{
    match what {
        Change::Create(_) => slot as u32,
        Change::Write { .. } => 0,
        Change::Delete => 0,
        Change::CreateDirectory { .. } => slot as u32,
        Change::DeleteDirectory => 0,
        Change::SetAttributes => 0,
        Change::ClearAttributes => 0,
        Change::ClearFlags => 0,
        Change::Shorten { .. } => 0,
        Change::Replace { .. } => 0,
        Change::Move => slot as u32,
    }
}

// Makes an accepted change; gives the slot that it answers, or 0.
pub fn make(image: &mut [u8], what: Change, path: &[u8], bytes: &[u8], found: File) -> u32
    requires { (check image.old ≡ 0) × (refusal image.old (asked what path.now bytes.now) ≡ 0) × (Target image.old (asked what path.now bytes.now) found.slot found.block found.first found.size found.blocks) }
    ensures slot { result ≡ slot_given image.old (asked what path.now bytes.now) }
    ensures bytes { image.new ≡ after image.old (asked what path.now bytes.now) }
{
    apply(image, what, path, bytes, found);
    slot_of(what, found.slot)
}
