// Any change as one value, for the journal above: one of the volume's, or a put. The path of a put is its serial number, and beside it is its directory; the others look at no directory beside their path.
ghost use Rattle.std.specs.Prelude.{◌≡◌, ◌≤◌, length};
ghost use Rattle.layout.specs.Geometry.{block_count};
ghost use Rattle.layout.specs.Check.{check};
ghost use Rattle.volume.specs.Walks.Marks.{marked};
ghost use Rattle.store.specs.Change.{refusal, after, named, slot_given};
ghost use Rattle.store.specs.Asked.{asked_in};
ghost use Rattle.store.specs.Walks.Targets.{Target, PreparedFor};

use layout::file::File;
use layout::refusal::Refusal;

#[derive(Clone, Copy)]
#[derive(Drop)]
pub enum Change {
    Volume(volume::change::Change),
    Put { time: u64 },
}

// What the change is about, or the refusal, 9 to 26.
pub fn refusal(
    image: &[u8],
    what: Change,
    directory: &[u8],
    path: &[u8],
    bytes: &[u8],
) -> Result<File, Refusal>
    requires { check image.now ≡ 0 }
    ensures { PreparedFor image.now (asked_in what directory.now path.now bytes.now) result }
{
    match what {
        Change::Volume(c) => volume::change::refusal(image, c, path, bytes),
        Change::Put { time } => super::put::put_refusal(image, directory, path, bytes, time),
    }
}

// Marks the blocks that an accepted change names.
pub fn mark_named(
    image: &[u8],
    what: Change,
    directory: &[u8],
    path: &[u8],
    bytes: &[u8],
    found: File,
    marks: &mut [u8],
)
    requires { (check image.now ≡ 0) × (refusal image.now (asked_in what directory.now path.now bytes.now) ≡ 0) × (Target image.now (asked_in what directory.now path.now bytes.now) found.slot found.block found.first found.size found.blocks) × (block_count image.now ≤ length marks.old) }
    ensures { marks.new ≡ marked marks.old (named image.now (asked_in what directory.now path.now bytes.now)) }
{
    match what {
        Change::Volume(c) => volume::change::mark_named(image, c, path, bytes, found, marks),
        Change::Put { time } => super::put::put_named(
            image, directory, path, bytes, time, found, marks,
        ),
    }
}

// Makes an accepted change; gives the slot of a create, of a directory too, the revision of a put, and 0 for the others.
pub fn make(
    image: &mut [u8],
    what: Change,
    directory: &[u8],
    path: &[u8],
    bytes: &[u8],
    found: File,
) -> u32
    requires { (check image.old ≡ 0) × (refusal image.old (asked_in what directory.now path.now bytes.now) ≡ 0) × (Target image.old (asked_in what directory.now path.now bytes.now) found.slot found.block found.first found.size found.blocks) }
    ensures slot { result ≡ slot_given image.old (asked_in what directory.now path.now bytes.now) }
    ensures bytes { image.new ≡ after image.old (asked_in what directory.now path.now bytes.now) }
{
    match what {
        Change::Volume(c) => volume::change::make(image, c, path, bytes, found),
        Change::Put { time } => super::put::put(image, directory, path, bytes, time, found),
    }
}
