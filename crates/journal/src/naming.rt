// Recording a change before it is made: its named blocks are marked, and their bytes saved. What it is about was found.
ghost use Rattle.std.specs.Prelude.{◌≡◌, ◌≤◌};
ghost use Rattle.layout.specs.Limits.{max_blocks};
ghost use Rattle.layout.specs.Geometry.{block_count};
ghost use Rattle.store.specs.Change.{refusal};
ghost use Rattle.store.specs.Asked.{asked_in};
ghost use Rattle.store.specs.Walks.Targets.{Target};
ghost use Rattle.journal.specs.Run.{record_of, state};
ghost use Rattle.journal.specs.Walks.Changes.{Ready, Records};

use super::recording::record_marked;
use layout::file::File;
use layout::limits::{MAX_BLOCKS, SMALL_BLOCKS};
use store::change::Change;

// What a change is asked with. Only a put looks at the directory beside its path.
#[derive(Clone, Copy)]
#[derive(Drop)]
pub struct Asked<'a> {
    pub what: Change,
    pub directory: &'a [u8],
    pub path: &'a [u8],
    pub bytes: &'a [u8],
}

// Records an accepted change, with N marks, one for each block or more; gives the length of its record, or none if the journal has no room for it.
fn record_with<const N: usize>(
    image: &[u8],
    journal: &mut [u8],
    asked: Asked,
    found: File,
) -> Option<u32>
    requires { (Ready image.now journal.old) × (refusal image.now (asked_in asked.what asked.directory.now asked.path.now asked.bytes.now) ≡ 0) × (Target image.now (asked_in asked.what asked.directory.now asked.path.now asked.bytes.now) found.slot found.block found.first found.size found.blocks) × (block_count image.now ≤ N) × (N ≤ max_blocks) }
    ensures { Records journal.old (record_of (state image.now journal.old) (asked_in asked.entry.what asked.entry.directory.now asked.entry.path.now asked.entry.bytes.now)) result journal.new }
{
    let mut marks = [0; N];
    store::change::mark_named(
        image,
        asked.what,
        asked.directory,
        asked.path,
        asked.bytes,
        found,
        &mut marks,
    );
    record_marked(image, journal, &marks)
}

// The same, with few marks for a small volume.
pub fn record_change(image: &[u8], journal: &mut [u8], asked: Asked, found: File) -> Option<u32>
    requires { (Ready image.now journal.old) × (refusal image.now (asked_in asked.what asked.directory.now asked.path.now asked.bytes.now) ≡ 0) × (Target image.now (asked_in asked.what asked.directory.now asked.path.now asked.bytes.now) found.slot found.block found.first found.size found.blocks) }
    ensures { Records journal.old (record_of (state image.now journal.old) (asked_in asked.entry.what asked.entry.directory.now asked.entry.path.now asked.entry.bytes.now)) result journal.new }
{
    if image.len() / 512 <= SMALL_BLOCKS {
        return record_with::<SMALL_BLOCKS>(image, journal, asked, found);
    }
    record_with::<MAX_BLOCKS>(image, journal, asked, found)
}
