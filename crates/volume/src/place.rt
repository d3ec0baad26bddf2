// Where a new entry goes: the directory that a path's parts before the last lead to, and its lowest free slot.
ghost use Rattle.std.specs.Prelude.{◌≡◌};
ghost use Rattle.layout.specs.Reasons.{outcome};
ghost use Rattle.layout.specs.Walks.Paths.{PathGiven};
ghost use Rattle.volume.specs.Create.{place_refusal};
ghost use Rattle.volume.specs.Walks.Places.{brought_refusal, SearchedFor};

use layout::file::File;
use layout::refusal::Refusal;

// The place, or the refusal, 10, 11 or 13: the slot, the block that holds it, and as `first` the directory's first block.
pub fn find_place(image: &[u8], path: &[u8]) -> Result<File, Refusal>
    requires { PathGiven image.now path.now }
    ensures { SearchedFor image.now path.now (place_refusal image.now path.now) result }
{
    let Some(spot) = layout::path::follow_used(image, path) else {
        return Err(Refusal::NotFound);
    };
    if spot.entry.is_some() {
        return Err(Refusal::NameTaken);
    }
    let n = image.len() / 512;
    let Some(free) = layout::directory::free_slot(image, n, spot.home) else {
        return Err(Refusal::DirectoryFull);
    };
    Ok(File {
        slot: free.slot,
        block: free.block,
        first: spot.home,
        size: 0,
        blocks: 0,
    })
}

// Weighs what a new entry brings: the refusals are those of its path, 9 and 17, then 26.
pub(crate) fn accept_brought(form: Result<(), Refusal>, flags: u32) -> Result<(), Refusal>
    ensures { outcome result ≡ brought_refusal (outcome form) flags }
{
    form?;
    if flags != 0 {
        return Err(Refusal::BadFlags);
    }
    Ok(())
}

// The number of a new entry's refusal by what is brought: that of its path, which may be any number, then 26; or 0.
pub fn brought_refusal(form: u32, flags: u32) -> u32
    ensures { result ≡ brought_refusal form flags }
{
    if form != 0 {
        return form;
    }
    if flags != 0 {
        return Refusal::BadFlags.number();
    }
    0
}
