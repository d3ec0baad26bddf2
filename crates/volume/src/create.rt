// Create, on an image that the caller has checked.
ghost use Rattle.std.specs.Prelude.{◌≡◌, true};
ghost use Rattle.layout.specs.Check.{check};
ghost use Rattle.layout.specs.Paths.{path_ok};
ghost use Rattle.volume.specs.Create.{create_refusal, create_slot, create_image};
ghost use Rattle.volume.specs.Walks.Places.{Vacant, SearchedFor};

use super::slot::Fields;
use layout::file::File;
use layout::refusal::Refusal;

// The fields that a new entry is given.
#[derive(Clone, Copy)]
#[derive(Drop)]
pub struct Given {
    pub kind: u8,
    pub user: u8,
    pub group: u8,
    pub permissions: u8,
    pub flags: u32,
    pub time: u64,
}

// The place of a new file, or the refusal of create.
pub fn create_refusal(image: &[u8], path: &[u8], kind: u8, flags: u32) -> Result<File, Refusal>
    requires { check image.now ≡ 0 }
    ensures { SearchedFor image.now path.now (create_refusal image.now path.now kind flags) result }
{
    if !layout::directory::is_file(kind) {
        return Err(Refusal::BadArgument);
    }
    super::place::accept_brought(layout::file::path_refusal(path), flags)?;
    super::place::find_place(image, path)
}

// Creates a file at the place found for it; gives its slot.
pub fn create_at(image: &mut [u8], found: File, path: &[u8], given: Given) -> u32
    requires { (check image.old ≡ 0) × (path_ok path.now ≡ true) × (Vacant image.old path.now found.first found.slot found.block) }
    ensures slot { result ≡ create_slot image.old path.now }
    ensures bytes { image.new ≡ create_image image.old path.now given.kind given.user given.group given.permissions given.flags given.time }
{
    let f = Fields {
        kind: given.kind,
        user: given.user,
        group: given.group,
        permissions: given.permissions,
        first: 0,
        size: 0,
        blocks: 0,
        time: given.time,
        flags: given.flags,
    };
    super::slot::put_slot(
        image,
        found.block,
        found.slot,
        f,
        layout::path::last_part(path),
    );
    found.slot as u32
}
