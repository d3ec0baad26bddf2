// Create, of a directory, on an image that the caller has checked.
ghost use Rattle.std.specs.Prelude.{◌≡◌, ◌&&◌, [], ◌∷◌, ◌+◌, ◌-◌, ◌*◌, ◌≤◌, ◌<◌, length, get_or, take};
ghost use Rattle.layout.specs.Limits.{max_directory};
ghost use Rattle.layout.specs.Lists.{within};
ghost use Rattle.layout.specs.Bytes.{splice};
ghost use Rattle.layout.specs.Geometry.{block_count};
ghost use Rattle.layout.specs.Table.{next, free_blocks};
ghost use Rattle.layout.specs.Directory.{is_directory};
ghost use Rattle.layout.specs.Check.{check};
ghost use Rattle.volume.specs.Entries.{entry_bytes, grown, blocks_named};
ghost use Rattle.volume.specs.Create.{create_slot};
ghost use Rattle.volume.specs.Directories.{create_directory_refusal, new_directory_blocks, create_directory_image};
ghost use Rattle.volume.specs.Walks.Marks.{marked};
ghost use Rattle.volume.specs.Walks.Places.{Vacant, SearchedFor};

use super::create::Given;
use super::slot::Fields;
use layout::file::File;
use layout::limits::MAX_DIRECTORY;
use layout::refusal::Refusal;

// Whether type and number of blocks are those of a directory.
fn shaped(kind: u8, d: u32) -> bool
    ensures { result ≡ is_directory kind && within 1 max_directory d }
{
    layout::directory::is_directory(kind) && (1..=MAX_DIRECTORY).contains(&d)
}

// The place of a new directory's entry, or the refusal.
pub fn create_directory_refusal(
    image: &[u8],
    path: &[u8],
    kind: u8,
    flags: u32,
    d: u32,
) -> Result<File, Refusal>
    requires { check image.now ≡ 0 }
    ensures { SearchedFor image.now path.now (create_directory_refusal image.now path.now kind flags d) result }
{
    if !shaped(kind, d) {
        return Err(Refusal::BadArgument);
    }
    super::place::accept_brought(layout::file::whole_path_refusal(path), flags)?;
    let place = super::place::find_place(image, path)?;
    if layout::number::header_number(image, 24) < d as usize {
        return Err(Refusal::VolumeFull);
    }
    Ok(place)
}

// Marks the block of a new directory's entry and what its d blocks name.
pub fn create_directory_named(image: &[u8], block: usize, d: u32, marks: &mut [u8])
    requires { (check image.now ≡ 0) × (block < block_count image.now) × (d ≤ length (free_blocks (next image.now) (block_count image.now))) × (block_count image.now ≤ length marks.old) }
    ensures { marks.new ≡ marked marks.old (block ∷ blocks_named (new_directory_blocks image.now d)) }
{
    let n = image.len() / 512;
    super::marks::mark(marks, block);
    super::marks::mark_grown(image, n, 0, d as usize, marks);
}

// The first and the last of the blocks taken.
#[derive(Drop)]
struct Span {
    first: usize,
    last: usize,
}

// Takes d blocks for a directory.
fn take_blocks(image: &mut [u8], d: usize) -> Span
    requires { (check image.old ≡ 0) × (1 ≤ d) × (d ≤ length (free_blocks (next image.old) (block_count image.old))) }
    ensures bytes { image.new ≡ grown image.old (block_count image.old) 0 (take d (free_blocks (next image.old) (block_count image.old))) }
    ensures first { result.first ≡ get_or (take d (free_blocks (next image.old) (block_count image.old))) 0 0 }
    ensures last { result.last ≡ get_or (take d (free_blocks (next image.old) (block_count image.old))) (d - 1) 0 }
{
    let n = image.len() / 512;
    let first = super::table::grow(image, n, 0, d);
    let last = layout::table::nth(image, n, first, d, d - 1);
    Span { first, last }
}

// Writes the self entry into the first and the end type into the last block of a directory of d blocks.
fn put_directory(
    image: &mut [u8],
    first: usize,
    last: usize,
    parent: usize,
    d: u32,
    time: u64,
    name: &[u8],
)
    requires { (512 * first + 512 ≤ length image.old) × (512 * last + 512 ≤ length image.old) × (first < 4294967296) × (parent < 4294967296) × (length name.now ≤ 80) }
    ensures { image.new ≡ splice (splice image.old (512 * first) (entry_bytes 1 0 0 0 first parent d time 0 name.now)) (512 * last + 384) (0xFF ∷ []) }
{
    let f = Fields {
        kind: 1,
        user: 0,
        group: 0,
        permissions: 0,
        first: first as u32,
        size: parent as u32,
        blocks: d,
        time,
        flags: 0,
    };
    super::slot::put_slot(image, first, 0, f, name);
    super::file::end_block(image, last);
}

// Creates a directory of d blocks, its entry at the place found for it; gives its slot.
pub fn create_directory(image: &mut [u8], found: File, path: &[u8], given: Given, d: u32) -> u32
    requires { (check image.old ≡ 0) × (create_directory_refusal image.old path.now given.kind given.flags d ≡ 0) × (Vacant image.old path.now found.first found.slot found.block) }
    ensures slot { result ≡ create_slot image.old path.now }
    ensures bytes { image.new ≡ create_directory_image image.old path.now given.kind given.user given.group given.permissions given.flags given.time d }
{
    let t = take_blocks(image, d as usize);
    let name = layout::path::last_part(path);
    put_directory(image, t.first, t.last, found.first, d, given.time, name);
    let f = Fields {
        kind: given.kind,
        user: given.user,
        group: given.group,
        permissions: given.permissions,
        first: t.first as u32,
        size: 0,
        blocks: d,
        time: given.time,
        flags: given.flags,
    };
    super::slot::put_slot(image, found.block, found.slot, f, name);
    found.slot as u32
}
