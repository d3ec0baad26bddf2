// What a volume and its directories hold: the numbers of the volume, and the entries of a directory one after the other.
ghost use Rattle.std.specs.Prelude.{◌+◌, ◌*◌, ◌≤◌, ◌<◌, ◌&&◌, [], ◌≡◌, leb, length};
ghost use Rattle.layout.specs.Directory.{type_of, is_used, blocks_of, directory};
ghost use Rattle.layout.specs.Table.{next, chain};
ghost use Rattle.layout.specs.Check.{check};
ghost use Rattle.layout.specs.Answers.{volume_answer, entry_answer};
ghost use Rattle.layout.specs.Looks.{volume_info, is_root_path, used_slot, no_entry, entry_fields, next_entry};
ghost use Rattle.layout.specs.Walks.Looks.{Listed};
ghost use Rattle.layout.specs.Walks.Shapes.{DirectoryAt};
ghost use Rattle.layout.specs.Walks.Slots.{StandsAt, entry_at};

use super::directory::{Entry, byte_at, time_at, word_at};
use super::limits::{LABELS, NAME_FIELD};
use super::refusal::Refusal;

// The numbers of a volume: its blocks, those in use, free and of the root.
#[repr(C)]
#[derive(Drop)]
pub struct VolumeInfo {
    pub number: u32,
    pub blocks: u32,
    pub used: u32,
    pub free: u32,
    pub root_blocks: u32,
}

// Those of a sound image.
fn volume_numbers(image: &[u8]) -> VolumeInfo
    requires { check image.now ≡ 0 }
    ensures { volume_answer result [] ≡ volume_info image.now [] }
{
    let n = image.len() / 512;
    let root = super::geometry::root_block(n);
    let used = super::number::header_word(image, 20);
    let free = super::number::header_word(image, 24);
    let d = word_at(image, root, 0, 12);
    VolumeInfo {
        number: 0,
        blocks: n as u32,
        used: used,
        free: free,
        root_blocks: d,
    }
}

// The volume: its numbers, and into the buffer the UUID and the volume name, as many of their 144 bytes as it holds.
pub fn info(image: &[u8], buffer: &mut [u8]) -> VolumeInfo
    ensures { volume_answer result buffer.new ≡ volume_info image.now buffer.old }
{
    if let Err(why) = super::check::check(image) {
        return VolumeInfo {
            number: why.number(),
            blocks: 0,
            used: 0,
            free: 0,
            root_blocks: 0,
        };
    }
    let numbers = volume_numbers(image);
    let count = buffer.len().min(LABELS);
    super::content::copy_block(image, 0, 112, buffer, 0, count);
    numbers
}

// Whether a path is `/` alone.
fn is_root_path(path: &[u8]) -> bool
    ensures { result ≡ is_root_path path.now }
{
    path == b"/".as_slice()
}

// The first block of the directory of a path, or the refusal, 1 to 7, 9, 17 or 10.
fn open_listed(image: &[u8], path: &[u8]) -> Result<usize, Refusal>
    ensures { Listed image.now path.now result }
{
    super::check::check(image)?;
    if is_root_path(path) {
        return Ok(super::geometry::root_block(image.len() / 512));
    }
    let directory = super::file::open_directory(image, path)?;
    Ok(directory.first)
}

// Whether slot k, which is in block b, is from `start` on and not free.
fn is_used_from(image: &[u8], b: usize, k: usize, start: usize) -> bool
    requires { 512 * b + 512 ≤ length image.now }
    ensures { result ≡ leb start k && is_used (type_of image.now (entry_at b k)) }
{
    start <= k && super::directory::type_at(image, b, k) != 0
}

// The lowest slot from `start` on of a directory that is not free.
fn find_used(image: &[u8], n: usize, first: usize, d: usize, start: usize) -> Option<Entry>
    requires { DirectoryAt image.now n first d }
    ensures { StandsAt (chain (next image.now) first d) n (used_slot image.now (chain (next image.now) first d) start) result }
{
    let mut b = first;
    for slot in 1..4 * d - 1 {
        if is_used_from(image, b, slot, start) {
            return Some(Entry { slot, block: b });
        }
        b = super::directory::following(image, b, slot + 1);
    }
    None
}

// The lowest slot from `start` on of the directory at block b that is not free.
fn used_slot(image: &[u8], n: usize, b: usize, start: usize) -> Option<Entry>
    requires { DirectoryAt image.now n b (blocks_of image.now (512 * b)) }
    ensures { StandsAt (directory image.now b) n (used_slot image.now (directory image.now b) start) result }
{
    let d = super::directory::number_at(image, b, 0, 12);
    find_used(image, n, b, d, start)
}

// An entry of a directory: the number of the refusal, or 0; its slot, 0 if there is none; its fields.
#[derive(Clone, Copy)]
#[repr(C)]
#[derive(Drop)]
pub struct EntryInfo {
    pub number: u32,
    pub slot: u32,
    pub ty: u8,
    pub user: u8,
    pub group: u8,
    pub permissions: u8,
    pub flags: u32,
    pub created: u64,
    pub modified: u64,
    pub first: u32,
    pub size: u32,
    pub blocks: u32,
    pub attribute_block: u32,
    pub attribute_size: u32,
}

// No entry, with the number of the refusal, or 0.
fn no_entry(number: u32) -> EntryInfo
    ensures { entry_answer result [] ≡ no_entry number [] }
{
    EntryInfo {
        number: number,
        slot: 0,
        ty: 0,
        user: 0,
        group: 0,
        permissions: 0,
        flags: 0,
        created: 0,
        modified: 0,
        first: 0,
        size: 0,
        blocks: 0,
        attribute_block: 0,
        attribute_size: 0,
    }
}

// The fields of slot k, which is in block b.
fn entry_fields(image: &[u8], b: usize, k: usize) -> EntryInfo
    requires { (512 * b + 512 ≤ length image.now) × (k < 256) }
    ensures { entry_answer result [] ≡ entry_fields image.now k (entry_at b k) [] }
{
    EntryInfo {
        number: 0,
        slot: k as u32,
        ty: super::directory::type_at(image, b, k),
        user: byte_at(image, b, k, 1),
        group: byte_at(image, b, k, 2),
        permissions: byte_at(image, b, k, 3),
        flags: word_at(image, b, k, 40),
        created: time_at(image, b, k, 16),
        modified: time_at(image, b, k, 24),
        first: word_at(image, b, k, 4),
        size: word_at(image, b, k, 8),
        blocks: word_at(image, b, k, 12),
        attribute_block: word_at(image, b, k, 32),
        attribute_size: word_at(image, b, k, 36),
    }
}

// The entry in the lowest slot from `start` on that is not free, of a path's directory, or of the root's for `/`; into the buffer the field of its
// name, as many of the 80 bytes as it holds.
pub fn next_entry(image: &[u8], path: &[u8], start: usize, buffer: &mut [u8]) -> EntryInfo
    ensures { entry_answer result buffer.new ≡ next_entry image.now path.now start buffer.old }
{
    let first = match open_listed(image, path) {
        Ok(first) => first,
        Err(why) => return no_entry(why.number()),
    };
    let n = image.len() / 512;
    let Some(at) = used_slot(image, n, first, start) else {
        return no_entry(0);
    };
    let fields = entry_fields(image, at.block, at.slot);
    let count = buffer.len().min(NAME_FIELD);
    let o = 128 * (at.slot % 4) + 48;
    super::content::copy_block(image, at.block, o, buffer, 0, count);
    fields
}
