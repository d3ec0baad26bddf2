// Paths: their form, the number of their parts, and the directory that they lead to.
ghost use Rattle.std.specs.Prelude.{◌+◌, ◌-◌, ◌*◌, ◌≤◌, ◌<◌, true, ◌≡◌, length, drop};
ghost use Rattle.layout.specs.Lists.{within, every};
ghost use Rattle.layout.specs.Directory.{blocks_of, good_name, is_used, directory};
ghost use Rattle.layout.specs.Geometry.{block_count};
ghost use Rattle.layout.specs.Paths.{cut, parts, path_ok, leading, last_part, child_of, resolve, home, path_slot};
ghost use Rattle.layout.specs.Walks.Shapes.{DirectoryAt};
ghost use Rattle.layout.specs.Walks.Paths.{first_length, good_from, good_parts, Along, PathGiven, SpottedAt};
ghost use Rattle.layout.specs.Walks.Slots.{NoneIsZero, SomeUnlessZero, StandsAt};

use super::directory::{Entry, number_at};

// How many bytes stand before the first `/`, or all.
fn part_length(rest: &[u8]) -> usize
    ensures { (result ≡ first_length rest.now) × (result ≤ length rest.now) }
{
    for i in 0..rest.len() {
        if rest[i] == b'/' {
            return i;
        }
    }
    rest.len()
}

// Where the part that begins at `at` ends.
fn part_end(rest: &[u8], at: usize) -> usize
    requires { at ≤ length rest.now }
    ensures { (result ≡ at + first_length (drop at rest.now)) × (result ≤ length rest.now) }
{
    at + part_length(&rest[at..])
}

// How many parts there are, if each of them is a good name.
fn count_parts(rest: &[u8]) -> Option<usize>
    ensures { SomeUnlessZero (good_from 0 rest.now) result }
{
    let mut at = 0;
    let mut count = 0;
    let mut end = part_end(rest, at);
    while end < rest.len() {
        if !super::bytes::good_name(&rest[at..end]) {
            return None;
        }
        count += 1;
        at = end + 1;
        end = part_end(rest, at);
    }
    if !super::bytes::good_name(&rest[at..end]) {
        return None;
    }
    Some(count + 1)
}

// The number of parts of a path; none if it is not a path.
pub fn path_parts(path: &[u8]) -> Option<usize>
    ensures { SomeUnlessZero (good_parts path.now) result }
{
    if path.is_empty() || path[0] != b'/' {
        return None;
    }
    count_parts(&path[1..])
}

// Where the last part begins.
fn last_start(rest: &[u8]) -> usize
    ensures { (drop result rest.now ≡ last_part (cut rest.now)) × (result ≤ length rest.now) }
{
    let mut at = 0;
    let mut end = part_end(rest, at);
    while end < rest.len() {
        at = end + 1;
        end = part_end(rest, at);
    }
    at
}

// The first block of the child directory of a good name in the directory at block b.
fn child_of(image: &[u8], n: usize, b: usize, name: &[u8]) -> Option<usize>
    requires { (DirectoryAt image.now n b (blocks_of image.now (512 * b))) × (good_name name.now ≡ true) }
    ensures { SomeUnlessZero (child_of image.now b name.now) result }
{
    let d = number_at(image, b, 0, 12);
    let at = super::directory::find(image, n, b, d, 0x20, 0x5F, name)?;
    let child = number_at(image, at.block, at.slot, 4);
    if child == 0 { None } else { Some(child) }
}

// The first block of the directory that all parts but the last lead to from the one at block b.
pub fn resolve(image: &[u8], n: usize, b: usize, rest: &[u8]) -> Option<usize>
    requires { (Along image.now n b (leading (cut rest.now))) × (every good_name (cut rest.now) ≡ true) }
    ensures number { NoneIsZero (resolve image.now b (leading (cut rest.now))) result }
    ensures some { (b ≡ 0 → ⊥) → SomeUnlessZero (resolve image.now b (leading (cut rest.now))) result }
{
    let k = part_length(rest);
    if k == rest.len() {
        return Some(b);
    }
    let child = child_of(image, n, b, &rest[..k])?;
    resolve(image, n, child, &rest[k + 1..])
}

// The last part of a path.
pub fn last_part<'a>(path: &'a [u8]) -> &'a [u8]
    requires { path_ok path.now ≡ true }
    ensures { result.now ≡ last_part (parts path.now) }
{
    let k = last_start(&path[1..]);
    &path[k + 1..]
}

// The first block of the directory in which a path's last part is looked up.
pub fn home(image: &[u8], path: &[u8]) -> Option<usize>
    requires { PathGiven image.now path.now }
    ensures { SomeUnlessZero (home image.now path.now) result }
{
    let n = image.len() / 512;
    let root = super::geometry::root_block(n);
    resolve(image, n, root, &path[1..])
}

// Where a path leads: the first block of the directory of its last part, and the entry there that has its name, if there is one.
#[derive(Drop)]
pub struct Spot {
    pub home: usize,
    pub entry: Option<Entry>,
}

// Where a path leads, among the entries whose type is from lo to hi.
pub fn follow_path(image: &[u8], path: &[u8], lo: u8, hi: u8) -> Option<Spot>
    requires { PathGiven image.now path.now }
    ensures { SpottedAt (within lo hi) image.now path.now result }
{
    let n = image.len() / 512;
    let home = home(image, path)?;
    let d = number_at(image, home, 0, 12);
    // By its two numbers: an answer copied whole is compiled to a call of `memcpy` on RISC-V, and a reader needs `memset` alone.
    let entry = match super::directory::find(image, n, home, d, lo, hi, last_part(path)) {
        None => None,
        Some(Entry { slot, block }) => Some(Entry { slot, block }),
    };
    Some(Spot { home, entry })
}

// Where a path leads, among all entries that are used.
pub fn follow_used(image: &[u8], path: &[u8]) -> Option<Spot>
    requires { PathGiven image.now path.now }
    ensures { SpottedAt is_used image.now path.now result }
{
    follow_path(image, path, 1, 0xFF)
}

// The entry of a path, among those whose type is from lo to hi.
pub fn find_path(image: &[u8], path: &[u8], lo: u8, hi: u8) -> Option<Entry>
    requires { PathGiven image.now path.now }
    ensures { StandsAt (directory image.now (home image.now path.now)) (block_count image.now) (path_slot (within lo hi) image.now path.now) result }
{
    follow_path(image, path, lo, hi)?.entry
}
