// Directories and their entries. The work on one entry is given the 512 bytes of its block.
ghost use Rattle.std.specs.Prelude.{◌+◌, ◌-◌, ◌*◌, ◌≤◌, ◌<◌, ◌&&◌, true, ◌≡◌, length, get_or};
ghost use Rattle.layout.specs.Lists.{within, same};
ghost use Rattle.layout.specs.Bytes.{be32, be64, part};
ghost use Rattle.layout.specs.Table.{next, chain, table_block_of};
ghost use Rattle.layout.specs.Directory.{type_of, is_file, is_directory, name_of, name_ok, good_name, slot_of, free_slot, blocks_of, directory, is_empty};
ghost use Rattle.layout.specs.Check.{attributes_ok, file_ok, directory_entry_ok, slot_ok};
ghost use Rattle.layout.specs.Walks.Chains.{walked};
ghost use Rattle.layout.specs.Walks.Entries.{numbers_ok, self_ok};
ghost use Rattle.layout.specs.Walks.Shapes.{Room, DirectoryAt};
ghost use Rattle.layout.specs.Walks.Names.{ending, some_has, may_hold};
ghost use Rattle.layout.specs.Walks.Slots.{SomeUnlessZero, StandsAt, entry_at, entry_named, slot_block, slot_in, all_free};
ghost use Rattle.layout.specs.Walks.Stages.{follow_directory};

use super::limits::{MAX_ATTRIBUTES, MAX_DIRECTORY, NAME_FIELD};
use super::number::{get32, word};

// The block of slot k, if b is that of slot k − 1.
pub fn following(image: &[u8], b: usize, k: usize) -> usize
    requires { 512 * table_block_of b + 512 ≤ length image.now }
    ensures { result ≡ slot_block (next image.now) b k }
{
    if k % 4 == 0 {
        return super::table::entry(image, b);
    }
    b
}

// Whether a type is a file's.
pub fn is_file(ty: u8) -> bool
    ensures { result ≡ is_file ty }
{
    if ty < 0x60 {
        return false;
    }
    ty <= 0x9F
}

// Whether a type is a child directory's.
pub fn is_directory(ty: u8) -> bool
    ensures { result ≡ is_directory ty }
{
    if ty < 0x20 {
        return false;
    }
    ty <= 0x5F
}

// Whether a type is one of those from lo to hi.
pub fn is_within(ty: u8, lo: u8, hi: u8) -> bool
    ensures { result ≡ within lo hi ty }
{
    if ty < lo {
        return false;
    }
    ty <= hi
}

// Whether the two attribute fields of the file at o are right.
fn attributes_ok(block: &[u8], o: usize) -> bool
    requires { o + 128 ≤ length block.now }
    ensures { result ≡ attributes_ok block.now o }
{
    let size = get32(block, o + 36);
    if get32(block, o + 32) == 0 {
        return size == 0;
    }
    if size < 1 {
        return false;
    }
    size <= MAX_ATTRIBUTES
}

// Whether the numbers of the file at o are right.
fn numbers_ok(block: &[u8], o: usize) -> bool
    requires { o + 128 ≤ length block.now }
    ensures { result ≡ numbers_ok block.now o }
{
    if !attributes_ok(block, o) {
        return false;
    }
    let size = get32(block, o + 8) as usize;
    let blocks = get32(block, o + 12) as usize;
    if blocks != (size + 511) / 512 {
        return false;
    }
    if get32(block, o + 4) == 0 {
        return size == 0;
    }
    size != 0
}

// Whether the entry at o has a good name.
fn named(block: &[u8], o: usize) -> bool
    requires { o + 128 ≤ length block.now }
    ensures { result ≡ name_ok block.now o }
{
    super::bytes::name_ok(field_of(block, o))
}

// Whether the entry at o is a right file's.
fn file_ok(block: &[u8], o: usize) -> bool
    requires { o + 128 ≤ length block.now }
    ensures { result ≡ file_ok block.now o }
{
    if !named(block, o) {
        return false;
    }
    numbers_ok(block, o)
}

// Whether the entry at o is a right one of a child directory.
fn directory_entry_ok(block: &[u8], o: usize) -> bool
    requires { o + 128 ≤ length block.now }
    ensures { result ≡ directory_entry_ok block.now o }
{
    if !named(block, o) {
        return false;
    }
    if get32(block, o + 32) != 0 {
        return false;
    }
    if get32(block, o + 36) != 0 {
        return false;
    }
    get32(block, o + 8) == 0
}

// Whether the slot at o of a directory's block is free, or a right file or child directory.
fn slot_ok(block: &[u8], o: usize) -> bool
    requires { o + 128 ≤ length block.now }
    ensures { result ≡ slot_ok block.now o }
{
    if block[o] == 0 {
        return true;
    }
    if is_file(block[o]) {
        return file_ok(block, o);
    }
    if is_directory(block[o]) {
        return directory_entry_ok(block, o);
    }
    false
}

// Whether the entry at the start of block b is its self entry.
fn self_ok(block: &[u8], b: usize, parent: usize) -> bool
    requires { 128 ≤ length block.now }
    ensures { result ≡ self_ok block.now 0 b parent }
{
    if block[0] != 1 {
        return false;
    }
    if get32(block, 4) as usize != b {
        return false;
    }
    if get32(block, 8) as usize != parent {
        return false;
    }
    let d = get32(block, 12);
    if d < 1 {
        return false;
    }
    d <= MAX_DIRECTORY
}

// The slots of an image, by the block b that holds slot k: its type, a byte and numbers of its entry, whether it is right.
fn byte_of(block: &[u8], o: usize) -> u8
    requires { o < length block.now }
    ensures { result ≡ get_or block.now o 0 }
{
    block[o]
}

pub fn type_at(image: &[u8], b: usize, k: usize) -> u8
    requires { 512 * b + 512 ≤ length image.now }
    ensures { result ≡ type_of image.now (entry_at b k) }
{
    let o = 128 * (k % 4);
    byte_of(super::bytes::block(image, b), o)
}

pub fn byte_at(image: &[u8], b: usize, k: usize, at: usize) -> u8
    requires { (512 * b + 512 ≤ length image.now) × (at < 128) }
    ensures { result ≡ get_or image.now (entry_at b k + at) 0 }
{
    let o = 128 * (k % 4) + at;
    byte_of(super::bytes::block(image, b), o)
}

pub fn word_at(image: &[u8], b: usize, k: usize, at: usize) -> u32
    requires { (512 * b + 512 ≤ length image.now) × (at + 4 ≤ 128) }
    ensures { result ≡ be32 image.now (entry_at b k + at) }
{
    let o = 128 * (k % 4) + at;
    get32(super::bytes::block(image, b), o)
}

pub fn time_at(image: &[u8], b: usize, k: usize, at: usize) -> u64
    requires { (512 * b + 512 ≤ length image.now) × (at + 8 ≤ 128) }
    ensures { result ≡ be64 image.now (entry_at b k + at) }
{
    let o = 128 * (k % 4) + at;
    super::number::get64(super::bytes::block(image, b), o)
}

pub fn number_at(image: &[u8], b: usize, k: usize, at: usize) -> usize
    requires { (512 * b + 512 ≤ length image.now) × (at + 4 ≤ 128) }
    ensures { result ≡ be32 image.now (entry_at b k + at) }
{
    word_at(image, b, k, at) as usize
}

pub fn slot_ok_at(image: &[u8], b: usize, k: usize) -> bool
    requires { 512 * b + 512 ≤ length image.now }
    ensures { result ≡ slot_ok image.now (entry_at b k) }
{
    let o = 128 * (k % 4);
    slot_ok(super::bytes::block(image, b), o)
}

// The name's field of the slot at o of a directory's block.
fn field_of<'a>(block: &'a [u8], o: usize) -> &'a [u8]
    requires { o + 128 ≤ length block.now }
    ensures { result.now ≡ part block.now (o + 48) 80 }
{
    let a = o + 48;
    let e = a + NAME_FIELD;
    &block[a..e]
}

// The name's field of slot k, which is in block b.
pub fn field_at<'a>(image: &'a [u8], b: usize, k: usize) -> &'a [u8]
    requires { 512 * b + 512 ≤ length image.now }
    ensures { result.now ≡ part image.now (entry_at b k + 48) 80 }
{
    let o = 128 * (k % 4);
    field_of(super::bytes::block(image, b), o)
}

// Whether a directory starts at block b: its self entry, and its chain, whose blocks it marks.
pub fn directory_ok(
    image: &[u8],
    t: usize,
    n: usize,
    b: usize,
    parent: usize,
    marks: &mut [u8],
) -> bool
    requires { (Room image.now t n marks.old) × (b < n) }
    ensures { walked result marks.new ≡ follow_directory image.now n b parent marks.old }
{
    if !self_ok(super::bytes::block(image, b), b, parent) {
        return false;
    }
    let d = number_at(image, b, 0, 12);
    super::table::follow(image, t, n, b, d, marks)
}

// Whether the slot at o of a directory's block has a type from lo to hi and a good name.
fn slot_holds(block: &[u8], o: usize, lo: u8, hi: u8, name: &[u8]) -> bool
    requires { (o + 128 ≤ length block.now) × (good_name name.now ≡ true) }
    ensures { result ≡ within lo hi (type_of block.now o) && same (name_of block.now o) name.now }
{
    if !is_within(block[o], lo, hi) {
        return false;
    }
    super::bytes::holds_name(field_of(block, o), name)
}

// The same of slot k, which is in block b. It is never inlined: else the search is compiled four times over, for names of other lengths each, and the
// code of a boot loader's archive grows from 7.5 KB to 8.2.
#[inline(never)]
fn holds_at(image: &[u8], b: usize, k: usize, lo: u8, hi: u8, name: &[u8]) -> bool
    requires { (512 * b + 512 ≤ length image.now) × (good_name name.now ≡ true) }
    ensures { result ≡ within lo hi (type_of image.now (entry_at b k)) && same (name_of image.now (entry_at b k)) name.now }
{
    let o = 128 * (k % 4);
    slot_holds(super::bytes::block(image, b), o, lo, hi, name)
}

// The last four bytes of a name; 0 for a shorter one.
fn ending(name: &[u8]) -> u32
    ensures { result ≡ ending name.now }
{
    if name.len() < 4 {
        return 0;
    }
    let at = name.len() - 4;
    word(name, at)
}

// Whether one of the four entries of a directory's block has w at `at`. All four are looked at, so that no branch depends on the names.
fn some_has(block: &[u8], at: usize, w: u32) -> bool
    requires { at + 388 ≤ length block.now }
    ensures { result ≡ some_has block.now at w }
{
    let a = word(block, at);
    let b = word(block, at + 128);
    let c = word(block, at + 256);
    let d = word(block, at + 384);
    (a == w) | ((b == w) | ((c == w) | (d == w)))
}

// Whether one of the four entries of a directory's block may have a good name, whose ending is w: in a field, which begins at 48 of its entry, it would
// stand at 44 and the name's length. Of a name of less than four bytes it tells nothing.
fn may_hold(block: &[u8], name: &[u8], w: u32) -> bool
    requires { (length block.now ≡ 512) × (good_name name.now ≡ true) × (w ≡ ending name.now) }
    ensures { result ≡ may_hold block.now name.now }
{
    if name.len() < 4 {
        return true;
    }
    let at = 44 + name.len();
    some_has(block, at, w)
}

// The slot of a good name, whose ending is w, among the slots k to k + j − 1, which are in block b.
fn find_in(
    image: &[u8],
    b: usize,
    k: usize,
    j: usize,
    lo: u8,
    hi: u8,
    name: &[u8],
    w: u32,
) -> Option<usize>
    requires { (512 * b + 512 ≤ length image.now) × (k + j ≤ 256) × (1 ≤ k) × (good_name name.now ≡ true) × (w ≡ ending name.now) }
    ensures { SomeUnlessZero (slot_in (entry_named (within lo hi) image.now name.now) b k j) result }
{
    if !may_hold(super::bytes::block(image, b), name, w) {
        return None;
    }
    for at in k..k + j {
        if holds_at(image, b, at, lo, hi, name) {
            return Some(at);
        }
    }
    None
}

// Where an entry is: its slot and the block that holds it.
#[derive(Clone, Copy, Drop)]
pub struct Entry {
    pub slot: usize,
    pub block: usize,
}

// The entry of a good name in a directory, among those whose type is from lo to hi. It goes from block to block.
pub fn find(
    image: &[u8],
    n: usize,
    first: usize,
    d: usize,
    lo: u8,
    hi: u8,
    name: &[u8],
) -> Option<Entry>
    requires { (DirectoryAt image.now n first d) × (good_name name.now ≡ true) }
    ensures { StandsAt (chain (next image.now) first d) n (slot_of (within lo hi) image.now (chain (next image.now) first d) name.now) result }
{
    let w = ending(name);
    let mut b = first;
    let mut k = 1;
    let mut left = 4 * d - 2;
    while 0 < left {
        let j = left.min(4 - k % 4);
        if let Some(slot) = find_in(image, b, k, j, lo, hi, name, w) {
            return Some(Entry { slot, block: b });
        }
        k += j;
        b = following(image, b, k);
        left -= j;
    }
    None
}

// The lowest free slot of a directory.
pub fn find_free(image: &[u8], n: usize, first: usize, d: usize) -> Option<Entry>
    requires { DirectoryAt image.now n first d }
    ensures { StandsAt (chain (next image.now) first d) n (free_slot image.now (chain (next image.now) first d)) result }
{
    let mut b = first;
    for slot in 1..4 * d - 1 {
        if type_at(image, b, slot) == 0 {
            return Some(Entry { slot, block: b });
        }
        b = following(image, b, slot + 1);
    }
    None
}

// The lowest free slot of the directory at block b.
pub fn free_slot(image: &[u8], n: usize, b: usize) -> Option<Entry>
    requires { DirectoryAt image.now n b (blocks_of image.now (512 * b)) }
    ensures { StandsAt (directory image.now b) n (free_slot image.now (directory image.now b)) result }
{
    let d = number_at(image, b, 0, 12);
    find_free(image, n, b, d)
}

// Whether every slot of a directory from 1 to 4·d − 2 is free.
fn all_free(image: &[u8], n: usize, first: usize, d: usize) -> bool
    requires { DirectoryAt image.now n first d }
    ensures { result ≡ all_free image.now (chain (next image.now) first d) 1 (4 * d - 2) }
{
    let mut b = first;
    let mut k = 1;
    let mut left = 4 * d - 2;
    while 0 < left {
        if type_at(image, b, k) != 0 {
            return false;
        }
        k = k + 1;
        b = following(image, b, k);
        left = left - 1;
    }
    true
}

// Whether the directory at block b is empty.
pub fn is_empty(image: &[u8], n: usize, b: usize) -> bool
    requires { DirectoryAt image.now n b (blocks_of image.now (512 * b)) }
    ensures { result ≡ is_empty image.now b }
{
    let d = number_at(image, b, 0, 12);
    all_free(image, n, b, d)
}
