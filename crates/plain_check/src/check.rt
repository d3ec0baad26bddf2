// The plain check. It keeps no record of owners: for each block it counts, by walking every chain afresh, how many chains hold it.
// Tests joined by `&` and `|` are all made; one after `&&` is made only where those before it hold.
ghost use Rattle.std.specs.Prelude.{ℕ, ◌+◌, ◌-◌, ◌*◌, ◌/◌, ◌%◌, ◌≤◌, ◌<◌, true, ◌&&◌, ◌≡◌, length, get_or, eqb, ltb, IfOk};
ghost use Rattle.layout.specs.Lists.{interval, every};
ghost use Rattle.layout.specs.Limits.{max_blocks};
ghost use Rattle.layout.specs.Bytes.{be32};
ghost use Rattle.layout.specs.Geometry.{root_block};
ghost use Rattle.layout.specs.Table.{next, chain, chain_ok};
ghost use Rattle.layout.specs.Directory.{first_block, blocks_of, name_ok, directory};
ghost use Rattle.layout.specs.Check.{check, stage1, stage2, stage3, stage7, file_ok, directory_entry_ok, slot_ok};
ghost use Rattle.plain_check.specs.Plain.{outcome, Question, Claims, one, holds, plain_directory_ok, plain_child_ok, count, meet, tour_told, tour_entries, tour_child, ask_tree, answer, counted, plain_stage6};
ghost use Rattle.plain_check.specs.Walks.{far, word, after, same_field, new_field, new_from, file_answer, Askable, Answers, Volume, Stands, Upto};

use layout::{directory, limits};

// The seven stages, each with its number.
#[derive(Drop)]
enum Stage {
    Length = 1,
    Signature = 2,
    Numbers = 3,
    Directory = 4,
    Slot = 5,
    Chains = 6,
    Counts = 7,
}

// A byte of the image; past its end all bytes are 0.
fn byte(image: &[u8], at: usize) -> u8
    ensures { (result ≡ get_or image.now at 0) × (result < 256) }
{
    if image.len() <= at { 0 } else { image[at] }
}

// The number of the four bytes at `at`, the highest first.
fn number(image: &[u8], at: usize) -> usize
    requires { at ≤ far }
    ensures { (result ≡ be32 image.now at) × (result < word) }
{
    let high = byte(image, at) as usize * 256 + byte(image, at + 1) as usize;
    let low = byte(image, at + 2) as usize * 256 + byte(image, at + 3) as usize;
    high * 65536 + low
}

// The value of a block's entry in the chain table: 0 free, 1 the last of its chain, else the next block.
fn next(image: &[u8], b: usize) -> usize
    requires { b < word }
    ensures { (result ≡ next image.now b) × (result < word) }
{
    number(image, 512 + 4 * b)
}

// The entry after that at e in its directory: four stand in a block, the next is the first of the next block.
fn after(image: &[u8], e: usize) -> usize
    requires { (e < 512 * word) × (e % 128 ≡ 0) }
    ensures { (result ≡ after (next image.now) e) × (result < 512 * word) × (result % 128 ≡ 0) }
{
    if e % 512 == 384 {
        return 512 * next(image, e / 512);
    }
    e + 128
}

// The last of the d blocks from `first` on.
fn last_block(image: &[u8], first: usize, d: usize) -> usize
    requires { (first < word) × (1 ≤ d) }
    ensures { (result ≡ get_or (chain (next image.now) first d) (d - 1) 0) × (result < word) }
{
    let mut at = first;
    for i in 1..d {
        at = next(image, at);
    }
    at
}

// Whether the chain of k blocks from `first` on holds block b: 1 or 0.
fn holds(image: &[u8], b: usize, first: usize, k: usize) -> usize
    requires { first < word }
    ensures { (result ≡ one (holds (next image.now) b first k)) × (result ≤ 1) }
{
    let mut at = first;
    for i in 0..k {
        if b == at {
            return 1;
        }
        at = next(image, at);
    }
    0
}

// Whether the chain of k blocks from `first` on is right: all are above the table and below n, and the last has value 1.
fn chain_ok(image: &[u8], n: usize, first: usize, k: usize) -> bool
    requires { (n ≤ max_blocks) × (first < word) }
    ensures { result ≡ chain_ok (next image.now) n first k }
{
    let mut good = true;
    let mut at = first;
    for i in 0..k {
        good = good & ((n + 127) / 128 < at) & (at < n);
        at = next(image, at);
    }
    (k == 0) | good & (at == 1)
}

// Stage 1: the length is that of n blocks, n in range.
fn sized(image: &[u8], n: usize) -> bool
    requires { n ≡ length image.now / 512 }
    ensures { result ≡ stage1 image.now }
{
    (image.len() == 512 * n) & ((limits::MIN_BLOCKS <= n) & (n <= limits::MAX_BLOCKS))
}

// Stage 2: signature and version.
fn signed(image: &[u8]) -> bool
    requires { 512 ≤ length image.now }
    ensures { result ≡ stage2 image.now }
{
    layout::bytes::equal(&image[..12], b"BulgeFS!\x00\x01\x00\x00")
}

// Stage 3: total, table and root numbers.
fn numbered(image: &[u8], n: usize) -> bool
    requires { Volume image.now n }
    ensures { result ≡ stage3 image.now }
{
    let t = layout::geometry::table_blocks(n);
    (number(image, 12) == n) & ((number(image, 16) == t) & (number(image, 28) == t + 1))
}

// Stage 4: whether a directory starts at block b.
fn directory_ok(image: &[u8], n: usize, b: usize, parent: usize) -> bool
    requires { (n ≤ max_blocks) × (b < word) }
    ensures { result ≡ plain_directory_ok image.now n b parent }
{
    let e = 512 * b;
    let d = number(image, e + 12);
    let sized = (1 <= d) & (d <= 64);
    let known = (number(image, e + 4) == b) & (number(image, e + 8) == parent);
    (byte(image, e) == 1) & known & sized && chain_ok(image, n, b, d)
}

// Whether the entries at a and b have the same 80 bytes of name.
fn same_name(image: &[u8], a: usize, b: usize) -> bool
    requires { (a ≤ far) × (b ≤ far) }
    ensures { result ≡ same_field image.now a b }
{
    for i in 48..128 {
        if byte(image, a + i) != byte(image, b + i) {
            return false;
        }
    }
    true
}

// How many directories are still to be met, and how many of those met hold the block.
#[derive(Drop)]
struct Count {
    more: usize,
    held: usize,
}

// Meets the directory at block d and those below it, in the check's order, until none of `still` is left.
fn meet(image: &[u8], levels: usize, b: usize, d: usize, still: usize, before: usize) -> Count
    requires { (d < word) × (1 ≤ still) × (still + before ≤ word) }
    ensures equal { count result.more result.held ≡ meet levels image.now b d (count still before) }
    ensures bound { result.more + result.held ≤ still + before }
{
    let size = number(image, 512 * d + 12);
    let mut more = still - 1;
    let mut held = before + holds(image, b, d, size);
    let mut e = 512 * d;
    for k in 2..4 * size {
        e = after(image, e);
        if (levels == 0) | (more == 0) | !directory::is_directory(byte(image, e)) {
            continue;
        }
        let c = meet(image, levels - 1, b, number(image, e + 4), more, held);
        more = c.more;
        held = c.held;
    }
    Count { more, held }
}

// Whether none of the k blocks from b on is in one of the first `met` directories.
fn new_blocks(image: &[u8], n: usize, met: usize, b: usize, k: usize) -> bool
    requires { (Volume image.now n) × (1 ≤ met) × (met ≤ n) × (b < word) }
    ensures { result ≡ new_from image.now met b k }
{
    let root = layout::geometry::root_block(n);
    let mut at = b;
    for i in 0..k {
        if meet(image, limits::MAX_LEVELS, at, root, met, 0).held != 0 {
            return false;
        }
        at = next(image, at);
    }
    true
}

// Stage 4 of the child whose entry is at e, after `met` directories: it tells the same size and name, and none of its blocks is in one of these.
fn child_ok(image: &[u8], n: usize, parent: usize, e: usize, met: usize) -> bool
    requires { (Volume image.now n) × (e + 128 ≤ length image.now) × (1 ≤ met) × (met ≤ n) }
    ensures { result ≡ plain_child_ok image.now n parent e && (ltb met n && new_from image.now met (first_block image.now e) (blocks_of image.now (512 * first_block image.now e))) }
{
    let b = number(image, e + 4);
    let size = number(image, 512 * b + 12);
    let told = (size == number(image, e + 12)) & same_name(image, 512 * b, e);
    directory_ok(image, n, b, parent) & told & (met < n) && new_blocks(image, n, met, b, size)
}

// Whether the entry at e has a good name: 1 to 80 bytes, none of them 0 or `/`, and zeros after it.
fn name_ok(image: &[u8], e: usize) -> bool
    requires { (e + 128 ≤ length image.now) × (e ≤ word * 512) }
    ensures { result ≡ name_ok image.now e }
{
    let mut good = (byte(image, e + 48) != 0) & (byte(image, e + 48) != 0x2F);
    for i in e + 48..e + 127 {
        let padded = (byte(image, i) != 0) | (byte(image, i + 1) == 0);
        good = good & padded & (byte(image, i + 1) != 0x2F);
    }
    good
}

// Whether the entry at e is a right file's: its attribute fields are 0, or a block and 1 to 8; it has as many blocks as its size needs.
fn file_ok(image: &[u8], e: usize) -> bool
    requires { (e + 128 ≤ length image.now) × (e ≤ word * 512) }
    ensures { result ≡ file_ok image.now e }
{
    let size = number(image, e + 8);
    let a = number(image, e + 32);
    let k = number(image, e + 36);
    let attributes = (a == 0) & (k == 0) | (a != 0) & ((1 <= k) & (k <= 8));
    let counted = number(image, e + 12) == (size + 511) / 512;
    let empty = (number(image, e + 4) == 0) == (size == 0);
    name_ok(image, e) & (attributes & (counted & empty))
}

// Whether the entry at e is a right one of a child directory: its attribute fields and its size are 0.
fn directory_entry_ok(image: &[u8], e: usize) -> bool
    requires { (e + 128 ≤ length image.now) × (e ≤ word * 512) }
    ensures { result ≡ directory_entry_ok image.now e }
{
    let none = (number(image, e + 32) == 0) & (number(image, e + 36) == 0);
    name_ok(image, e) & (none & (number(image, e + 8) == 0))
}

// Whether the slot at e is free, a right file or a right child directory.
fn slot_ok(image: &[u8], e: usize) -> bool
    requires { (e + 128 ≤ length image.now) × (e ≤ word * 512) }
    ensures { result ≡ slot_ok image.now e }
{
    let kind = byte(image, e);
    let file = directory::is_file(kind) & file_ok(image, e);
    let child = directory::is_directory(kind) & directory_entry_ok(image, e);
    (kind == 0) | (file | child)
}

// Whether the k-th entry of the directory at block d, the one at e, is free or has a name that no slot before it has.
fn new_name(image: &[u8], d: usize, k: usize, e: usize) -> bool
    requires { (d < word) × (2 ≤ k) × (k < 4 * blocks_of image.now (512 * d)) × (e ≤ far) }
    ensures { result ≡ new_field image.now (directory image.now d) e (k - 1) }
{
    let mut o = 512 * d;
    for j in 2..k {
        o = after(image, o);
        if (byte(image, o) != 0) & (byte(image, e) != 0) & same_name(image, o, e) {
            return false;
        }
    }
    true
}

// Stages 4 and 5 of the directory at block d, which has met its own stage 4, and of all below it: its end slot, then slot by slot, a child wholly before the next.
// Gives how many directories were met.
fn tour(image: &[u8], n: usize, levels: usize, d: usize, before: usize) -> Result<usize, Stage>
    requires { (Volume image.now n) × (Stands image.now n d) × (1 ≤ before) × (before ≤ n) }
    ensures equal { tour_told result ≡ tour_entries (tour_child levels image.now n d) image.now (directory image.now d) before }
    ensures bound { IfOk result (λ met. (1 ≤ met) × (met ≤ n)) }
{
    let size = number(image, 512 * d + 12);
    if byte(image, 512 * last_block(image, d, size) + 384) != 0xFF {
        return Err(Stage::Slot);
    }
    let mut met = before;
    let mut e = 512 * d;
    for k in 2..4 * size {
        e = after(image, e);
        if !(slot_ok(image, e) & new_name(image, d, k, e)) {
            return Err(Stage::Slot);
        }
        if !directory::is_directory(byte(image, e)) {
            continue;
        }
        if (levels == 0) | !child_ok(image, n, d, e, met) {
            return Err(Stage::Directory);
        }
        met = tour(image, n, levels - 1, number(image, e + 4), met + 1)?;
    }
    Ok(met)
}

// How many blocks the chain of k blocks from `first` on claims: a wrong one claims more than n.
fn claims(image: &[u8], n: usize, first: usize, k: usize) -> usize
    requires { (n ≤ max_blocks) × (first < word) × (k < word) }
    ensures { (result ≡ answer Claims image.now n first k) × (result ≤ 2 * word) }
{
    k + (n + 1) * (!chain_ok(image, n, first, k)) as usize
}

// What the two chains of the entry at e answer together, if it is a file's.
fn ask_file<F: Fn(usize, usize) -> usize>(image: &[u8], ask: &F, e: usize) -> usize
    requires { Askable (F.pre ask.now) (F.post ask.now) × (e ≤ word * 512) }
    ensures equal { (q : Question) (n : ℕ) → Answers (F.post ask.now) q image.now n → result ≡ file_answer q image.now n e }
    ensures few { result ≤ 4 * word }
{
    if !directory::is_file(byte(image, e)) {
        return 0;
    }
    let a = ask(number(image, e + 4), number(image, e + 12));
    a + ask(number(image, e + 32), number(image, e + 36))
}

// Adds to `before` what all chains of the directory at block d and of those below it answer; above n it stops.
fn tally<F: Fn(usize, usize) -> usize>(
    image: &[u8],
    n: usize,
    ask: &F,
    levels: usize,
    d: usize,
    before: usize,
) -> usize
    requires { Askable (F.pre ask.now) (F.post ask.now) × (n ≤ max_blocks) × (d < word) × (before ≤ 5 * word) }
    ensures { (q : Question) → Answers (F.post ask.now) q image.now n → Upto n result (before + ask_tree (answer q image.now n) levels image.now d) }
{
    let size = number(image, 512 * d + 12);
    let mut sum = before + ask(d, size);
    let mut e = 512 * d;
    for k in 2..4 * size {
        if n < sum {
            return sum;
        }
        e = after(image, e);
        sum += ask_file(image, ask, e);
        if (levels == 0) | !directory::is_directory(byte(image, e)) {
            continue;
        }
        sum = tally(image, n, ask, levels - 1, number(image, e + 4), sum);
    }
    sum
}

// Whether the entries from b up to `end` have one value.
fn entries_are(image: &[u8], b: usize, end: usize, value: usize) -> bool
    requires { end ≤ word }
    ensures { result ≡ every (λ x. eqb (next image.now x) value) (interval b (end - b)) }
{
    for x in b..end {
        if next(image, x) != value {
            return false;
        }
    }
    true
}

// Whether as many chains hold each block above the table as its entry says: none where it is 0, else one.
fn all_counted(image: &[u8], n: usize) -> bool
    requires { Volume image.now n }
    ensures { result ≡ every (counted image.now) (interval (root_block n) (n - root_block n)) }
{
    let root = layout::geometry::root_block(n);
    for b in root..n {
        let ask = |first, k| holds(image, b, first, k);
        let held = tally(image, n, &ask, limits::MAX_LEVELS, root, 0);
        if held != (next(image, b) != 0) as usize {
            return false;
        }
    }
    true
}

// Stage 6: every chain is right, entries 0 to t are 1, every other block is held as its entry says, and from n on the entries are 0.
fn table_ok(image: &[u8], n: usize) -> bool
    requires { Volume image.now n }
    ensures { result ≡ plain_stage6 image.now }
{
    let t = layout::geometry::table_blocks(n);
    let ask = |first, k| claims(image, n, first, k);
    let claimed = tally(image, n, &ask, limits::MAX_LEVELS, t + 1, 0);
    let fixed = entries_are(image, 0, t + 1, 1) & entries_are(image, n, 128 * t, 0);
    (claimed <= n) & fixed && all_counted(image, n)
}

// Stage 7: the header's counts.
fn counts_ok(image: &[u8], n: usize) -> bool
    requires { Volume image.now n }
    ensures { result ≡ stage7 image.now }
{
    let mut used = 0;
    for b in 0..n {
        used += (next(image, b) != 0) as usize;
    }
    (number(image, 20) == used) & (number(image, 24) == n - used)
}

// The seven stages, one after the other: the first that is not met ends the check.
fn seven_stages(image: &[u8]) -> Result<(), Stage>
    ensures { outcome result ≡ check image.now }
{
    let n = image.len() / 512;
    if !sized(image, n) {
        return Err(Stage::Length);
    }
    if !signed(image) {
        return Err(Stage::Signature);
    }
    if !numbered(image, n) {
        return Err(Stage::Numbers);
    }
    let root = layout::geometry::root_block(n);
    if !directory_ok(image, n, root, root) {
        return Err(Stage::Directory);
    }
    tour(image, n, limits::MAX_LEVELS, root, 1)?;
    if !table_ok(image, n) {
        return Err(Stage::Chains);
    }
    if !counts_ok(image, n) {
        return Err(Stage::Counts);
    }
    Ok(())
}

// The plain check: the number of the first stage that is not met, or 0.
pub fn plain_check(image: &[u8]) -> u32
    ensures { result ≡ check image.now }
{
    seven_stages(image).err().map_or(0, |stage| stage as u32)
}
