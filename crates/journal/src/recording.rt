// Adding the record of marked blocks to a journal.
ghost use Rattle.std.specs.Prelude.{◌≡◌, ◌++◌, not, ◌+◌, ◌-◌, ◌*◌, ◌≤◌, ◌<◌, length, eqb};
ghost use Rattle.layout.specs.Limits.{max_blocks, max_journal};
ghost use Rattle.layout.specs.Lists.{joined};
ghost use Rattle.layout.specs.Bytes.{bytes4, block, splice};
ghost use Rattle.layout.specs.Geometry.{block_count};
ghost use Rattle.layout.specs.Walks.Chains.{bit};
ghost use Rattle.journal.specs.Journal.{used, record_bytes, added};
ghost use Rattle.journal.specs.Walks.Saves.{Marks, marked_from};
ghost use Rattle.journal.specs.Walks.Changes.{Ready, Records, record_marked};

// The marks that are looked at together.
const GROUP: usize = 64;

// 1 if a mark is not 0, else 0.
fn mark_bit(mark: u8) -> u8
    ensures { (result ≡ bit (not (eqb mark 0))) × (result ≤ 1) }
{
    u8::from(mark != 0)
}

// How many of the blocks from a up to e, a group or less, are marked. Adding up takes many marks in a step.
fn count_marked(marks: &[u8], a: usize, e: usize) -> u8
    requires { (a ≤ e) × (e ≤ a + 64) × (e ≤ length marks.now) }
    ensures { (result ≡ length (marked_from marks.now a (e - a))) × (result ≤ e - a) }
{
    let mut count = 0;
    for b in a..e {
        count += mark_bit(marks[b]);
    }
    count
}

// The length of the record of the marked blocks below n.
fn record_size(marks: &[u8], n: usize) -> usize
    requires { (n ≤ length marks.now) × (n ≤ max_blocks) }
    ensures { result ≡ 4 + 516 * length (marked_from marks.now 0 n) }
{
    let mut count = 0;
    let mut a = 0;
    while a + GROUP <= n {
        let e = a + GROUP;
        count += usize::from(count_marked(marks, a, e));
        a = e;
    }
    count += usize::from(count_marked(marks, a, n));
    4 + 516 * count
}

// Writes a block's number and its bytes over the 516 bytes of a record that are theirs.
fn save_block(block: &[u8], b: usize, piece: &mut [u8])
    requires { (length block.now ≡ 512) × (length piece.old ≡ 516) × (b < max_blocks) }
    ensures { piece.new ≡ bytes4 b ++ block.now }
{
    volume::number::put32(piece, 0, b as u32);
    layout::bytes::copy(block, &mut piece[4..516]);
}

// Saves the marked ones of the blocks from a up to e, ascending, from `at` on; gives the end of what it wrote.
fn save_range(
    image: &[u8],
    journal: &mut [u8],
    marks: &[u8],
    a: usize,
    e: usize,
    at: usize,
) -> usize
    requires { (a ≤ e) × (Marks image.now marks.now e) × (at + 516 * length (marked_from marks.now a (e - a)) ≤ length journal.old) }
    ensures { (result ≡ at + 516 * length (marked_from marks.now a (e - a))) × (journal.new ≡ splice journal.old at (joined (λ b. bytes4 b ++ block image.now b) (marked_from marks.now a (e - a)))) }
{
    let mut p = at;
    for b in a..e {
        if marks[b] == 0 {
            continue;
        }
        let s = 512 * b;
        let t = s + 512;
        let q = p + 516;
        save_block(&image[s..t], b, &mut journal[p..q]);
        p = q;
    }
    p
}

// Saves the marked blocks below n, ascending, from `at` on. A group with none marked is passed over.
fn save_blocks(image: &[u8], journal: &mut [u8], marks: &[u8], n: usize, at: usize)
    requires { (Marks image.now marks.now n) × (at + 516 * length (marked_from marks.now 0 n) ≤ length journal.old) }
    ensures { journal.new ≡ splice journal.old at (joined (λ b. bytes4 b ++ block image.now b) (marked_from marks.now 0 n)) }
{
    let mut p = at;
    let mut b = 0;
    while b + GROUP <= n {
        let a = b;
        b += GROUP;
        if count_marked(marks, a, b) == 0 {
            continue;
        }
        p = save_range(image, journal, marks, a, b, p);
    }
    save_range(image, journal, marks, b, n, p);
}

// Adds the record of the marked blocks below n, of `size` bytes, which the journal has room for.
fn add_record(image: &[u8], journal: &mut [u8], marks: &[u8], n: usize, size: usize)
    requires marks { (Marks image.now marks.now n) × (size ≡ 4 + 516 * length (marked_from marks.now 0 n)) }
    requires bound { (5 ≤ used journal.old) × (used journal.old + size ≤ length journal.old) × (length journal.old ≤ max_journal) }
    ensures { journal.new ≡ added journal.old (record_bytes image.now (marked_from marks.now 0 n)) }
{
    let at = layout::number::get32(journal, 1) as usize;
    volume::number::put32(journal, at, size as u32);
    save_blocks(image, journal, marks, n, at + 4);
    let end = at + size;
    volume::number::put32(journal, 1, end as u32);
}

// Adds the record of the marked blocks; gives its length, or none if the journal has no room for it.
pub fn record_marked(image: &[u8], journal: &mut [u8], marks: &[u8]) -> Option<u32>
    requires { (Ready image.now journal.old) × (block_count image.now ≤ length marks.now) }
    ensures { Records journal.old (record_marked image.now marks.now) result journal.new }
{
    let n = image.len() / 512;
    let size = record_size(marks, n);
    let used = layout::number::get32(journal, 1) as usize;
    if journal.len() < used + size {
        return None;
    }
    add_record(image, journal, marks, n, size);
    Some(size as u32)
}
