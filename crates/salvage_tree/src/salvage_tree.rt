// Salvage of a tree: what refuses it, its steps in order, and the counts.
ghost use Rattle.std.specs.Prelude.{not, ◌≡◌, ◌+◌, ◌*◌, ◌/◌, ◌%◌, ◌≤◌, ◌<◌, length, get_or};
ghost use Rattle.layout.specs.Limits.{max_blocks};
ghost use Rattle.layout.specs.Reasons.{outcome};
ghost use Rattle.layout.specs.Lists.{within, interval, select};
ghost use Rattle.layout.specs.Bytes.{zeros};
ghost use Rattle.layout.specs.Geometry.{table_blocks};
ghost use Rattle.layout.specs.Directory.{is_free};
ghost use Rattle.layout.specs.Walks.Shapes.{Shape};
ghost use Rattle.salvage_tree.specs.SalvageTree.{other_length, tree_refusal, number, salvaged, salvage_tree};
ghost use Rattle.salvage_tree.specs.Answers.{tree_answer};
ghost use Rattle.salvage_tree.specs.Walks.{Ready, one, UsedOf, used_bits, was_used, hung_here, Answered};

use super::rest::SIGNATURE;
use layout::limits::{MAX_BLOCKS, MIN_BLOCKS, SMALL_BLOCKS};
use layout::refusal::Refusal;

// What an accepted salvage did: how many entries were zeroed, and how many blocks freed.
#[derive(Drop)]
pub struct Counts {
    pub zeroed: u32,
    pub freed: u32,
}

// Whether the header is whole, of a volume of another length than n blocks.
fn other_length(image: &[u8], n: usize) -> bool
    requires { Shape image.now n }
    ensures { result ≡ other_length image.now }
{
    let m = layout::number::header_number(image, 12);
    image.starts_with(SIGNATURE)
        && m != n
        && MIN_BLOCKS <= m
        && m <= MAX_BLOCKS
        && layout::number::header_number(image, 16) == layout::geometry::table_blocks(m)
        && layout::number::header_number(image, 28) == layout::geometry::root_block(m)
}

// The refusal, 1, 3 or 9; `size` is the report's.
fn refusal(image: &[u8], size: usize) -> Result<(), Refusal>
    ensures { outcome result ≡ tree_refusal image.now size }
{
    if !layout::check::sized(image) {
        return Err(Refusal::BadLength);
    }
    let n = image.len() / 512;
    if other_length(image, n) {
        return Err(Refusal::BadGeometry);
    }
    if size < 4 * n {
        return Err(Refusal::BadArgument);
    }
    Ok(())
}

// 1 if a type is not that of a free slot, else 0.
fn used_bit(ty: u8) -> u8
    ensures { result ≡ one (not (is_free ty)) }
{
    u8::from(ty != 0)
}

// Which slots of block b are not free, a bit for each.
fn used_slots(image: &[u8], b: usize) -> u8
    requires { 512 * b + 512 ≤ length image.now }
    ensures { result ≡ used_bits image.now b }
{
    let used = |k: usize| used_bit(layout::directory::type_at(image, b, k));
    used(0) + 2 * used(1) + 4 * used(2) + 8 * used(3)
}

// The same of every block.
fn note_used(image: &[u8], n: usize, used: &mut [u8])
    requires { (Shape image.now n) × (n ≤ length used.old) }
    ensures { UsedOf image.now n used.new }
{
    for (b, slots) in used[..n].iter_mut().enumerate() {
        *slots = used_slots(image, b);
    }
}

// Whether slot i, counted over all blocks, was not free.
fn was_used(used: &[u8], i: usize) -> bool
    requires { i < 4 * length used.now }
    ensures { result ≡ was_used (get_or used.now (i / 4) 0) (i % 4) }
{
    used[i / 4] >> (i % 4) & 1 == 1
}

// How many folders were hung in slots that were not free.
fn count_over(codes: &[u8], used: &[u8]) -> u32
    requires { (length codes.now ≤ 4 * length used.now) × (length codes.now ≤ 262144) }
    ensures { (result ≡ length (select (hung_here codes.now used.now) (interval 0 (length codes.now)))) × (result ≤ length codes.now) }
{
    let over = (0..codes.len()).filter(|i| codes[*i] == 6 && was_used(used, *i));
    over.count() as u32
}

// How many codes are from lo to hi.
fn count_codes(codes: &[u8], lo: u8, hi: u8) -> u32
    requires { length codes.now ≤ 262144 }
    ensures { (result ≡ number (within lo hi) codes.now) × (result ≤ length codes.now) }
{
    let from_to = codes.iter().filter(|code| lo <= **code && **code <= hi);
    from_to.count() as u32
}

// The steps of an accepted salvage, with no block marked and all codes 0.
fn repair(image: &mut [u8], t: usize, n: usize, marks: &mut [u8], codes: &mut [u8])
    requires { (Ready image.old t n marks.old codes.old) × (marks.old ≡ zeros (length marks.old)) × (codes.old ≡ zeros (4 * n)) }
    ensures bytes { image.new ≡ (salvaged image.old).image }
    ensures codes { codes.new ≡ (salvaged image.old).codes }
{
    super::root::take_root(image, t, n, marks, codes);
    super::lost::hang_each(image, t, n, marks, codes);
    super::rest::put_rest(image, t, n, marks, codes);
}

// An accepted salvage, with two bytes for each entry of the table, the first 0; the codes are all there is of the report.
fn answer(image: &mut [u8], n: usize, marks: &mut [u8], used: &mut [u8], codes: &mut [u8]) -> Counts
    requires { (Shape image.old n) × (128 * table_blocks n ≤ length marks.old) × (marks.old ≡ zeros (length marks.old)) × (n ≤ length used.old) × (length codes.old ≡ 4 * n) }
    ensures { Answered image.old result.zeroed result.freed image.new codes.new }
{
    note_used(image, n, used);
    codes.fill(0);
    let t = layout::geometry::table_blocks(n);
    repair(image, t, n, marks, codes);
    let zeroed = count_codes(codes, 1, 2) + count_over(codes, used);
    let freed = count_codes(codes, 5, 5);
    Counts { zeroed, freed }
}

// The same, with room for SIZE marks.
fn answer_in<const SIZE: usize>(image: &mut [u8], n: usize, codes: &mut [u8]) -> Counts
    requires { (SIZE ≤ max_blocks) × (Shape image.old n) × (128 * table_blocks n ≤ SIZE) × (length codes.old ≡ 4 * n) }
    ensures { Answered image.old result.zeroed result.freed image.new codes.new }
{
    let mut marks = [0; SIZE];
    let mut used = [0; SIZE];
    answer(image, n, &mut marks, &mut used, codes)
}

// The same with the report, of which the codes are the front.
fn accepted(image: &mut [u8], n: usize, codes: &mut [u8]) -> Counts
    requires { (Shape image.old n) × (length codes.old ≡ 4 * n) }
    ensures { Answered image.old result.zeroed result.freed image.new codes.new }
{
    if n <= SMALL_BLOCKS {
        return answer_in::<SMALL_BLOCKS>(image, n, codes);
    }
    answer_in::<MAX_BLOCKS>(image, n, codes)
}

// Salvages an image: what can be kept of its tree is put right, all else freed, and the report tells a code for each slot and each freed block.
pub fn salvage_tree(image: &mut [u8], report: &mut [u8]) -> Result<Counts, Refusal>
    ensures { tree_answer result image.new report.new ≡ salvage_tree image.old report.old }
{
    refusal(image, report.len())?;
    let n = image.len() / 512;
    Ok(accepted(image, n, &mut report[..4 * n]))
}
