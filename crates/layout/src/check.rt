// The check, in stages: the first that is not met.
ghost use Rattle.std.specs.Prelude.{◌+◌, ◌-◌, ◌*◌, ◌/◌, ◌≤◌, ◌<◌, ◌≡◌, length};
ghost use Rattle.layout.specs.Limits.{max_blocks};
ghost use Rattle.layout.specs.Reasons.{outcome};
ghost use Rattle.layout.specs.Bytes.{zeros};
ghost use Rattle.layout.specs.Geometry.{table_blocks};
ghost use Rattle.layout.specs.Table.{next};
ghost use Rattle.layout.specs.Check.{check, stage1, stage2, stage7};
ghost use Rattle.layout.specs.Walks.Chains.{count_used};
ghost use Rattle.layout.specs.Walks.Shapes.{Shape, Room};
ghost use Rattle.layout.specs.Walks.Stages.{visited, walk_root, header_ok, counts_ok, head_stage, body_stage};

use super::limits::{MAX_BLOCKS, MIN_BLOCKS, SMALL_BLOCKS, TINY_BLOCKS};
use super::number::get32;
use super::refusal::Refusal;

// Stage 1: the length.
#[tactic(auto, unfolding(crate::specs::Check::stage1))]
pub fn sized(image: &[u8]) -> bool
    ensures { result ≡ stage1 image.now }
{
    let n = image.len() / 512;
    image.len() == 512 * n && MIN_BLOCKS <= n && n <= MAX_BLOCKS
}

// Stage 2, of the first block: signature and version.
fn signed(header: &[u8]) -> bool
    requires { 512 ≤ length header.now }
    ensures { result ≡ stage2 header.now }
{
    super::bytes::equal(&header[..12], b"BulgeFS!\x00\x01\x00\x00")
}

// Stage 3, of the first block: total, table and root numbers.
#[tactic(auto, unfolding(crate::specs::Walks::Stages::header_ok))]
fn numbered(header: &[u8], n: usize) -> bool
    requires { (512 ≤ length header.now) × (n ≤ max_blocks) }
    ensures { result ≡ header_ok header.now n }
{
    let t = super::geometry::table_blocks(n);
    get32(header, 12) as usize == n
        && get32(header, 16) as usize == t
        && get32(header, 28) as usize == t + 1
}

// Stages 1 to 3.
pub fn head(image: &[u8]) -> Result<(), Refusal>
    ensures { outcome result ≡ head_stage image.now }
{
    if !sized(image) {
        return Err(Refusal::BadLength);
    }
    let n = image.len() / 512;
    let header = super::bytes::block(image, 0);
    if !signed(header) {
        return Err(Refusal::BadSignature);
    }
    if !numbered(header, n) {
        return Err(Refusal::BadGeometry);
    }
    Ok(())
}

// The header's counts, of the first block.
#[tactic(auto, unfolding(crate::specs::Walks::Stages::counts_ok))]
fn counted(header: &[u8], n: usize, used: usize) -> bool
    requires { (512 ≤ length header.now) × (used ≤ n) }
    ensures { result ≡ counts_ok header.now n used }
{
    get32(header, 20) as usize == used && get32(header, 24) as usize == n - used
}

// Stage 7: the counts, when so many entries below n are in use.
fn counts_ok(image: &[u8], n: usize, used: usize) -> bool
    requires { (Shape image.now n) × (used ≡ count_used (next image.now) 0 n) }
    ensures { result ≡ stage7 image.now }
{
    counted(super::bytes::block(image, 0), n, used)
}

// Stages 6 and 7, when the blocks of all directories are marked in dirs; no block is marked in marks.
fn tables(image: &[u8], t: usize, n: usize, dirs: &[u8], marks: &mut [u8]) -> Result<(), Refusal>
    requires { (Room image.now t n dirs.now) × (visited 0 dirs.now ≡ walk_root image.now n (zeros (length dirs.now)))
        × (128 * t ≤ length marks.old) × (marks.old ≡ zeros (length marks.old)) }
    ensures { outcome result ≡ body_stage image.now }
{
    let used = super::chains::table_used(image, t, n, dirs, marks);
    if used == 0 {
        return Err(Refusal::BadChains);
    }
    if !counts_ok(image, n, used) {
        return Err(Refusal::BadCounts);
    }
    Ok(())
}

// Stages 4 to 7, with two marks for each entry of the table, none marked.
fn marked_body(image: &[u8], n: usize, dirs: &mut [u8], marks: &mut [u8]) -> Result<(), Refusal>
    requires { (Shape image.now n) × (128 * table_blocks n ≤ length dirs.old) × (dirs.old ≡ zeros (length dirs.old))
        × (128 * table_blocks n ≤ length marks.old) × (marks.old ≡ zeros (length marks.old)) }
    ensures { outcome result ≡ body_stage image.now }
{
    let t = super::geometry::table_blocks(n);
    super::visit::visit(image, t, n, dirs)?;
    tables(image, t, n, dirs, marks)
}

// The same of a volume whose table has at most N entries, with marks of that size.
fn body<const N: usize>(image: &[u8], n: usize) -> Result<(), Refusal>
    requires { (Shape image.now n) × (128 * table_blocks n ≤ N) × (N ≤ max_blocks) }
    ensures { outcome result ≡ body_stage image.now }
{
    let mut dirs = [0u8; N];
    let mut marks = [0u8; N];
    marked_body(image, n, &mut dirs, &mut marks)
}

// The check: the first stage that is not met is the reason of a refusal.
pub fn check(image: &[u8]) -> Result<(), Refusal>
    ensures { outcome result ≡ check image.now }
{
    head(image)?;
    let n = image.len() / 512;
    if n <= TINY_BLOCKS {
        body::<TINY_BLOCKS>(image, n)
    } else if n <= SMALL_BLOCKS {
        body::<SMALL_BLOCKS>(image, n)
    } else {
        body::<MAX_BLOCKS>(image, n)
    }
}
