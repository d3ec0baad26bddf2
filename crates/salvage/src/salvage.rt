// Salvage: what refuses it, and its steps in order.
ghost use Rattle.std.specs.Prelude.{◌≡◌, ◌+◌, ◌-◌, ◌*◌, ◌≤◌, length};
ghost use Rattle.layout.specs.Limits.{max_blocks};
ghost use Rattle.layout.specs.Reasons.{outcome};
ghost use Rattle.layout.specs.Bytes.{be32, zeros, splice};
ghost use Rattle.layout.specs.Geometry.{table_blocks};
ghost use Rattle.layout.specs.Table.{next, chain};
ghost use Rattle.layout.specs.Walks.Shapes.{Shape, Room, DirectoryAt};
ghost use Rattle.layout.specs.Walks.Slots.{entry_at};
ghost use Rattle.layout.specs.Walks.Stages.{head_stage};
ghost use Rattle.salvage.specs.Salvage.{SalvageAnswer, salvage, salvage_image, salvage_codes};
ghost use Rattle.salvage.specs.Walks.{no_directory, Weighed};

use super::slots::Root;
use layout::limits::{MAX_BLOCKS, SMALL_BLOCKS};
use layout::refusal::Refusal;

// The root, by what its self entry says.
fn root_at(image: &[u8], t: usize, n: usize) -> Root
    requires { (Shape image.now n) × (t ≡ table_blocks n) }
    ensures given { (result.t ≡ t) × (result.n ≡ n) × (result.first ≡ t + 1) }
    ensures size { result.d ≡ be32 image.now (entry_at result.first 0 + 12) }
{
    let first = t + 1;
    let d = layout::directory::number_at(image, first, 0, 12);
    Root { t, n, first, d }
}

// Whether no slot of the root has the type of a directory.
fn no_directory(image: &[u8], root: Root) -> bool
    requires { DirectoryAt image.now root.n root.first root.d }
    ensures { result ≡ no_directory image.now (chain (next image.now) root.first root.d) 1 (4 * root.d - 2) }
{
    let mut b = root.first;
    for k in 1..4 * root.d - 1 {
        if layout::directory::is_directory(layout::directory::type_at(image, b, k)) {
            return false;
        }
        b = layout::directory::following(image, b, k + 1);
    }
    true
}

// The refusal, 4, 5 or 9, of an image with a right header; `size` is the report's. It marks the root's blocks.
fn refusal(image: &[u8], t: usize, n: usize, size: usize, marks: &mut [u8]) -> Result<(), Refusal>
    requires { (Room image.now t n marks.old) × (head_stage image.now ≡ 0) × (marks.old ≡ zeros (length marks.old)) }
    ensures { Weighed image.now size (outcome result) marks.new }
{
    let root = root_at(image, t, n);
    if !layout::directory::directory_ok(image, t, n, root.first, root.first, marks) {
        return Err(Refusal::BadSelf);
    }
    if !no_directory(image, root) {
        return Err(Refusal::BadSlot);
    }
    if size < 4 * root.d {
        return Err(Refusal::BadArgument);
    }
    Ok(())
}

// The steps of an accepted salvage: the slots, the end slot, the table, the counts. The root's blocks are marked.
fn repair(image: &mut [u8], t: usize, n: usize, marks: &mut [u8], report: &mut [u8])
    requires { (Room image.old t n marks.old) × (Weighed image.old (length report.old) 0 marks.old) }
    ensures bytes { image.new ≡ salvage_image image.old }
    ensures codes { report.new ≡ splice report.old 0 (salvage_codes image.old) }
{
    let root = root_at(image, t, n);
    report[0] = 0;
    super::slots::take_slots(image, root, marks, report);
    report[4 * root.d - 1] = super::table::put_end(image, root);
    super::table::put_table(image, t, n, marks);
    super::table::put_counts(image, n);
}

// Salvage of an image with a right header, with a mark for each entry of the table, none marked.
fn body(image: &mut [u8], n: usize, marks: &mut [u8], report: &mut [u8]) -> Result<(), Refusal>
    requires { (Shape image.old n) × (head_stage image.old ≡ 0) × (128 * table_blocks n ≤ length marks.old) × (marks.old ≡ zeros (length marks.old)) }
    ensures { ◌≡◌ {A = SalvageAnswer} (record { number = outcome result; image = image.new; report = report.new }) (salvage image.old report.old) }
{
    let t = layout::geometry::table_blocks(n);
    refusal(image, t, n, report.len(), marks)?;
    repair(image, t, n, marks, report);
    Ok(())
}

// The same with room for so many marks.
fn marked_body<const MARKS: usize>(
    image: &mut [u8],
    n: usize,
    report: &mut [u8],
) -> Result<(), Refusal>
    requires { (Shape image.old n) × (head_stage image.old ≡ 0) × (128 * table_blocks n ≤ MARKS) × (MARKS ≤ max_blocks) }
    ensures { ◌≡◌ {A = SalvageAnswer} (record { number = outcome result; image = image.new; report = report.new }) (salvage image.old report.old) }
{
    let mut marks = [0; MARKS];
    body(image, n, &mut marks, report)
}

// Salvages an image: keeps the files of the root whose entries and chains are right, frees all else, and reports a code for each slot.
pub fn salvage(image: &mut [u8], report: &mut [u8]) -> Result<(), Refusal>
    ensures { ◌≡◌ {A = SalvageAnswer} (record { number = outcome result; image = image.new; report = report.new }) (salvage image.old report.old) }
{
    layout::check::head(image)?;
    let n = image.len() / 512;
    if n <= SMALL_BLOCKS {
        return marked_body::<SMALL_BLOCKS>(image, n, report);
    }
    marked_body::<MAX_BLOCKS>(image, n, report)
}
