// The root and all below it.
ghost use Rattle.std.specs.Prelude.{◌≡◌, ◌*◌, length};
ghost use Rattle.layout.specs.Bytes.{zeros};
ghost use Rattle.salvage_tree.specs.Walks.{Ready, RootDone};

use layout::limits::MAX_LEVELS;

// Puts the root right and takes its slots; no block is claimed, and all codes are 0.
pub fn take_root(image: &mut [u8], t: usize, n: usize, marks: &mut [u8], codes: &mut [u8])
    requires { (Ready image.old t n marks.old codes.old) × (marks.old ≡ zeros (length marks.old)) × (codes.old ≡ zeros (4 * n)) }
    ensures { RootDone image.old marks.old codes.old image.new marks.new codes.new }
{
    let root = t + 1;
    let said = layout::directory::number_at(image, root, 0, 12);
    let mut own = super::blocks::no_blocks();
    let d = super::blocks::choose(image, t, n, root, said, false, marks, &mut own);
    let own = &own[..d];
    super::put::put_named(image, t, n, root, 0, own, root, marks, codes);
    super::tree::take_slots(image, t, n, own, MAX_LEVELS, marks, codes);
}
