// A directory's slots, and from a slot to a child directory, at most so many levels.
ghost use Rattle.std.specs.Prelude.{◌*◌, ◌≤◌, ◌<◌, length};
ghost use Rattle.layout.specs.Limits.{max_levels};
ghost use Rattle.salvage_tree.specs.Walks.{Own, Ready, SlotDone, SlotsDone};

// Slots 1 to 4·d − 2 of a directory of d blocks, in order.
#[cycle(take_slot_take_slots)]
pub fn take_slots(
    image: &mut [u8],
    t: usize,
    n: usize,
    blocks: &[usize],
    left: usize,
    marks: &mut [u8],
    codes: &mut [u8],
)
    requires { (Ready image.old t n marks.old codes.old) × (Own n blocks.now) × (left ≤ max_levels) }
    ensures { SlotsDone image.old blocks.now left marks.old codes.old image.new marks.new codes.new }
{
    for k in 1..4 * blocks.len() - 1 {
        take_slot(image, t, n, blocks, k, left, marks, codes);
    }
}

// Slot k of a directory; a child directory with all below it.
#[cycle(take_slot_take_slots)]
fn take_slot(
    image: &mut [u8],
    t: usize,
    n: usize,
    blocks: &[usize],
    k: usize,
    left: usize,
    marks: &mut [u8],
    codes: &mut [u8],
)
    requires { (Ready image.old t n marks.old codes.old) × (Own n blocks.now) × (1 ≤ k) × (k < 4 * length blocks.now) × (left ≤ max_levels) }
    ensures { SlotDone image.old blocks.now k left marks.old codes.old image.new marks.new codes.new }
{
    let b = blocks[k / 4];
    if !super::slots::take_entry(image, t, n, blocks, b, k, marks, codes) {
        return;
    }
    if left == 0 {
        super::slots::drop_slot(image, b, k, 2, codes);
        return;
    }
    let mut own = super::blocks::no_blocks();
    let Some(d) = super::slots::enter(image, t, n, blocks[0], b, k, &mut own, marks, codes) else {
        return;
    };
    take_slots(image, t, n, &own[..d], left - 1, marks, codes);
}
