// Delete of an entry that was found, with its chains, on an image that the caller has checked.
ghost use Rattle.std.specs.Prelude.{◌≡◌, ◌≤◌, ◌∷◌, ◌++◌, length};
ghost use Rattle.layout.specs.Bytes.{zeros, splice};
ghost use Rattle.layout.specs.Geometry.{block_count};
ghost use Rattle.layout.specs.Table.{next, chain};
ghost use Rattle.layout.specs.Directory.{attribute_blocks};
ghost use Rattle.layout.specs.Walks.Slots.{entry_at};
ghost use Rattle.volume.specs.Entries.{released, blocks_named};
ghost use Rattle.volume.specs.Walks.Marks.{marked};
ghost use Rattle.volume.specs.Walks.Drops.{Droppable};

use layout::file::File;

// Marks what the entry names that goes with its chain and that of its attributes.
pub fn drop_named(image: &[u8], found: File, marks: &mut [u8])
    requires { (Droppable image.now found.block found.slot found.first found.blocks) × (block_count image.now ≤ length marks.old) }
    ensures { marks.new ≡ marked marks.old (found.block ∷ blocks_named (chain (next image.now) found.first found.blocks ++ attribute_blocks image.now (entry_at found.block found.slot))) }
{
    let n = image.len() / 512;
    let a = layout::file::attribute_chain(image, found.block, found.slot);
    super::marks::mark(marks, found.block);
    super::marks::mark_freed(image, n, found.first, found.blocks, marks);
    super::marks::mark_freed(image, n, a.first, a.blocks, marks);
}

// Frees the entry's chain and that of its attributes, which zeroes their blocks, and zeroes its slot.
pub fn drop_entry(image: &mut [u8], found: File)
    requires { Droppable image.old found.block found.slot found.first found.blocks }
    ensures { image.new ≡ splice (released image.old (block_count image.old) (chain (next image.old) found.first found.blocks ++ attribute_blocks image.old (entry_at found.block found.slot))) (entry_at found.block found.slot) (zeros 128) }
{
    let n = image.len() / 512;
    let a = layout::file::attribute_chain(image, found.block, found.slot);
    super::table::release(image, n, found.first, found.blocks);
    super::table::release(image, n, a.first, a.blocks);
    super::file::clear_slot(image, found.block, found.slot);
}
