// Attributes set and cleared, on an image that the caller has checked.
ghost use Rattle.std.specs.Prelude.{◌≡◌, ◌&&◌, ◌/◌, ◌%◌, ◌≤◌, eqb, leb, length, get_or, take};
ghost use Rattle.layout.specs.Reasons.{outcome};
ghost use Rattle.layout.specs.Geometry.{block_count};
ghost use Rattle.layout.specs.Table.{next, free_blocks};
ghost use Rattle.layout.specs.Directory.{is_file};
ghost use Rattle.layout.specs.Check.{check};
ghost use Rattle.layout.specs.Paths.{file_refusal};
ghost use Rattle.layout.specs.Walks.Looks.{Opened};
ghost use Rattle.layout.specs.Walks.Slots.{entry_at};
ghost use Rattle.volume.specs.Entries.{grown};
ghost use Rattle.volume.specs.Write.{put};
ghost use Rattle.volume.specs.Attributes.{set_attributes_refusal, set_attributes_at, set_attributes_named, clear_attributes_at, clear_attributes_named};
ghost use Rattle.volume.specs.Walks.Attributes.{set_form_refusal, Fillable};
ghost use Rattle.volume.specs.Walks.Marks.{marked};
ghost use Rattle.volume.specs.Walks.Targets.{Standing};

use layout::file::File;
use layout::limits::MAX_ATTRIBUTES;
use layout::refusal::Refusal;

// Whether so many bytes are whole blocks, one at least.
fn whole_blocks(count: usize) -> bool
    ensures { result ≡ leb 1 count && eqb (count % 512) 0 }
{
    0 < count && count.is_multiple_of(512)
}

// The refusals of a set by the form of its path and the number of its bytes, 9 and 20.
fn form_refusal(path: &[u8], count: usize) -> Result<(), Refusal>
    ensures { outcome result ≡ set_form_refusal path.now count }
{
    if layout::path::path_parts(path).is_none() || !whole_blocks(count) {
        return Err(Refusal::BadArgument);
    }
    if 512 * (MAX_ATTRIBUTES as usize) < count {
        return Err(Refusal::TooManyBlocks);
    }
    Ok(())
}

// The file, or the refusal of a set, 9, 20, 17, 10 or 14. The blocks of the old chain count as free.
pub fn set_attributes_refusal(image: &[u8], path: &[u8], count: usize) -> Result<File, Refusal>
    requires { check image.now ≡ 0 }
    ensures { Opened is_file image.now path.now (set_attributes_refusal image.now path.now count) result }
{
    form_refusal(path, count)?;
    let file = layout::file::open_file(image, path)?;
    let old = layout::file::attribute_chain(image, file.block, file.slot);
    if layout::number::header_number(image, 24) + old.blocks < count / 512 {
        return Err(Refusal::VolumeFull);
    }
    Ok(file)
}

// Marks the blocks that an accepted set names. The new blocks are those that are the lowest free ones once the old chain is freed.
pub fn set_attributes_named(image: &[u8], found: File, count: usize, marks: &mut [u8])
    requires { (check image.now ≡ 0) × (Standing image.now (λ path. set_attributes_refusal image.now path count) found.slot found.block found.first found.size found.blocks) × (block_count image.now ≤ length marks.old) }
    ensures { marks.new ≡ marked marks.old (set_attributes_named image.now (entry_at found.block found.slot) count) }
{
    let old = layout::file::attribute_chain(image, found.block, found.slot);
    let n = image.len() / 512;
    super::marks::mark(marks, found.block);
    super::marks::mark_freed(image, n, old.first, old.blocks, marks);
    super::marks::mark(marks, 0);
    super::marks::mark_free(image, n, old.first, old.blocks, count / 512, marks);
}

// Takes the lowest free blocks for the bytes, which are whole blocks, and puts them there; gives the first block.
fn fill_blocks(image: &mut [u8], n: usize, bytes: &[u8]) -> usize
    requires { Fillable image.old n (length bytes.now) }
    ensures first { result ≡ get_or (take (length bytes.now / 512) (free_blocks (next image.old) n)) 0 0 }
    ensures bytes { image.new ≡ put (grown image.old n 0 (take (length bytes.now / 512) (free_blocks (next image.old) n))) (take (length bytes.now / 512) (free_blocks (next image.old) n)) 0 bytes.now }
{
    let k = bytes.len() / 512;
    let first = super::table::grow(image, n, 0, k);
    super::data::put_data(image, n, first, k, 0, bytes);
    first
}

// An accepted set: frees the old chain, then takes blocks for the new one and sets the entry's two fields.
pub fn set_attributes(image: &mut [u8], found: File, bytes: &[u8])
    requires { (check image.old ≡ 0) × (Standing image.old (λ path. set_attributes_refusal image.old path (length bytes.now)) found.slot found.block found.first found.size found.blocks) }
    ensures { image.new ≡ set_attributes_at image.old (entry_at found.block found.slot) bytes.now }
{
    let old = layout::file::attribute_chain(image, found.block, found.slot);
    let n = image.len() / 512;
    super::table::release(image, n, old.first, old.blocks);
    let first = fill_blocks(image, n, bytes);
    super::file::set_attribute_fields(image, found.block, found.slot, first, bytes.len() / 512);
}

// Marks the blocks that an accepted clear names.
pub fn clear_attributes_named(image: &[u8], found: File, marks: &mut [u8])
    requires { (check image.now ≡ 0) × (Standing image.now (file_refusal image.now) found.slot found.block found.first found.size found.blocks) × (block_count image.now ≤ length marks.old) }
    ensures { marks.new ≡ marked marks.old (clear_attributes_named image.now (entry_at found.block found.slot)) }
{
    let a = layout::file::attribute_chain(image, found.block, found.slot);
    let n = image.len() / 512;
    super::marks::mark(marks, found.block);
    super::marks::mark_freed(image, n, a.first, a.blocks, marks);
}

// An accepted clear: frees the chain and sets the two fields to 0.
pub fn clear_attributes(image: &mut [u8], found: File)
    requires { (check image.old ≡ 0) × (Standing image.old (file_refusal image.old) found.slot found.block found.first found.size found.blocks) }
    ensures { image.new ≡ clear_attributes_at image.old (entry_at found.block found.slot) }
{
    let a = layout::file::attribute_chain(image, found.block, found.slot);
    let n = image.len() / 512;
    super::table::release(image, n, a.first, a.blocks);
    super::file::set_attribute_fields(image, found.block, found.slot, 0, 0);
}
