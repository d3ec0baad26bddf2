// Replace, on an image that the caller has checked: the file is shortened, then written at 0. Its refusals are those of the write.
ghost use Rattle.std.specs.Prelude.{◌≡◌, ◌≤◌, length};
ghost use Rattle.layout.specs.Geometry.{block_count};
ghost use Rattle.layout.specs.Check.{check};
ghost use Rattle.layout.specs.Walks.Slots.{entry_at};
ghost use Rattle.volume.specs.Replace.{replace_refusal, replace_at, replace_named};
ghost use Rattle.volume.specs.Walks.Marks.{marked};
ghost use Rattle.volume.specs.Walks.Targets.{Standing};

use layout::file::File;

// An accepted replace.
pub fn replace_at(image: &mut [u8], found: File, bytes: &[u8], time: u64)
    requires { (check image.old ≡ 0) × (Standing image.old (λ path. replace_refusal image.old path (length bytes.now)) found.slot found.block found.first found.size found.blocks) }
    ensures { image.new ≡ replace_at image.old (entry_at found.block found.slot) bytes.now time }
{
    let size = found.size.min(bytes.len());
    let start = super::shorten::shorten_at(image, found, size, time);
    let short = File {
        slot: found.slot,
        block: found.block,
        first: start,
        size,
        blocks: size.div_ceil(512),
    };
    super::write::write_at(image, short, 0, bytes, time);
}

// Marks the blocks that an accepted replace names.
pub fn replace_named(image: &[u8], found: File, count: usize, marks: &mut [u8])
    requires { (check image.now ≡ 0) × (Standing image.now (λ path. replace_refusal image.now path count) found.slot found.block found.first found.size found.blocks) × (block_count image.now ≤ length marks.old) }
    ensures { marks.new ≡ marked marks.old (replace_named image.now (entry_at found.block found.slot) count) }
{
    let size = found.size.min(count);
    super::shorten::shorten_named(image, found, size, marks);
    super::write::write_at_named(image, found, 0, count, marks);
}
