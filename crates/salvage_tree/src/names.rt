// Names of a directory's slots.
ghost use Rattle.std.specs.Prelude.{true, not, ◌&&◌, ◌≡◌, ◌+◌, ◌-◌, ◌*◌, ◌/◌, ◌≤◌, ◌<◌, length, get_or};
ghost use Rattle.layout.specs.Lists.{interval, every};
ghost use Rattle.layout.specs.Directory.{slot_at, type_of, unpadded, good_name, name_of};
ghost use Rattle.layout.specs.Check.{slot_ok, new_name};
ghost use Rattle.layout.specs.Walks.Shapes.{Shape, Blocks};
ghost use Rattle.layout.specs.Walks.Slots.{entry_at};
ghost use Rattle.salvage_tree.specs.Walks.{other_than};

// How many bytes of a field stand before the first zero.
fn name_length(field: &[u8]) -> usize
    ensures { (result ≡ length (unpadded field.now)) × (result ≤ length field.now) }
{
    for (i, byte) in field.iter().enumerate() {
        if *byte == 0 {
            return i;
        }
    }
    field.len()
}

// The name of slot k, which is in block b.
pub fn name_at<'a>(image: &'a [u8], b: usize, k: usize) -> &'a [u8]
    requires { 512 * b + 512 ≤ length image.now }
    ensures { result.now ≡ name_of image.now (entry_at b k) }
{
    let field = layout::directory::field_at(image, b, k);
    &field[..name_length(field)]
}

// Whether slot k, in block b, is used and has a good name.
fn has_name(image: &[u8], b: usize, k: usize, name: &[u8]) -> bool
    requires { (512 * b + 512 ≤ length image.now) × (good_name name.now ≡ true) }
    ensures { result ≡ not (other_than image.now (entry_at b k) name.now) }
{
    layout::directory::type_at(image, b, k) != 0
        && layout::bytes::holds_name(layout::directory::field_at(image, b, k), name)
}

// Whether none of the slots 1 to j of a directory is used and has a good name.
pub fn is_new(image: &[u8], n: usize, blocks: &[usize], j: usize, name: &[u8]) -> bool
    requires { (Shape image.now n) × (Blocks n (length blocks.now) blocks.now) × (j < 4 * length blocks.now) × (good_name name.now ≡ true) }
    ensures { result ≡ every (λ x. other_than image.now (slot_at blocks.now x) name.now) (interval 1 j) }
{
    for k in 1..j + 1 {
        if has_name(image, blocks[k / 4], k, name) {
            return false;
        }
    }
    true
}

// Whether slot k of a directory, in block b, which is not free, is right and its name new.
pub fn slot_right(image: &[u8], n: usize, blocks: &[usize], b: usize, k: usize) -> bool
    requires { (Shape image.now n) × (Blocks n (length blocks.now) blocks.now) × (1 ≤ k) × (k < 4 * length blocks.now) × (b ≡ get_or blocks.now (k / 4) 0) × (type_of image.now (entry_at b k) ≡ 0 → ⊥) }
    ensures { result ≡ slot_ok image.now (entry_at b k) && new_name image.now blocks.now k }
{
    layout::directory::slot_ok_at(image, b, k)
        && is_new(image, n, blocks, k - 1, name_at(image, b, k))
}
