// Bytes that are set where they are not right already, and codes.
ghost use Rattle.std.specs.Prelude.{cond, [], ◌∷◌, ◌≡◌, ◌+◌, ◌*◌, ◌≤◌, ◌<◌, length};
ghost use Rattle.layout.specs.Lists.{same};
ghost use Rattle.layout.specs.Bytes.{part, splice};
ghost use Rattle.layout.specs.Table.{table_block_of};
ghost use Rattle.layout.specs.Walks.Slots.{entry_at};
ghost use Rattle.salvage_tree.specs.SalvageTree.{coded, put_number, put_byte, put_field, put_value};

// The number v at `at`.
pub fn put_number(image: &mut [u8], at: usize, v: usize)
    requires { (at + 4 ≤ length image.old) × (v < 4294967296) }
    ensures { image.new ≡ put_number image.old at v }
{
    if layout::number::get32(image, at) as usize == v {
        return;
    }
    volume::number::put32(image, at, v as u32);
}

// The byte v at `at`.
pub fn put_byte(image: &mut [u8], at: usize, v: u8)
    requires { at < length image.old }
    ensures { image.new ≡ put_byte image.old at v }
{
    if image[at] == v {
        return;
    }
    image[at] = v;
}

// The byte v at `at`, whatever stands there.
pub fn set_byte(image: &mut [u8], at: usize, v: u8)
    requires { at < length image.old }
    ensures { image.new ≡ splice image.old at (v ∷ []) }
{
    image[at] = v;
}

// Whether the 80 bytes at `at` are those of a field.
pub fn has_field(image: &[u8], at: usize, field: &[u8]) -> bool
    requires { (at + 80 ≤ length image.now) × (length field.now ≡ 80) }
    ensures { result ≡ same (part image.now at 80) field.now }
{
    &image[at..at + 80] == field
}

// The field at `at`.
pub fn put_field(image: &mut [u8], at: usize, field: &[u8])
    requires { (at + 80 ≤ length image.old) × (length field.now ≡ 80) }
    ensures { image.new ≡ put_field image.old at field.now }
{
    if has_field(image, at, field) {
        return;
    }
    layout::bytes::copy(field, &mut image[at..at + 80]);
}

// The value v of entry b.
pub fn put_value(image: &mut [u8], b: usize, v: usize)
    requires { (512 * table_block_of b + 512 ≤ length image.old) × (v < 4294967296) }
    ensures { image.new ≡ put_value image.old b v }
{
    if layout::table::entry(image, b) == v {
        return;
    }
    volume::table::set_entry(image, b, v as u32);
}

// The code of slot i of block b, 3 if something was not right; what was right leaves the code that is there.
pub fn note(codes: &mut [u8], b: usize, i: usize, right: bool)
    requires { (4 * b + i < length codes.old) × (i < 4) }
    ensures { codes.new ≡ coded codes.old (512 * b + 128 * i) (cond right 0 3) }
{
    if right {
        return;
    }
    codes[4 * b + i] = 3;
}

// The code of slot k, which is in block b.
pub fn put_code(codes: &mut [u8], b: usize, k: usize, code: u8)
    requires { 4 * b + 4 ≤ length codes.old }
    ensures { codes.new ≡ coded codes.old (entry_at b k) code }
{
    if code == 0 {
        return;
    }
    codes[4 * b + k % 4] = code;
}
