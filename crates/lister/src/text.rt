// Text in a buffer. Each function writes at `at`, where the caller has room, and gives the offset after what it wrote.
ghost use Rattle.std.specs.Prelude.{◌≡◌, cond, [], ◌∷◌, ◌++◌, ◌+◌, ◌≤◌, ◌<◌, length};
ghost use Rattle.layout.specs.Lists.{within};
ghost use Rattle.layout.specs.Directory.{unpadded};
ghost use Rattle.layout.specs.Listing.{digits, decimal, printed};
ghost use Rattle.lister.specs.Text.{TextPut};

// One byte.
pub fn put_byte(out: &mut [u8], at: usize, x: u8) -> usize
    requires { at + 1 ≤ length out.old }
    ensures { TextPut out.old at (x ∷ []) out.new result }
{
    out[at] = x;
    at + 1
}

// A byte string.
pub fn put_bytes(out: &mut [u8], at: usize, bytes: &[u8]) -> usize
    requires { at + length bytes.now ≤ length out.old }
    ensures { TextPut out.old at bytes.now out.new result }
{
    let end = at + bytes.len();
    out[at..end].copy_from_slice(bytes);
    end
}

// The character of a digit.
fn digit(x: usize) -> u8
    requires { x < 10 }
    ensures { result ≡ 48 + x }
{
    48 + x as u8
}

// A number in decimal, of at most `most` digits.
fn put_digits(out: &mut [u8], at: usize, most: usize, x: usize) -> usize
    requires { at + length (digits most x) ≤ length out.old }
    ensures { TextPut out.old at (digits most x) out.new result }
{
    if most == 0 {
        return at;
    }
    if x < 10 {
        return put_byte(out, at, digit(x));
    }
    let p = put_digits(out, at, most - 1, x / 10);
    put_byte(out, p, digit(x % 10))
}

// A number in decimal.
pub fn put_decimal(out: &mut [u8], at: usize, x: usize) -> usize
    requires { at + length (decimal x) ≤ length out.old }
    ensures { TextPut out.old at (decimal x) out.new result }
{
    put_digits(out, at, 10, x)
}

// A label and a number.
pub fn put_labelled(out: &mut [u8], at: usize, label: &[u8], x: usize) -> usize
    requires { at + length (label.now ++ decimal x) ≤ length out.old }
    ensures { TextPut out.old at (label.now ++ decimal x) out.new result }
{
    let p = put_bytes(out, at, label);
    put_decimal(out, p, x)
}

// A byte of a name as it is written.
fn shown(x: u8) -> u8
    ensures { result ≡ cond (within 0x21 0x7E x) x 63 }
{
    match x {
        0x21..=0x7E => x,
        _ => b'?',
    }
}

// The name in a field.
pub fn put_name(out: &mut [u8], at: usize, field: &[u8]) -> usize
    requires { at + length (printed (unpadded field.now)) ≤ length out.old }
    ensures { TextPut out.old at (printed (unpadded field.now)) out.new result }
{
    let mut p = at;
    for x in field {
        if *x == 0 {
            return p;
        }
        p = put_byte(out, p, shown(*x));
    }
    p
}
