// Byte strings, and the field of a name.
ghost use Rattle.std.specs.Prelude.{◌+◌, ◌*◌, ◌≤◌, true, ◌≡◌, length, get_or, take, replicate, eqb};
ghost use Rattle.layout.specs.Lists.{same};
ghost use Rattle.layout.specs.Bytes.{part, block, splice};
ghost use Rattle.layout.specs.Directory.{unpadded, good_name};
ghost use Rattle.layout.specs.Walks.Entries.{all_zero, field_ok};

use super::limits::{MAX_NAME, NAME_FIELD};
use super::number::word;

// The 512 bytes of block b.
pub fn block<'a>(image: &'a [u8], b: usize) -> &'a [u8]
    requires { 512 * b + 512 ≤ length image.now }
    ensures bytes { result.now ≡ block image.now b }
    ensures size { length result.now ≡ 512 }
{
    let a = 512 * b;
    &image[a..a + 512]
}

// Whether two byte strings are equal. This loop and the next two have no branch, so that they are compiled to steps of 16 bytes; a check of a directory
// of 254 names of one fingerprint takes 2.1 times as long with `a == b`.
pub fn equal(a: &[u8], b: &[u8]) -> bool
    ensures { result ≡ same a.now b.now }
{
    if a.len() != b.len() {
        return false;
    }
    let mut worst: u8 = 0;
    for i in 0..a.len() {
        worst = worst.max(u8::from(a[i] != b[i]));
    }
    worst == 0
}

// Whether every byte is 0.
pub fn all_zero(s: &[u8]) -> bool
    ensures { result ≡ all_zero s.now }
{
    let mut worst: u8 = 0;
    for x in s {
        worst = worst.max(*x);
    }
    worst == 0
}

// Whether a field of 80 bytes holds a good name and zeros after it: as many bytes are not 0 as stand up to the last such, and none is `/`. A `for` is
// compiled to steps of 64 and 16 bytes here, and the check of 250 files takes 14 % longer with it.
pub fn name_ok(field: &[u8]) -> bool
    requires { length field.now ≡ 80 }
    ensures { result ≡ field_ok field.now }
{
    let mut count = 0;
    let mut last: u8 = 0;
    let mut clean = 0;
    let mut end = 0;
    while end < NAME_FIELD {
        let x = field[end];
        end += 1;
        count += u8::from(x != 0);
        last = last.max(if x == 0 { 0 } else { end as u8 });
        clean += u8::from(x != b'/');
    }
    count == last && clean == 80 && 0 < count
}

// Whether a name has 1 to 80 bytes, none of them 0 or `/`.
pub fn good_name(name: &[u8]) -> bool
    ensures { result ≡ good_name name.now }
{
    !name.is_empty() && name.len() <= MAX_NAME && name.iter().all(|x| *x != 0 && *x != b'/')
}

// Whether the bytes of a name stand at the start of a field. It looks from both ends, four bytes at a time, since names of one kind differ near one of them.
fn starts_alike(field: &[u8], name: &[u8]) -> bool
    requires { (length name.now ≤ length field.now) × (4 ≤ length name.now) }
    ensures { result ≡ same (take (length name.now) field.now) name.now }
{
    let end = name.len();
    for i in 0..end.div_ceil(8) {
        let at = end - 4 * i - 4;
        if word(field, at) != word(name, at) || word(field, 4 * i) != word(name, 4 * i) {
            return false;
        }
    }
    true
}

// Whether a field begins with a name.
fn begins(field: &[u8], name: &[u8]) -> bool
    requires { length name.now ≤ length field.now }
    ensures { result ≡ same (take (length name.now) field.now) name.now }
{
    if name.len() < 4 {
        equal(&field[..name.len()], name)
    } else {
        starts_alike(field, name)
    }
}

// Whether no byte of a name stands at i: there is a zero, or the field ends before it.
fn ends_at(field: &[u8], i: usize) -> bool
    ensures { result ≡ eqb (get_or field.now i 0) 0 }
{
    field.len() <= i || field[i] == 0
}

// Whether a field of 80 bytes holds a good name: no byte of a name follows, and it begins with it.
pub fn holds_name(field: &[u8], name: &[u8]) -> bool
    requires { (length field.now ≡ 80) × (good_name name.now ≡ true) }
    ensures { result ≡ same (unpadded field.now) name.now }
{
    ends_at(field, name.len()) && begins(field, name)
}

// Sets every byte to 0.
pub fn clear(s: &mut [u8])
    ensures { s.new ≡ replicate (length s.old) 0 }
{
    s.fill(0);
}

// Copies all of src over dst, which is as long. It is a loop and not `copy_from_slice`, which is compiled to a call of `memmove`: the archive needs
// `memset` and `memcpy` alone.
pub fn copy(src: &[u8], dst: &mut [u8])
    requires { length src.now ≡ length dst.old }
    ensures { dst.new ≡ src.now }
{
    for i in 0..src.len() {
        dst[i] = src[i];
    }
}

// Copies the `count` bytes from `from` of src over those at `at` of dst.
pub fn copy_part(src: &[u8], from: usize, dst: &mut [u8], at: usize, count: usize)
    requires { (from + count ≤ length src.now) × (at + count ≤ length dst.old) }
    ensures { dst.new ≡ splice dst.old at (part src.now from count) }
{
    copy(&src[from..from + count], &mut dst[at..at + count]);
}
