// The listing of an image.
ghost use Rattle.std.specs.Prelude.{◌≡◌, ◌++◌, ◌+◌, ◌-◌, ◌*◌, ◌≤◌, ◌<◌, leb, length};
ghost use Rattle.layout.specs.Bytes.{splice};
ghost use Rattle.layout.specs.Limits.{max_listed};
ghost use Rattle.layout.specs.Lists.{joined};
ghost use Rattle.layout.specs.Refusals.{require};
ghost use Rattle.layout.specs.Reasons.{outcome};
ghost use Rattle.layout.specs.Table.{next, chain};
ghost use Rattle.layout.specs.Directory.{files, root};
ghost use Rattle.layout.specs.Check.{check};
ghost use Rattle.layout.specs.Listing.{entry_line, file_line, count_line, refused_line, listing};
ghost use Rattle.lister.specs.Text.{TextPut, max_listing, slot_line, slot_lines};
ghost use Rattle.layout.specs.Walks.Shapes.{DirectoryAt};
ghost use Rattle.layout.specs.Walks.Slots.{entry_at};

use super::text;
use layout::directory::number_at;
use layout::refusal::Refusal;

// The most bytes of an image that is listed.
pub const MAX_LISTED: usize = 65536;

// The most bytes of a listing: a line of counts, and a line for each of 254 slots.
pub const MAX_LISTING: usize = 50 + 114 * 254;

// The line of the file in slot k, which is in block b.
fn entry_line(image: &[u8], b: usize, k: usize, out: &mut [u8], at: usize) -> usize
    requires { (512 * b + 512 ≤ length image.now) × (at + length (entry_line image.now (entry_at b k) k) ≤ length out.old) }
    ensures { TextPut out.old at (entry_line image.now (entry_at b k) k) out.new result }
{
    let size = number_at(image, b, k, 8);
    let blocks = number_at(image, b, k, 12);
    let name = layout::directory::field_at(image, b, k);
    let p = text::put_decimal(out, at, k);
    let q = text::put_labelled(out, p, b" ", size);
    let r = text::put_labelled(out, q, b" ", blocks);
    let s = text::put_byte(out, r, b' ');
    let t = text::put_name(out, s, name);
    text::put_byte(out, t, b'\n')
}

// The line of slot k, which is in block b, if it is a file.
fn slot_line(image: &[u8], b: usize, k: usize, out: &mut [u8], at: usize) -> usize
    requires { (512 * b + 512 ≤ length image.now) × (at + length (slot_line image.now (entry_at b k) k) ≤ length out.old) }
    ensures { TextPut out.old at (slot_line image.now (entry_at b k) k) out.new result }
{
    if !layout::directory::is_file(layout::directory::type_at(image, b, k)) {
        return at;
    }
    entry_line(image, b, k, out, at)
}

// The lines of the files of the root, whose d blocks start at `first`.
fn file_lines(image: &[u8], n: usize, first: usize, d: usize, out: &mut [u8], at: usize) -> usize
    requires { (DirectoryAt image.now n first d) × (chain (next image.now) first d ≡ root image.now) × (at + length (slot_lines image.now 1 (4 * d - 2)) ≤ length out.old) }
    ensures { TextPut out.old at (slot_lines image.now 1 (4 * d - 2)) out.new result }
{
    let mut p = at;
    let mut b = first;
    for k in 1..4 * d - 1 {
        p = slot_line(image, b, k, out, p);
        b = layout::directory::following(image, b, k + 1);
    }
    p
}

// "blocks 16 used 6 free 10"
fn count_line(image: &[u8], out: &mut [u8]) -> usize
    requires { (512 ≤ length image.now) × (length (count_line image.now) ≤ length out.old) }
    ensures { TextPut out.old 0 (count_line image.now) out.new result }
{
    let n = image.len() / 512;
    let used = layout::number::header_number(image, 20);
    let free = layout::number::header_number(image, 24);
    let p = text::put_labelled(out, 0, b"blocks ", n);
    let q = text::put_labelled(out, p, b" used ", used);
    let r = text::put_labelled(out, q, b" free ", free);
    text::put_byte(out, r, b'\n')
}

// "refused 5"
fn refused_line(number: usize, out: &mut [u8]) -> usize
    requires { length (refused_line number) ≤ length out.old }
    ensures { TextPut out.old 0 (refused_line number) out.new result }
{
    let p = text::put_labelled(out, 0, b"refused ", number);
    text::put_byte(out, p, b'\n')
}

// The list of a sound image.
fn list(image: &[u8], out: &mut [u8]) -> usize
    requires { (check image.now ≡ 0) × (length (count_line image.now ++ joined (file_line image.now) (files image.now (root image.now))) ≤ length out.old) }
    ensures { TextPut out.old 0 (count_line image.now ++ joined (file_line image.now) (files image.now (root image.now))) out.new result }
{
    let n = image.len() / 512;
    let first = layout::geometry::root_block(n);
    let d = number_at(image, first, 0, 12);
    let p = count_line(image, out);
    file_lines(image, n, first, d, out, p)
}

// The refusal, if the image is not listed.
fn refusal(image: &[u8]) -> Result<(), Refusal>
    ensures { outcome result ≡ require (leb (length image.now) max_listed) 1 (check image.now) }
{
    if MAX_LISTED < image.len() {
        return Err(Refusal::BadLength);
    }
    layout::check::check(image)
}

// Writes the listing of an image at the start of a buffer, and gives its length.
pub fn render(image: &[u8], out: &mut [u8]) -> usize
    requires { max_listing ≤ length out.old }
    ensures { (out.new ≡ splice out.old 0 (listing image.now)) × (result ≡ length (listing image.now)) }
{
    match refusal(image) {
        Ok(()) => list(image, out),
        Err(why) => refused_line(why.number() as usize, out),
    }
}
