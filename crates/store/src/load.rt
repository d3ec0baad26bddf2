// A file of the store read from an image.
ghost use Rattle.std.specs.Prelude.{◌+◌, ◌*◌, ◌≤◌, ◌<◌, ◌≡◌, length};
ghost use Rattle.layout.specs.Bytes.{part, block};
ghost use Rattle.layout.specs.Geometry.{block_count};
ghost use Rattle.layout.specs.Lists.{joined};
ghost use Rattle.layout.specs.Table.{next, chain};
ghost use Rattle.layout.specs.Walks.Entries.{all_zero};
ghost use Rattle.layout.specs.Walks.Shapes.{ChainBelow};
ghost use Rattle.store.specs.Settings.{revisions};
ghost use Rattle.store.specs.Walks.Loads.{Loaded};
ghost use Rattle.store.specs.Walks.Forms.{max_form, bytes_of};

use super::form::{Form, MAX_FORM};
use layout::file::File;

// Whether the m bytes from o on of block b are all 0.
fn zero_in_block(image: &[u8], b: usize, o: usize, m: usize) -> bool
    requires { (512 * b + 512 ≤ length image.now) × (o + m ≤ 512) }
    ensures { result ≡ all_zero (part image.now (512 * b + o) m) }
{
    let block = layout::bytes::block(image, b);
    layout::bytes::all_zero(&block[o..o + m])
}

// Whether the `count` bytes from `offset` on of the chain of k blocks from `first` on are all 0. Each block names the next, so no `for` goes over them; `left`
// counts those that are left, by which the loop ends.
fn zero_along(image: &[u8], n: usize, k: usize, first: usize, offset: usize, count: usize) -> bool
    requires { (ChainBelow image.now n first k) × (offset + count ≤ 512 * k) }
    ensures { result ≡ all_zero (part (joined (block image.now) (chain (next image.now) first k)) offset count) }
{
    let mut b = first;
    let mut left = k;
    let mut o = offset;
    let mut rest = count;
    while 0 < rest {
        if 512 <= o {
            o -= 512;
            b = layout::table::entry(image, b);
            left -= 1;
            continue;
        }
        let m = (512 - o).min(rest);
        if !zero_in_block(image, b, o, m) {
            return false;
        }
        rest -= m;
        o = 0;
        b = layout::table::entry(image, b);
        left -= 1;
    }
    true
}

// Reads the first bytes of a file into the room, and tells its form if it is of the form, with the zeros to the file's end.
pub fn load(image: &[u8], found: File, room: &mut [u8]) -> Option<Form>
    requires { (ChainBelow image.now (block_count image.now) found.first found.blocks) × (found.size ≤ 512 * found.blocks) × (length room.old ≡ max_form) }
    ensures { Loaded (revisions (bytes_of image.now found.first found.size found.blocks)) room.new result }
{
    let File {
        first,
        size,
        blocks,
        ..
    } = found;
    let n = image.len() / 512;
    let m = MAX_FORM.min(size);
    layout::content::read_chain(image, n, blocks, first, 0, &mut room[..m]);
    let form = super::form::parse(room, size)?;
    if !zero_along(image, n, blocks, first, form.used, size - form.used) {
        return None;
    }
    Some(form)
}
