// Notes on the chain table, one for each table block, and the search for a free block by them. A table block's work is given its 512 bytes.
ghost use Rattle.std.specs.Prelude.{◌≡◌, ◌*◌, ◌≤◌, ◌<◌, length};
ghost use Rattle.layout.specs.Bytes.{zeros};
ghost use Rattle.layout.specs.Geometry.{table_blocks};
ghost use Rattle.layout.specs.Table.{next};
ghost use Rattle.layout.specs.Walks.Chains.{entry_in};
ghost use Rattle.layout.specs.Walks.Shapes.{Shape};
ghost use Rattle.volume.specs.Search.{Noted, Exact, Renoted, searched};

use layout::limits::MAX_BLOCKS;

// One for each block of the largest table.
const NOTES: usize = MAX_BLOCKS / 128;

// The note of a table block of which k entries are below n: 0 if none of these is 0, else 1.
fn note_of(block: &[u8], k: usize) -> u8
    requires { (4 * k ≤ length block.now) × (k ≤ 128) }
    ensures { Noted (entry_in block.now) k 0 result }
{
    u8::from((layout::table::used_in(block, 0, k) as usize) < k)
}

// Makes note i anew.
pub fn renote(image: &[u8], n: usize, i: usize, notes: &mut [u8])
    requires { (Shape image.now n) × (i < table_blocks n) × (i < length notes.old) }
    ensures { Renoted (next image.now) n i notes.old notes.new }
{
    let rest = n - 128 * i;
    notes[i] = note_of(layout::bytes::block(image, 1 + i), rest.min(128));
}

// Makes every note, where all were 0.
fn note_all(image: &[u8], n: usize, notes: &mut [u8])
    requires { (Shape image.now n) × (notes.old ≡ zeros (length notes.old)) × (n ≤ 128 * length notes.old) }
    ensures { Exact (next image.now) n notes.new }
{
    for i in 0..layout::geometry::table_blocks(n) {
        renote(image, n, i, notes);
    }
}

// The notes, made afresh: one pass over the table.
pub fn take_notes(image: &[u8], n: usize) -> [u8; NOTES]
    requires { Shape image.now n }
    ensures { Exact (next image.now) n result }
{
    let mut notes = [0; NOTES];
    note_all(image, n, &mut notes);
    notes
}

// The lowest free block from `from` on; n if there is none. No entry of a table block that is noted as full is read.
pub fn search(image: &[u8], n: usize, notes: &[u8], from: usize) -> usize
    requires { (Shape image.now n) × (n ≤ 128 * length notes.now) }
    ensures { result ≡ searched notes.now (next image.now) from n }
{
    // A `while`, since a turn goes on by one entry or by the rest of a table block.
    let mut b = from;
    while b < n {
        let i = b / 128;
        if notes[i] == 0 {
            b = 128 * i + 128;
            continue;
        }
        if layout::table::entry(image, b) == 0 {
            return b;
        }
        b += 1;
    }
    n
}
