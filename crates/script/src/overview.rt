// The answers of the looks at the volume and at a directory's entries: numbers, then the buffer.
ghost use Rattle.std.specs.Prelude.{[], ◌≡◌, ◌+◌, ◌/◌, ◌%◌, ◌≤◌, length};
ghost use Rattle.layout.specs.Bytes.{be64, splice};
ghost use Rattle.layout.specs.Looks.{volume_info, next_entry};
ghost use Rattle.layout.specs.Answers.{volume_answer, entry_answer};
ghost use Rattle.journal.specs.Run.{look, look_answer, described, entered};
ghost use Rattle.script.specs.Script.{Fits, name_at, data_at, data_length, numbers, volume_head, entry_head, show_at, encoded, answer_size};

use super::answers::{NO_NUMBERS, Numbers};

// Writes four numbers over the 16 bytes at `at`.
fn put_group(head: &mut [u8], at: usize, n: Numbers)
    requires { at + 16 ≤ length head.old }
    ensures { head.new ≡ splice head.old at (numbers n.first n.second n.third n.fourth) }
{
    super::answers::put_numbers(&mut head[at..at + 16], n);
}

// Writes the volume's numbers.
fn put_volume(head: &mut [u8], v: layout::overview::VolumeInfo)
    requires { length head.old ≡ 32 }
    ensures { head.new ≡ volume_head (volume_answer v []) }
{
    let first = Numbers {
        first: v.number,
        second: v.blocks,
        third: v.used,
        fourth: v.free,
    };
    let second = Numbers {
        first: v.root_blocks,
        ..NO_NUMBERS
    };
    put_group(head, 0, first);
    put_group(head, 16, second);
}

// The high and the low half of a time.
fn high(time: u64) -> u32
    ensures { result ≡ time / 0x100000000 }
{
    (time / 0x1_0000_0000) as u32
}

fn low(time: u64) -> u32
    ensures { result ≡ time % 0x100000000 }
{
    (time % 0x1_0000_0000) as u32
}

// The four groups of an entry's numbers.
fn places(e: layout::overview::EntryInfo) -> Numbers
    ensures { (result.first ≡ e.number) × (result.second ≡ e.slot) × (result.third ≡ e.size) × (result.fourth ≡ e.blocks) }
{
    Numbers {
        first: e.number,
        second: e.slot,
        third: e.size,
        fourth: e.blocks,
    }
}

fn chains(e: layout::overview::EntryInfo) -> Numbers
    ensures { (result.first ≡ e.first) × (result.second ≡ e.attribute_block) × (result.third ≡ e.attribute_size) × (result.fourth ≡ e.flags) }
{
    Numbers {
        first: e.first,
        second: e.attribute_block,
        third: e.attribute_size,
        fourth: e.flags,
    }
}

fn times(e: layout::overview::EntryInfo) -> Numbers
    ensures { (result.first ≡ e.created / 0x100000000) × (result.second ≡ e.created % 0x100000000) × (result.third ≡ e.modified / 0x100000000) × (result.fourth ≡ e.modified % 0x100000000) }
{
    Numbers {
        first: high(e.created),
        second: low(e.created),
        third: high(e.modified),
        fourth: low(e.modified),
    }
}

fn owners(e: layout::overview::EntryInfo) -> Numbers
    ensures { (result.first ≡ e.ty) × (result.second ≡ e.user) × (result.third ≡ e.group) × (result.fourth ≡ e.permissions) }
{
    Numbers {
        first: u32::from(e.ty),
        second: u32::from(e.user),
        third: u32::from(e.group),
        fourth: u32::from(e.permissions),
    }
}

// Writes an entry's numbers.
fn put_entry(head: &mut [u8], e: layout::overview::EntryInfo)
    requires { length head.old ≡ 64 }
    ensures { head.new ≡ entry_head (entry_answer e []) }
{
    put_group(head, 0, places(e));
    put_group(head, 16, chains(e));
    put_group(head, 32, times(e));
    put_group(head, 48, owners(e));
}

// Copies the data of the item at `at` into the buffer, and looks at the volume.
fn volume_into(
    script: &[u8],
    at: usize,
    image: &[u8],
    buffer: &mut [u8],
) -> layout::overview::VolumeInfo
    requires { (Fits script.now at) × (length buffer.old ≡ data_length script.now at) }
    ensures { volume_answer result buffer.new ≡ volume_info image.now (data_at script.now at) }
{
    layout::bytes::copy(super::items::data_of(script, at), buffer);
    layout::overview::info(image, buffer)
}

// The same, and looks at the entry that the item asks for.
fn entry_into(
    script: &[u8],
    at: usize,
    image: &[u8],
    buffer: &mut [u8],
) -> layout::overview::EntryInfo
    requires { (Fits script.now at) × (length buffer.old ≡ data_length script.now at) }
    ensures { entry_answer result buffer.new ≡ next_entry image.now (name_at script.now at) (be64 script.now (at + 9)) (data_at script.now at) }
{
    layout::bytes::copy(super::items::data_of(script, at), buffer);
    let name = super::items::name_of(script, at);
    let start = layout::number::get64(script, at + 9) as usize;
    layout::overview::next_entry(image, name, start, buffer)
}

// The volume's numbers, with their answer.
fn info(script: &[u8], at: usize, image: &[u8], part: &mut [u8])
    requires { (Fits script.now at) × (length part.old ≡ 32 + data_length script.now at) }
    ensures { part.new ≡ encoded (described (volume_info image.now (data_at script.now at))) }
{
    let e = part.len();
    let v = volume_into(script, at, image, &mut part[32..e]);
    put_volume(&mut part[0..32], v);
}

// An entry, with its answer.
fn entry(script: &[u8], at: usize, image: &[u8], part: &mut [u8])
    requires { (Fits script.now at) × (length part.old ≡ 64 + data_length script.now at) }
    ensures { part.new ≡ encoded (entered (next_entry image.now (name_at script.now at) (be64 script.now (at + 9)) (data_at script.now at))) }
{
    let e = part.len();
    let v = entry_into(script, at, image, &mut part[64..e]);
    put_entry(&mut part[0..64], v);
}

// Make the look of the item at `at`, whose op is 16 or more.
pub fn show(script: &[u8], at: usize, image: &[u8], part: &mut [u8])
    requires { (Fits script.now at) × (length part.old ≡ answer_size (look (show_at script.now at))) }
    ensures { part.new ≡ encoded (look_answer image.now (show_at script.now at)) }
{
    if script[at] == 16 {
        info(script, at, image, part);
        return;
    }
    if script[at] == 17 {
        entry(script, at, image, part);
        return;
    }
    super::settings::get(script, at, image, part);
}
