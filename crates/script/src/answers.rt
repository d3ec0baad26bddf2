// Answers as bytes: four numbers, then what is handed back.
ghost use Rattle.std.specs.Prelude.{◌≡◌, ◌+◌, ◌≤◌, ◌<◌, length, []};
ghost use Rattle.layout.specs.Bytes.{be64, splice};
ghost use Rattle.layout.specs.Reasons.{number_of};
ghost use Rattle.layout.specs.Answers.{lookup_answer, read_answer};
ghost use Rattle.script.specs.Script.{Fits, numbers, name_at, data_length, encoded};
ghost use Rattle.journal.specs.Run.{check_image, find_file, look_at, look_answer, found, filled, shown};
ghost use Rattle.script.specs.Walks.Scripts.{filled_at};

use layout::number::{get32, get64};
use layout::reading::Found;
use layout::refusal::Refusal;

// The four numbers of an answer.
#[derive(Drop)]
pub struct Numbers {
    pub first: u32,
    pub second: u32,
    pub third: u32,
    pub fourth: u32,
}

// Four zeros: an answer names the numbers that it has.
pub const NO_NUMBERS: Numbers = Numbers {
    first: 0,
    second: 0,
    third: 0,
    fourth: 0,
};

// Writes the numbers over the first 16 bytes.
pub fn put_numbers(part: &mut [u8], n: Numbers)
    requires { 16 ≤ length part.old }
    ensures { part.new ≡ splice part.old 0 (numbers n.first n.second n.third n.fourth) }
{
    volume::number::put32(part, 0, n.first);
    volume::number::put32(part, 4, n.second);
    volume::number::put32(part, 8, n.third);
    volume::number::put32(part, 12, n.fourth);
}

// The numbers of a refusal.
impl From<Refusal> for Numbers {
    ghost from_gives = { λ why n. (n.first ≡ number_of why) × (n.second ≡ 0) × (n.third ≡ 0) × (n.fourth ≡ 0) };

    fn from(why: Refusal) -> Numbers {
        Numbers {
            first: why.number(),
            ..NO_NUMBERS
        }
    }
}

// The numbers of a look-up's answer.
#[tactic(auto, unfolding(crate::specs::Script::encoded))]
fn found_numbers(answer: Result<Found, Refusal>) -> Numbers
    ensures { numbers result.first result.second result.third result.fourth ≡ encoded (found (lookup_answer answer)) }
{
    match answer {
        Ok(file) => Numbers {
            first: 0,
            second: file.slot,
            third: file.size,
            fourth: file.blocks,
        },
        Err(why) => why.into(),
    }
}

// Check, with its answer.
pub fn check(image: &[u8], part: &mut [u8])
    requires { length part.old ≡ 16 }
    ensures { part.new ≡ encoded (look_answer image.now check_image) }
{
    put_numbers(
        part,
        Numbers {
            first: layout::refusal::outcome(layout::check::check(image)),
            ..NO_NUMBERS
        },
    );
}

// Look up the name of the item at `at`, with its answer.
pub fn lookup(script: &[u8], at: usize, image: &[u8], part: &mut [u8])
    requires { (Fits script.now at) × (length part.old ≡ 16) }
    ensures { part.new ≡ encoded (look_answer image.now (find_file (name_at script.now at))) }
{
    let name = super::items::name_of(script, at);
    let f = layout::reading::lookup(image, name);
    put_numbers(part, found_numbers(f));
}

// The numbers of a read's answer.
fn filled_numbers(answer: Result<usize, Refusal>) -> Numbers
    requires { (read_answer answer []).count < 4294967296 }
    ensures { (result.first ≡ (read_answer answer []).number) × (result.second ≡ (read_answer answer []).count) × (result.third ≡ 0) × (result.fourth ≡ 0) }
{
    match answer {
        Ok(count) => Numbers {
            second: count as u32,
            ..NO_NUMBERS
        },
        Err(why) => why.into(),
    }
}

// Copies the data of the item at `at` into the buffer, and reads over it: the file's attributes, or the file.
fn read_into(script: &[u8], at: usize, image: &[u8], buffer: &mut [u8]) -> Result<usize, Refusal>
    requires { (Fits script.now at) × (length buffer.old ≡ data_length script.now at) }
    ensures { read_answer result buffer.new ≡ filled_at image.now script.now at }
{
    let before = super::items::data_of(script, at);
    layout::bytes::copy(before, buffer);
    let name = super::items::name_of(script, at);
    if script[at] == 13 {
        return layout::reading::read_attributes(image, name, buffer);
    }
    let offset = get64(script, at + 9) as usize;
    layout::reading::read(image, name, offset, buffer)
}

// Read what the item at `at` asks for, with its answer.
pub fn read(script: &[u8], at: usize, image: &[u8], part: &mut [u8])
    requires { (Fits script.now at) × (length part.old ≡ 16 + data_length script.now at) }
    ensures { part.new ≡ encoded (filled (filled_at image.now script.now at)) }
{
    let e = 16 + get32(script, at + 29) as usize;
    let f = read_into(script, at, image, &mut part[16..e]);
    put_numbers(part, filled_numbers(f));
}

// The answer of look in place: where the bytes begin in the image, their length, the bytes and zeros after them.
fn put_shown(bytes: &[u8], start: u32, part: &mut [u8])
    requires { (length bytes.now ≤ 512) × (length part.old ≡ 528) }
    ensures { part.new ≡ encoded (shown (record { start = start; size = length bytes.now }) bytes.now) }
{
    let size = bytes.len();
    put_numbers(
        part,
        Numbers {
            first: start,
            second: size as u32,
            ..NO_NUMBERS
        },
    );
    let e = 16 + size;
    layout::bytes::copy(bytes, &mut part[16..e]);
    layout::bytes::clear(&mut part[e..528]);
}

// Look in place as the item at `at` asks, with its answer.
pub fn look_in_place(script: &[u8], at: usize, image: &[u8], part: &mut [u8])
    requires { (Fits script.now at) × (length part.old ≡ 528) }
    ensures { part.new ≡ encoded (look_answer image.now (look_at (name_at script.now at) (be64 script.now (at + 9)))) }
{
    let index = get64(script, at + 9) as usize;
    let name = super::items::name_of(script, at);
    let x = layout::reading::extent_in_place(image, name, index);
    let a = x.start;
    let e = a + x.size;
    put_shown(&image[a..e], a as u32, part);
}
