// Scripts of calls: the fields of an item, the form of a script, and the length of its answers.
ghost use Rattle.std.specs.Prelude.{◌≡◌, true, false, ◌+◌, ◌≤◌, ◌<◌, length, leb};
ghost use Rattle.layout.specs.Lists.{every};
ghost use Rattle.script.specs.Script.{Fits, op_at, shows, name_at, data_at, item_size, item_call, item_ok, items_from, calls_of, item_room, answers_size};
ghost use Rattle.script.specs.Walks.Scripts.{fills, head_size};

use layout::number::get32;

// The length of the item at `at`, whose header is there.
pub fn item_size(script: &[u8], at: usize) -> usize
    requires { at + 33 ≤ length script.now }
    ensures { result ≡ item_size script.now at }
{
    let name = get32(script, at + 25) as usize;
    let bytes = get32(script, at + 29) as usize;
    33 + name + bytes
}

// The name of the item at `at`.
pub fn name_of(script: &[u8], at: usize) -> &[u8]
    requires { Fits script.now at }
    ensures { result.now ≡ name_at script.now at }
{
    let a = at + 33;
    let e = a + get32(script, at + 25) as usize;
    &script[a..e]
}

// The data of the item at `at`.
pub fn data_of(script: &[u8], at: usize) -> &[u8]
    requires { Fits script.now at }
    ensures { result.now ≡ data_at script.now at }
{
    let a = at + 33 + get32(script, at + 25) as usize;
    let e = a + get32(script, at + 29) as usize;
    &script[a..e]
}

// Whether an item with a known op stands at `at`, and is not cut off.
fn item_ok(script: &[u8], at: usize) -> bool
    requires { at < length script.now }
    ensures { result ≡ item_ok script.now at }
{
    let left = script.len() - at;
    if left < 33 || left < item_size(script, at) {
        return false;
    }
    matches!(script[at], 1..=28)
}

// Whether an op fills a buffer: read, and read attributes.
pub fn fills(op: u8) -> bool
    ensures { result ≡ fills op }
{
    matches!(op, 3 | 13)
}

// Whether an op is a look from 16 on: all to 23 but the two puts.
pub fn shows(op: u8) -> bool
    ensures { result ≡ shows op }
{
    matches!(op, 16 | 17 | 19 | 20 | 22 | 23)
}

// The length of the answer to the item at `at`, which is no look from op 16 on.
fn plain_size(script: &[u8], at: usize) -> usize
    requires { (Fits script.now at) × (shows (op_at script.now at) ≡ false) }
    ensures { result ≡ item_room (item_call script.now at) }
{
    if fills(script[at]) {
        return 16 + get32(script, at + 29) as usize;
    }
    if script[at] == 4 {
        return 528;
    }
    16
}

// The length of the numbers in the answer of a look from op 16 on.
fn head_size(op: u8) -> usize
    ensures { result ≡ head_size op }
{
    match op {
        16 => 32,
        17 => 64,
        _ => 16,
    }
}

// The length of the answer to the item at `at`.
pub fn answer_size(script: &[u8], at: usize) -> usize
    requires { Fits script.now at }
    ensures { result ≡ item_room (item_call script.now at) }
{
    if shows(script[at]) {
        return head_size(script[at]) + get32(script, at + 29) as usize;
    }
    plain_size(script, at)
}

// Whether items fill a script exactly.
pub fn well_formed(script: &[u8]) -> bool
    ensures { result ≡ every (item_ok script.now) (items_from script.now 0) }
{
    let mut at = 0;
    while at < script.len() {
        if !item_ok(script, at) {
            return false;
        }
        at += item_size(script, at);
    }
    true
}

// Whether the answers to a script have room in `room` bytes.
pub fn answers_fit(script: &[u8], room: usize) -> bool
    requires { every (item_ok script.now) (items_from script.now 0) ≡ true }
    ensures { result ≡ leb (answers_size (calls_of script.now)) room }
{
    let mut at = 0;
    let mut left = room;
    while at < script.len() {
        let size = answer_size(script, at);
        if left < size {
            return false;
        }
        left -= size;
        at += item_size(script, at);
    }
    true
}
