// Running a script: each item's call is made, and its answer written.
ghost use Rattle.std.specs.Prelude.{◌≡◌, List, ℕ, ◌+◌, ◌≤◌, ◌<◌, length, get_or, true, false, ◌≢◌};
ghost use Rattle.layout.specs.Lists.{every, joined};
ghost use Rattle.layout.specs.Bytes.{be32, splice};
ghost use Rattle.journal.specs.Run.{change, undo, answer, state};
ghost use Rattle.journal.specs.Kinds.{run_of, answers_of};
ghost use Rattle.journal.specs.Answers.{changed_answer, undone_answer};
ghost use Rattle.script.specs.Answers.{ran_status};
ghost use Rattle.store.specs.Asked.{asked};
ghost use Rattle.store.specs.Change.{create, create_directory};
ghost use Rattle.script.specs.Script.{numbers, Fits, name_at, data_at, op_at, shows, put_at, renew_at, change_at, call_at, item_call, encoded, encoded_item, item_ok, items_from, calls_of, answers_size, leaves, outcome, replay_outcome, JustStarted};
ghost use Rattle.script.specs.Walks.Scripts.{looks, Item, Whole, CallDone, ItemDone};

use super::answers::{NO_NUMBERS, Numbers};
use super::items::{data_of, name_of};
use journal::calls::Changed;
use layout::number::get64;
use layout::refusal::Refusal;
use store::change::Change;
use volume::change::Change as VolumeChange;
use volume::create::Given;

// The numbers of a change's answer.
#[tactic(auto, unfolding(crate::specs::Script::encoded))]
fn changed_numbers(answer: Result<Changed, Refusal>) -> Numbers
    ensures { numbers result.first result.second result.third result.fourth ≡ encoded (changed_answer answer) }
{
    match answer {
        Ok(changed) => Numbers {
            second: changed.slot,
            third: changed.size,
            ..NO_NUMBERS
        },
        Err(why) => why.into(),
    }
}

// The numbers of undo's answer.
#[tactic(auto, unfolding(crate::specs::Script::encoded))]
fn undone_numbers(answer: Result<u32, Refusal>) -> Numbers
    ensures { numbers result.first result.second result.third result.fourth ≡ encoded (undone_answer answer) }
{
    match answer {
        Ok(size) => Numbers {
            third: size,
            ..NO_NUMBERS
        },
        Err(why) => why.into(),
    }
}

// What the item at `at` gives for the file or the directory that it asks to create.
fn given_of(script: &[u8], at: usize, time: u64) -> Given
    requires { Fits script.now at }
    ensures bytes { (result.kind ≡ get_or script.now (at + 1) 0) × (result.user ≡ get_or script.now (at + 2) 0) × (result.group ≡ get_or script.now (at + 3) 0) × (result.permissions ≡ get_or script.now (at + 4) 0) }
    ensures numbers { (result.flags ≡ be32 script.now (at + 5)) × (result.time ≡ time) }
{
    Given {
        kind: script[at + 1],
        user: script[at + 2],
        group: script[at + 3],
        permissions: script[at + 4],
        flags: layout::number::get32(script, at + 5),
        time,
    }
}

// The file that the item at `at` asks to create.
fn file_of(script: &[u8], at: usize, time: u64) -> Change
    requires { Fits script.now at }
    ensures { asked result (name_at script.now at) (data_at script.now at)
        ≡ create (name_at script.now at) (get_or script.now (at + 1) 0) (get_or script.now (at + 2) 0) (get_or script.now (at + 3) 0) (get_or script.now (at + 4) 0) (be32 script.now (at + 5)) time }
{
    Change::Volume(VolumeChange::Create(given_of(script, at, time)))
}

// The directory that the item at `at` asks to create.
fn directory_of(script: &[u8], at: usize, time: u64) -> Change
    requires { Fits script.now at }
    ensures { asked result (name_at script.now at) (data_at script.now at)
        ≡ create_directory (name_at script.now at) (get_or script.now (at + 1) 0) (get_or script.now (at + 2) 0) (get_or script.now (at + 3) 0) (get_or script.now (at + 4) 0) (be32 script.now (at + 5)) time (be32 script.now (at + 13)) }
{
    Change::Volume(VolumeChange::CreateDirectory {
        given: given_of(script, at, time),
        blocks: layout::number::get32(script, at + 13),
    })
}

// The shorten, replace or move that the item at `at` asks for; else the delete.
fn renew_of(script: &[u8], at: usize) -> Change
    requires { Fits script.now at }
    ensures { asked result (name_at script.now at) (data_at script.now at) ≡ renew_at script.now at }
{
    let op = script[at];
    let time = get64(script, at + 17);
    if op == 24 {
        return Change::Volume(VolumeChange::Shorten {
            size: get64(script, at + 9) as usize,
            time,
        });
    }
    if op == 25 {
        return Change::Volume(VolumeChange::Replace { time });
    }
    if op == 26 {
        return Change::Volume(VolumeChange::Move);
    }
    Change::Volume(VolumeChange::Delete)
}

// The change that the item at `at` asks for, which is no put in a directory.
fn change_of(script: &[u8], at: usize) -> Change
    requires { (Fits script.now at) × (op_at script.now at ≢ 21) }
    ensures { asked result (name_at script.now at) (data_at script.now at) ≡ change_at script.now at }
{
    let op = script[at];
    let time = get64(script, at + 17);
    if op == 5 {
        return file_of(script, at, time);
    }
    if op == 6 {
        return Change::Volume(VolumeChange::Write {
            offset: get64(script, at + 9) as usize,
            time,
        });
    }
    if op == 9 {
        return directory_of(script, at, time);
    }
    if op == 10 {
        return Change::Volume(VolumeChange::DeleteDirectory);
    }
    if op == 11 {
        return Change::Volume(VolumeChange::SetAttributes);
    }
    if op == 12 {
        return Change::Volume(VolumeChange::ClearAttributes);
    }
    if op == 14 {
        return Change::Volume(VolumeChange::ClearFlags);
    }
    if op == 18 {
        return Change::Put { time };
    }
    renew_of(script, at)
}

// Undo, with its answer.
fn undo(image: &mut [u8], journal: &mut [u8], part: &mut [u8])
    requires { length part.old ≡ 16 }
    ensures { CallDone (state image.old journal.old) undo image.new journal.new part.new }
{
    let u = journal::calls::undo(image, journal);
    super::answers::put_numbers(part, undone_numbers(u));
}

// Make the call that only looks of the item at `at`; the journal does not matter.
fn look(script: &[u8], at: usize, image: &[u8], part: &mut [u8])
    requires { (Item script.now at part.old) × (1 ≤ op_at script.now at) × (looks (op_at script.now at) ≡ true) }
    ensures { (journal : List ℕ) → part.new ≡ encoded (answer (state image.now journal) (call_at script.now at)) }
{
    if super::items::fills(script[at]) {
        super::answers::read(script, at, image, part);
        return;
    }
    if script[at] == 1 {
        super::answers::check(image, part);
        return;
    }
    if script[at] == 2 {
        super::answers::lookup(script, at, image, part);
        return;
    }
    super::answers::look_in_place(script, at, image, part);
}

// Put settings in a directory, with the answer.
fn put_in(script: &[u8], at: usize, image: &mut [u8], journal: &mut [u8], part: &mut [u8])
    requires { (Fits script.now at) × (length part.old ≡ 16) }
    ensures { CallDone (state image.old journal.old) (change (put_at script.now at)) image.new journal.new part.new }
{
    let directory = super::settings::directory_of(script, at);
    let serial = super::settings::serial_of(script, at);
    let bytes = data_of(script, at);
    let time = get64(script, at + 17);
    let c = journal::calls::put_settings_in(image, journal, directory, serial, bytes, time);
    super::answers::put_numbers(part, changed_numbers(c));
}

// Make the change or undo of the item at `at`.
fn change(script: &[u8], at: usize, image: &mut [u8], journal: &mut [u8], part: &mut [u8])
    requires { (Item script.now at part.old) × (looks (op_at script.now at) ≡ false) }
    ensures { CallDone (state image.old journal.old) (call_at script.now at) image.new journal.new part.new }
{
    if script[at] == 8 {
        undo(image, journal, part);
        return;
    }
    if script[at] == 21 {
        put_in(script, at, image, journal, part);
        return;
    }
    let what = change_of(script, at);
    let name = name_of(script, at);
    let bytes = data_of(script, at);
    let c = journal::calls::change(image, journal, what, name, bytes);
    super::answers::put_numbers(part, changed_numbers(c));
}

// Whether an op is a call that only looks.
fn is_look(op: u8) -> bool
    ensures { result ≡ looks op }
{
    op <= 4 || op == 13
}

// Make the call of the item at `at`, which is no list and no call on marks.
fn make_call(script: &[u8], at: usize, image: &mut [u8], journal: &mut [u8], part: &mut [u8])
    requires { (Item script.now at part.old) × (1 ≤ op_at script.now at) }
    ensures { CallDone (state image.old journal.old) (call_at script.now at) image.new journal.new part.new }
{
    if is_look(script[at]) {
        look(script, at, image, part);
        return;
    }
    change(script, at, image, journal, part);
}

// Write the list of the item at `at`.
fn make_list(script: &[u8], at: usize, image: &mut [u8], journal: &mut [u8], part: &mut [u8])
    requires { (Fits script.now at) × (op_at script.now at ≡ 15) × (length part.old ≡ 16) }
    ensures { ItemDone (state image.old journal.old) (item_call script.now at) image.new journal.new part.new }
{
    let list = data_of(script, at);
    let w = write_list::call::write_list(image, journal, list);
    super::answers::put_numbers(
        part,
        Numbers {
            first: layout::refusal::outcome(w.answer),
            second: w.done,
            ..NO_NUMBERS
        },
    );
}

// Make the call of the item at `at`, a list and a call on marks too, which is no look from op 16 on.
fn make_plain(script: &[u8], at: usize, image: &mut [u8], journal: &mut [u8], part: &mut [u8])
    requires { (Whole script.now at part.old) × (1 ≤ op_at script.now at) × (shows (op_at script.now at) ≡ false) }
    ensures { ItemDone (state image.old journal.old) (item_call script.now at) image.new journal.new part.new }
{
    if script[at] == 15 {
        make_list(script, at, image, journal, part);
        return;
    }
    if 27 <= script[at] {
        super::marks::make(script, at, image, journal, part);
        return;
    }
    make_call(script, at, image, journal, part);
}

// Make the call or write the list of the item at `at`.
fn make(script: &[u8], at: usize, image: &mut [u8], journal: &mut [u8], part: &mut [u8])
    requires { (Whole script.now at part.old) × (1 ≤ op_at script.now at) }
    ensures { ItemDone (state image.old journal.old) (item_call script.now at) image.new journal.new part.new }
{
    if super::items::shows(script[at]) {
        super::overview::show(script, at, image, part);
        return;
    }
    make_plain(script, at, image, journal, part);
}

// Makes the calls of a script of the right form, whose answers have room.
fn execute(script: &[u8], image: &mut [u8], journal: &mut [u8], out: &mut [u8])
    requires { (every (item_ok script.now) (items_from script.now 0) ≡ true) × (answers_size (calls_of script.now) ≤ length out.old) }
    ensures { (state image.new journal.new ≡ run_of (state image.old journal.old) (calls_of script.now)) × (out.new ≡ splice out.old 0 (joined encoded_item (answers_of (state image.old journal.old) (calls_of script.now)))) }
{
    let mut at = 0;
    let mut q = 0;
    while at < script.len() {
        let size = super::items::item_size(script, at);
        let r = q + super::items::answer_size(script, at);
        make(script, at, image, journal, &mut out[q..r]);
        at += size;
        q = r;
    }
}

// Why a script is not run: it is not of the right form, or `out` is too short for the answers.
#[derive(Clone, Copy, Debug, PartialEq, Eq, Drop)]
pub enum NotRun {
    Malformed,
    NoRoom,
}

// Runs a script: makes its calls in order and writes their answers to `out`. A script that is not run changes nothing.
pub fn run(
    script: &[u8],
    image: &mut [u8],
    journal: &mut [u8],
    out: &mut [u8],
) -> Result<(), NotRun>
    ensures outcome { leaves (ran_status result) image.new journal.new out.new ≡ outcome (state image.old journal.old) script.now out.old }
    ensures replay { JustStarted image.old journal.old → leaves (ran_status result) image.new journal.new out.new ≡ replay_outcome (state image.old journal.old) script.now out.old }
{
    if !super::items::well_formed(script) {
        return Err(NotRun::Malformed);
    }
    if !super::items::answers_fit(script, out.len()) {
        return Err(NotRun::NoRoom);
    }
    execute(script, image, journal, out);
    Ok(())
}
