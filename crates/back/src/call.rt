// Journal info and undo to a mark.
ghost use Rattle.std.specs.Prelude.{◌≤◌, ◌≡◌, true, eqb, length};
ghost use Rattle.layout.specs.Lists.{has};
ghost use Rattle.journal.specs.Run.{state};
ghost use Rattle.journal.specs.Walks.Changes.{Ready};
ghost use Rattle.back.specs.Marks.{marks, behind, info, journal_info};
ghost use Rattle.back.specs.UndoTo.{back_by, backed, undo_to};
ghost use Rattle.back.specs.Walks.Right.{Whole, Noted};

use layout::refusal::Refusal;

// What a journal answers: the refusal, 1 to 8, or 0 and its used length, how many records stand, and the length of the last one.
#[repr(C)]
#[derive(Drop)]
pub struct Info {
    pub number: u32,
    pub used: u32,
    pub records: u32,
    pub last: u32,
}

// What undo to a mark gives: the refusal, or 0, and how many changes were taken back.
#[repr(C)]
#[derive(Drop)]
pub struct Backed {
    pub number: u32,
    pub done: u32,
}

// Journal info, a look; its used length is a mark.
pub fn journal_info(image: &[u8], journal: &[u8]) -> Info
    ensures { info result.number result.used result.records result.last ≡ journal_info (state image.now journal.now) }
{
    if let Err(why) = journal::calls::ready_refusal(image, journal) {
        return Info {
            number: why.number(),
            used: 0,
            records: 0,
            last: 0,
        };
    }
    let used = layout::number::get32(journal, 1);
    let found = super::walk::tally(journal);
    Info {
        number: 0,
        used,
        records: found.records,
        last: found.last,
    }
}

// Takes the last records back, whose offsets were noted.
fn take_noted(image: &mut [u8], journal: &mut [u8], offsets: &[u32], count: usize)
    requires { (Whole image.old journal.old) × (Noted journal.old offsets.now count) }
    ensures { state image.new journal.new ≡ back_by (state image.old journal.old) count }
{
    let mut left = count;
    while 0 < left {
        left -= 1;
        let at = offsets[left] as usize;
        journal::restoring::take_back(image, journal, at);
    }
}

// Takes records back until the used length is the mark, as many at a time as there is room to note; gives how many.
fn take_with(image: &mut [u8], journal: &mut [u8], mark: usize, offsets: &mut [u32]) -> u32
    requires { (Ready image.old journal.old) × (has eqb mark (marks journal.old) ≡ true) × (1 ≤ length offsets.old) }
    ensures { backed (state image.new journal.new) 0 result ≡ backed (back_by (state image.old journal.old) (behind journal.old mark)) 0 (behind journal.old mark) }
{
    let mut done = 0;
    let mut used = layout::number::get32(journal, 1) as usize;
    while mark < used {
        let count = super::walk::note(journal, mark, offsets);
        take_noted(image, journal, offsets, count);
        used = layout::number::get32(journal, 1) as usize;
        done += count as u32;
    }
    done
}

// The same, with the room.
fn take_to(image: &mut [u8], journal: &mut [u8], mark: usize) -> u32
    requires { (Ready image.old journal.old) × (has eqb mark (marks journal.old) ≡ true) }
    ensures { backed (state image.new journal.new) 0 result ≡ backed (back_by (state image.old journal.old) (behind journal.old mark)) 0 (behind journal.old mark) }
{
    let mut offsets = super::walk::no_offsets();
    take_with(image, journal, mark, &mut offsets)
}

// Undo to a mark. Image and journal are checked once: a record taken back leaves whole blocks and a well-formed journal.
pub fn undo_to(image: &mut [u8], journal: &mut [u8], mark: usize) -> Backed
    ensures { backed (state image.new journal.new) result.number result.done ≡ undo_to (state image.old journal.old) mark }
{
    if let Err(why) = journal::calls::ready_refusal(image, journal) {
        return Backed {
            number: why.number(),
            done: 0,
        };
    }
    if !super::walk::had_mark(journal, mark) {
        return Backed {
            number: Refusal::NoMark.number(),
            done: 0,
        };
    }
    let done = take_to(image, journal, mark);
    Backed { number: 0, done }
}
