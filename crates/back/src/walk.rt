// The records of a well-formed journal, from one to the next.
ghost use Rattle.std.specs.Prelude.{◌≤◌, ◌≡◌, true, eqb, length};
ghost use Rattle.layout.specs.Lists.{has};
ghost use Rattle.layout.specs.Bytes.{zeros};
ghost use Rattle.journal.specs.Journal.{records};
ghost use Rattle.back.specs.Marks.{marks, behind, last_length};
ghost use Rattle.back.specs.Walks.Right.{Right, Noted};

// How many records stand, and the length of the last one, 0 if there is none.
#[derive(Drop)]
pub struct Counted {
    pub records: u32,
    pub last: u32,
}

pub fn tally(journal: &[u8]) -> Counted
    requires { Right journal.now }
    ensures records { result.records ≡ length (records journal.now) }
    ensures last { result.last ≡ last_length journal.now }
{
    let used = layout::number::get32(journal, 1) as usize;
    let mut count = 0;
    let mut last = 0;
    let mut at = 5;
    while at < used {
        last = layout::number::get32(journal, at);
        count += 1;
        at += last as usize;
    }
    Counted {
        records: count,
        last,
    }
}

// Whether a mark is a used length that the journal has had.
pub fn had_mark(journal: &[u8], mark: usize) -> bool
    requires { Right journal.now }
    ensures { result ≡ has eqb mark (marks journal.now) }
{
    let used = layout::number::get32(journal, 1) as usize;
    let mut at = 5;
    while at < used {
        if mark == at {
            return true;
        }
        at += layout::number::get32(journal, at) as usize;
    }
    mark == used
}

// Room for the offsets of records, all 0.
pub fn no_offsets() -> [u32; 1024]
    ensures { result ≡ zeros 1024 }
{
    [0u32; 1024]
}

// Notes where the records from the mark on begin. Where the room is full it begins anew, so the numbers noted at the end are those of the last records. Gives how many.
pub fn note(journal: &[u8], mark: usize, offsets: &mut [u32]) -> usize
    requires { (Right journal.now) × (has eqb mark (records journal.now) ≡ true) × (1 ≤ length offsets.old) }
    ensures noted { Noted journal.now offsets.new result }
    ensures count { (1 ≤ result) × (result ≤ behind journal.now mark) }
{
    let used = layout::number::get32(journal, 1) as usize;
    let mut i = 0;
    let mut at = mark;
    while at < used {
        if i == offsets.len() {
            i = 0;
            continue;
        }
        offsets[i] = at as u32;
        i += 1;
        at += layout::number::get32(journal, at) as usize;
    }
    i
}
