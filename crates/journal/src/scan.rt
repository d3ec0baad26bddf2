// Whether a journal is well formed, and where its last record begins.
ghost use Rattle.std.specs.Prelude.{◌≡◌, ◌+◌, ◌*◌, ◌≤◌, true, false, length, MatchOption};
ghost use Rattle.layout.specs.Limits.{max_blocks};
ghost use Rattle.layout.specs.Lists.{every};
ghost use Rattle.journal.specs.Journal.{record_ok, records, well_formed};
ghost use Rattle.journal.specs.Walks.Scanning.{Headed, Finds, head_ok, blocks_rise};

use layout::limits::{MAX_JOURNAL, MIN_JOURNAL};

// What a scan finds of a well-formed journal: the offset of its last record, if it has one.
#[derive(Drop)]
pub struct Scanned {
    pub last: Option<usize>,
}

// Whether the numbers of the k blocks of the record at `at` rise strictly and are below n.
fn blocks_rise(journal: &[u8], n: usize, at: usize, k: usize) -> bool
    requires { (at + 4 + 516 * k ≤ length journal.now) × (n ≤ max_blocks) }
    ensures { result ≡ blocks_rise journal.now n at 0 0 k }
{
    let mut low = 0;
    for i in 0..k {
        let b = layout::number::get32(journal, at + 4 + 516 * i) as usize;
        if b < low || n <= b {
            return false;
        }
        low = b + 1;
    }
    true
}

// Whether a right record stands at `at`; the shortest has 520 bytes.
fn record_ok(journal: &[u8], used: usize, n: usize, at: usize) -> bool
    requires { (Headed journal.now used n) × (at ≤ used) }
    ensures { result ≡ record_ok journal.now n at }
{
    if used < at + 520 {
        return false;
    }
    let size = layout::number::get32(journal, at) as usize;
    if size < 520 {
        return false;
    }
    let k = (size - 4) / 516;
    size == 4 + 516 * k && at + size <= used && blocks_rise(journal, n, at, k)
}

// Goes through the records up to the used length; none if one of them is wrong.
fn scan_records(journal: &[u8], used: usize, n: usize) -> Option<Scanned>
    requires { Headed journal.now used n }
    ensures { MatchOption result (every (record_ok journal.now n) (records journal.now) ≡ false) (λ found. (every (record_ok journal.now n) (records journal.now) ≡ true) × Finds journal.now found.last) }
{
    let mut last = None;
    let mut at = 5;
    while at < used {
        if !record_ok(journal, used, n, at) {
            return None;
        }
        last = Some(at);
        at += layout::number::get32(journal, at) as usize;
    }
    Some(Scanned { last })
}

// Whether length, version and used length are right.
fn head_ok(journal: &[u8]) -> bool
    ensures { result ≡ head_ok journal.now }
{
    if journal.len() < MIN_JOURNAL || MAX_JOURNAL < journal.len() || journal[0] != 1 {
        return false;
    }
    let used = layout::number::get32(journal, 1) as usize;
    5 <= used && used <= journal.len()
}

// The scan of a journal that is lent with an image of n blocks; none if it is not well formed.
pub fn scan(journal: &[u8], n: usize) -> Option<Scanned>
    requires { n ≤ max_blocks }
    ensures { MatchOption result (well_formed journal.now n ≡ false) (λ found. (well_formed journal.now n ≡ true) × Finds journal.now found.last) }
{
    if !head_ok(journal) {
        return None;
    }
    let used = layout::number::get32(journal, 1) as usize;
    scan_records(journal, used, n)
}
