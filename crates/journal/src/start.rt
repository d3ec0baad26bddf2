// Starting a journal.
ghost use Rattle.std.specs.Prelude.{◌≡◌};
ghost use Rattle.layout.specs.Reasons.{outcome};
ghost use Rattle.journal.specs.Journal.{start_refusal, after_start};

use layout::limits::{MAX_JOURNAL, MIN_JOURNAL};
use layout::refusal::Refusal;

// Zeroes a journal and writes its version and used length; 8 if its length is out of range.
pub fn start(journal: &mut [u8]) -> Result<(), Refusal>
    ensures number { outcome result ≡ start_refusal journal.old }
    ensures bytes { journal.new ≡ after_start journal.old }
{
    if journal.len() < MIN_JOURNAL || MAX_JOURNAL < journal.len() {
        return Err(Refusal::BadJournal);
    }
    journal.fill(0);
    journal[0] = 1;
    volume::number::put32(journal, 1, 5);
    Ok(())
}
