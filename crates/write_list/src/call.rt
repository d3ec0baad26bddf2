// Write list: the writes of a list in order, each with its own record, until the first refusal.
ghost use Rattle.std.specs.Prelude.{◌≡◌, true};
ghost use Rattle.layout.specs.Reasons.{outcome};
ghost use Rattle.journal.specs.Run.{number_of, change_refusal, after_change, state};
ghost use Rattle.journal.specs.Walks.Changes.{Ready};
ghost use Rattle.write_list.specs.List.{write_at, item_ok, list_ok, writes, listed, one_by_one, write_list};

use layout::refusal::Refusal;
use store::change::Change;
use volume::change::Change as VolumeChange;

// What a list gives: the refusal that stopped it, if one did, and how many of its writes were done.
#[derive(Clone, Copy, Debug, PartialEq, Eq, Drop)]
pub struct Listed {
    pub answer: Result<(), Refusal>,
    pub done: u32,
}

// Does the write of the item at `at`.
fn write_item(image: &mut [u8], journal: &mut [u8], list: &[u8], at: usize) -> Result<(), Refusal>
    requires { (Ready image.old journal.old) × (item_ok list.now at ≡ true) }
    ensures number { outcome result ≡ change_refusal (state image.old journal.old) (write_at list.now at) }
    ensures state { state image.new journal.new ≡ after_change (state image.old journal.old) (write_at list.now at) }
{
    let what = VolumeChange::Write {
        offset: layout::number::get32(list, at + 12) as usize,
        time: layout::number::get64(list, at + 4),
    };
    let path = super::list::path_of(list, at);
    let bytes = super::list::data_of(list, at);
    journal::calls::change_ready(image, journal, Change::Volume(what), path, bytes)?;
    Ok(())
}

// Does the writes of a list of the form, until the first refusal.
fn write_items(image: &mut [u8], journal: &mut [u8], list: &[u8]) -> Listed
    requires { (Ready image.old journal.old) × (list_ok list.now ≡ true) }
    ensures { listed (state image.new journal.new) (outcome result.answer) result.done ≡ one_by_one (state image.old journal.old) 0 (writes list.now) }
{
    let mut done = 0;
    let mut at = 5;
    while at < list.len() {
        if let Err(why) = write_item(image, journal, list, at) {
            return Listed {
                answer: Err(why),
                done,
            };
        }
        done += 1;
        at += layout::number::get32(list, at) as usize;
    }
    Listed {
        answer: Ok(()),
        done,
    }
}

// Writes a list. Image and journal are checked once: an accepted write leaves both as the next one needs them.
pub fn write_list(image: &mut [u8], journal: &mut [u8], list: &[u8]) -> Listed
    ensures { listed (state image.new journal.new) (outcome result.answer) result.done ≡ write_list (state image.old journal.old) list.now }
{
    if let Err(why) = journal::calls::ready_refusal(image, journal) {
        return Listed {
            answer: Err(why),
            done: 0,
        };
    }
    if !super::list::list_ok(list) {
        return Listed {
            answer: Err(Refusal::BadList),
            done: 0,
        };
    }
    write_items(image, journal, list)
}
