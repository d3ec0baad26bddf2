// Journal info and undo to a mark, with their answers: four numbers.
ghost use Rattle.std.specs.Prelude.{◌+◌, ◌≤◌, ◌≡◌, length};
ghost use Rattle.journal.specs.Run.{state};
ghost use Rattle.back.specs.Marks.{info, journal_info};
ghost use Rattle.script.specs.Script.{Fits, op_at, item_call};
ghost use Rattle.script.specs.Walks.Scripts.{ItemDone};

use super::answers::{NO_NUMBERS, Numbers};

// Journal info, a look.
fn tell(image: &[u8], journal: &[u8]) -> Numbers
    ensures { info result.first result.second result.third result.fourth ≡ journal_info (state image.now journal.now) }
{
    let a = back::call::journal_info(image, journal);
    Numbers {
        first: a.number,
        second: a.used,
        third: a.records,
        fourth: a.last,
    }
}

// Make the call of the item at `at`, whose op is 27 or above.
pub fn make(script: &[u8], at: usize, image: &mut [u8], journal: &mut [u8], part: &mut [u8])
    requires { (Fits script.now at) × (27 ≤ op_at script.now at) × (length part.old ≡ 16) }
    ensures { ItemDone (state image.old journal.old) (item_call script.now at) image.new journal.new part.new }
{
    if script[at] == 27 {
        super::answers::put_numbers(part, tell(image, journal));
        return;
    }
    let mark = layout::number::get32(script, at + 13) as usize;
    let b = back::call::undo_to(image, journal, mark);
    super::answers::put_numbers(
        part,
        Numbers {
            first: b.number,
            second: b.done,
            ..NO_NUMBERS
        },
    );
}
