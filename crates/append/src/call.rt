// Append: a piece is the write of it at the file's end; an empty one does nothing.
ghost use Rattle.std.specs.Prelude.{◌≡◌, []};
ghost use Rattle.layout.specs.Check.{check};
ghost use Rattle.store.specs.Change.{write, refusal};
ghost use Rattle.journal.specs.Run.{changed, state};
ghost use Rattle.journal.specs.Answers.{changed_answer};
ghost use Rattle.append.specs.Append.{file_end, append_answer, after_append};

use journal::calls::Changed;
use layout::refusal::Refusal;
use store::change::Change;
use volume::change::Change as VolumeChange;

// Where the file of a path ends; 0 if there is none.
fn file_end(image: &[u8], path: &[u8]) -> usize
    requires { check image.now ≡ 0 }
    ensures { result ≡ file_end image.now path.now }
{
    match layout::file::open_file(image, path) {
        Ok(file) => file.size,
        Err(_) => 0,
    }
}

// The answer to an empty piece: the refusal of its write, or nothing done.
fn append_nothing(image: &[u8], path: &[u8], offset: usize, time: u64) -> Result<Changed, Refusal>
    requires { check image.now ≡ 0 }
    ensures answer { changed_answer result ≡ changed (refusal image.now (write path.now offset [] time)) 0 0 }
{
    let what = VolumeChange::Write { offset, time };
    store::change::refusal(image, Change::Volume(what), b"/", path, b"")?;
    Ok(Changed { slot: 0, size: 0 })
}

// Appends a piece to a file.
pub fn append(
    image: &mut [u8],
    journal: &mut [u8],
    path: &[u8],
    piece: &[u8],
    time: u64,
) -> Result<Changed, Refusal>
    ensures answer { changed_answer result ≡ append_answer (state image.old journal.old) path.now piece.now time }
    ensures state { state image.new journal.new ≡ after_append (state image.old journal.old) path.now piece.now time }
{
    journal::calls::ready_refusal(image, journal)?;
    let end = file_end(image, path);
    if piece.is_empty() {
        return append_nothing(image, path, end, time);
    }
    let what = VolumeChange::Write { offset: end, time };
    journal::calls::change_ready(image, journal, Change::Volume(what), path, piece)
}
