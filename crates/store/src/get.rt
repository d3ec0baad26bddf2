// Get: the data of a revision of a serial number, from any image.
ghost use Rattle.std.specs.Prelude.{◌*◌, ◌≤◌, ◌≡◌, ℕ, List, length};
ghost use Rattle.layout.specs.Geometry.{block_count};
ghost use Rattle.layout.specs.Walks.Shapes.{ChainBelow};
ghost use Rattle.store.specs.Settings.{max_setting, revisions};
ghost use Rattle.store.specs.Get.{the_latest, the_number, got_answer, get_in, get};
ghost use Rattle.store.specs.Walks.Loads.{asked_revision, got_told};
ghost use Rattle.store.specs.Walks.Forms.{max_form, bytes_of, sought};

use super::form::MAX_SETTING;
use layout::file::File;
use layout::refusal::Refusal;

// What a get gives: the number of the refusal, or 0, the revision's number and the length of its data.
#[repr(C)]
#[derive(Drop)]
pub struct Got {
    pub number: u32,
    pub revision: u32,
    pub length: u32,
}

// The revision that is found, and the length of its data.
#[derive(Clone, Copy, Drop)]
struct Taken {
    revision: u32,
    length: u32,
}

// The answer as C has it.
fn told(answer: Result<Taken, Refusal>) -> Got
    ensures { (buffer : List ℕ) → got_answer result.number result.revision result.length buffer ≡ got_told answer buffer }
{
    match answer {
        Ok(taken) => Got {
            number: 0,
            revision: taken.revision,
            length: taken.length,
        },
        Err(why) => Got {
            number: why.number(),
            revision: 0,
            length: 0,
        },
    }
}

// Get of a revision, or of the latest, from the file that was found, with a room for its first bytes.
fn get_from(
    image: &[u8],
    found: File,
    revision: Option<u32>,
    buffer: &mut [u8],
    room: &mut [u8],
) -> Result<Taken, Refusal>
    requires { (ChainBelow image.now (block_count image.now) found.first found.blocks) × (found.size ≤ 512 * found.blocks)
        × (length room.old ≡ max_form) × (max_setting ≤ length buffer.old) }
    ensures { got_told result buffer.new
        ≡ sought (revisions (bytes_of image.now found.first found.size found.blocks)) (asked_revision revision) buffer.old }
{
    let Some(form) = super::load::load(image, found, room) else {
        return Err(Refusal::NotSettings);
    };
    let x = revision.unwrap_or(form.last);
    let Some(bytes) = super::form::find(room, form.used, x) else {
        return Err(Refusal::NoRevision);
    };
    layout::bytes::copy(bytes, &mut buffer[..bytes.len()]);
    Ok(Taken {
        revision: x,
        length: bytes.len() as u32,
    })
}

// Get of a revision, or of the latest.
fn get_either(
    image: &[u8],
    directory: &[u8],
    serial: &[u8],
    revision: Option<u32>,
    buffer: &mut [u8],
) -> Result<Taken, Refusal>
    ensures { got_told result buffer.new ≡ get_in image.now directory.now serial.now (asked_revision revision) buffer.old }
{
    layout::check::check(image)?;
    super::serial::address_refusal(directory, serial, MAX_SETTING <= buffer.len())?;
    let Ok(found) = super::serial::open_file(image, directory, serial) else {
        return Err(Refusal::NotFound);
    };
    let mut room = super::form::empty_room();
    get_from(image, found, revision, buffer, &mut room)
}

// Get from a directory: fills the first bytes of the buffer with the data of a revision.
pub fn get_in(
    image: &[u8],
    directory: &[u8],
    serial: &[u8],
    revision: u32,
    buffer: &mut [u8],
) -> Got
    ensures { got_answer result.number result.revision result.length buffer.new ≡ get_in image.now directory.now serial.now (the_number revision) buffer.old }
{
    told(get_either(image, directory, serial, Some(revision), buffer))
}

// The same with the latest revision.
pub fn get_latest_in(image: &[u8], directory: &[u8], serial: &[u8], buffer: &mut [u8]) -> Got
    ensures { got_answer result.number result.revision result.length buffer.new ≡ get_in image.now directory.now serial.now the_latest buffer.old }
{
    told(get_either(image, directory, serial, None, buffer))
}

// Get from the root.
pub fn get(image: &[u8], serial: &[u8], revision: u32, buffer: &mut [u8]) -> Got
    ensures { got_answer result.number result.revision result.length buffer.new ≡ get image.now serial.now (the_number revision) buffer.old }
{
    get_in(image, b"/", serial, revision, buffer)
}

// The same with the latest revision.
pub fn get_latest(image: &[u8], serial: &[u8], buffer: &mut [u8]) -> Got
    ensures { got_answer result.number result.revision result.length buffer.new ≡ get image.now serial.now the_latest buffer.old }
{
    get_latest_in(image, b"/", serial, buffer)
}
