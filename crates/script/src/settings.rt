// Settings: the directory and the serial number of an item, and the answers of the gets, numbers and then the buffer.
ghost use Rattle.std.specs.Prelude.{◌≡◌, ◌+◌, ◌≤◌, ◌<◌, length};
ghost use Rattle.layout.specs.Bytes.{be32};
ghost use Rattle.store.specs.Get.{got_answer, get_in, get};
ghost use Rattle.journal.specs.Run.{look_answer, got};
ghost use Rattle.script.specs.Script.{Fits, op_at, name_at, directory_length, directory_at, serial_at, data_length, which_at, get_at, encoded};

use super::answers::Numbers;
use layout::number::get32;

// How many bytes of the name of the item at `at` are the directory.
fn directory_length(script: &[u8], at: usize) -> usize
    requires { at + 33 ≤ length script.now }
    ensures { result ≡ directory_length script.now at }
{
    let name = get32(script, at + 25) as usize;
    let told = get32(script, at + 5) as usize;
    told.min(name)
}

// The directory of the item at `at`.
pub fn directory_of(script: &[u8], at: usize) -> &[u8]
    requires { Fits script.now at }
    ensures { result.now ≡ directory_at script.now at }
{
    let a = at + 33;
    let e = a + directory_length(script, at);
    &script[a..e]
}

// The serial number of the item at `at`, behind the directory.
pub fn serial_of(script: &[u8], at: usize) -> &[u8]
    requires { Fits script.now at }
    ensures { result.now ≡ serial_at script.now at }
{
    let a = at + 33 + directory_length(script, at);
    let e = at + 33 + get32(script, at + 25) as usize;
    &script[a..e]
}

// The number of the revision that the item at `at` asks for.
fn revision_of(script: &[u8], at: usize) -> u32
    requires { Fits script.now at }
    ensures { result ≡ be32 script.now (at + 13) }
{
    get32(script, at + 13)
}

// Gets the revision that the item at `at` asks for, from the root.
fn get_from_root(script: &[u8], at: usize, image: &[u8], buffer: &mut [u8]) -> store::get::Got
    requires { (Fits script.now at) × (op_at script.now at < 22) }
    ensures { got_answer result.number result.revision result.length buffer.new ≡ get image.now (name_at script.now at) (which_at script.now at) buffer.old }
{
    let serial = super::items::name_of(script, at);
    if script[at] == 19 {
        let revision = revision_of(script, at);
        return store::get::get(image, serial, revision, buffer);
    }
    store::get::get_latest(image, serial, buffer)
}

// The same from the directory of the item.
fn get_from_directory(script: &[u8], at: usize, image: &[u8], buffer: &mut [u8]) -> store::get::Got
    requires { (Fits script.now at) × (22 ≤ op_at script.now at) }
    ensures { got_answer result.number result.revision result.length buffer.new ≡ get_in image.now (directory_at script.now at) (serial_at script.now at) (which_at script.now at) buffer.old }
{
    let directory = directory_of(script, at);
    let serial = serial_of(script, at);
    if script[at] == 22 {
        let revision = revision_of(script, at);
        return store::get::get_in(image, directory, serial, revision, buffer);
    }
    store::get::get_latest_in(image, directory, serial, buffer)
}

// Copies the data of the item at `at` into the buffer, and gets the revision that the item asks for.
fn get_into(script: &[u8], at: usize, image: &[u8], buffer: &mut [u8]) -> store::get::Got
    requires { (Fits script.now at) × (length buffer.old ≡ data_length script.now at) }
    ensures { got (got_answer result.number result.revision result.length buffer.new) ≡ look_answer image.now (get_at script.now at) }
{
    layout::bytes::copy(super::items::data_of(script, at), buffer);
    if 22 <= script[at] {
        return get_from_directory(script, at, image, buffer);
    }
    get_from_root(script, at, image, buffer)
}

// Get what the item at `at` asks for, with its answer.
pub fn get(script: &[u8], at: usize, image: &[u8], part: &mut [u8])
    requires { (Fits script.now at) × (length part.old ≡ 16 + data_length script.now at) }
    ensures { part.new ≡ encoded (look_answer image.now (get_at script.now at)) }
{
    let g = get_into(script, at, image, &mut part[16..]);
    super::answers::put_numbers(
        part,
        Numbers {
            first: g.number,
            second: g.revision,
            third: g.length,
            fourth: 0,
        },
    );
}
