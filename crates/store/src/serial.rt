// Serial numbers, and their paths in a directory.
ghost use Rattle.std.specs.Prelude.{◌≡◌, ◌++◌, ◌-◌, ◌≤◌, length, take};
ghost use Rattle.layout.specs.Reasons.{outcome};
ghost use Rattle.layout.specs.Bytes.{zeros};
ghost use Rattle.layout.specs.Directory.{is_file};
ghost use Rattle.layout.specs.Check.{check};
ghost use Rattle.layout.specs.Looks.{is_root_path};
ghost use Rattle.layout.specs.Paths.{file_refusal};
ghost use Rattle.layout.specs.Walks.Looks.{Opened};
ghost use Rattle.volume.specs.Create.{place_refusal, create_image};
ghost use Rattle.volume.specs.Walks.Places.{Vacant, SearchedFor};
ghost use Rattle.store.specs.Put.{serial_byte, serial_ok, front, path_of, address_refusal};
ghost use Rattle.store.specs.Walks.Addresses.{Addressed};

use layout::file::File;
use layout::refusal::Refusal;
use volume::create::Given;

// The most bytes of a serial number.
const MAX_SERIAL: usize = 16;

// Whether a byte is an ASCII letter or digit.
fn serial_byte(x: u8) -> bool
    ensures { result ≡ serial_byte x }
{
    x.is_ascii_alphanumeric()
}

// Whether a serial number is 1 to 16 such bytes.
pub fn serial_ok(serial: &[u8]) -> bool
    ensures { result ≡ serial_ok serial.now }
{
    0 < serial.len() && serial.len() <= MAX_SERIAL && serial.iter().all(|x| serial_byte(*x))
}

// Whether a directory is the root, `/` alone.
fn is_root(directory: &[u8]) -> bool
    ensures { result ≡ is_root_path directory.now }
{
    matches!(directory, b"/")
}

// The refusals of a directory and a serial number by themselves, 22 and 17; data or buffer fit or do not.
pub fn address_refusal(directory: &[u8], serial: &[u8], fits: bool) -> Result<(), Refusal>
    ensures { outcome result ≡ address_refusal directory.now serial.now fits }
{
    if !fits || !serial_ok(serial) {
        return Err(Refusal::BadSettings);
    }
    if is_root(directory) {
        return Ok(());
    }
    match layout::path::path_parts(directory) {
        Some(_) => layout::file::whole_path_refusal(directory),
        None => Err(Refusal::BadSettings),
    }
}

// How many bytes of a path stand before the `/` of its serial number.
fn front_length(directory: &[u8]) -> usize
    ensures { (result ≡ length (front directory.now)) × (result ≤ length directory.now) }
{
    if is_root(directory) {
        0
    } else {
        directory.len()
    }
}

// The longest path has 8 directories of 81 bytes and 17 bytes more.
const MAX_PATH: usize = 665;

// A path in the first bytes of an array, since there is no heap.
#[derive(Drop)]
struct Path {
    bytes: [u8; MAX_PATH],
    length: usize,
}

// An array for a path.
fn no_path() -> [u8; MAX_PATH]
    ensures { result ≡ zeros 665 }
{
    [0; MAX_PATH]
}

// The path of a serial number in a directory, and zeros behind it.
fn path_of(directory: &[u8], serial: &[u8]) -> Path
    requires { Addressed directory.now serial.now }
    ensures path { take result.length result.bytes ≡ path_of directory.now serial.now }
    ensures inside { result.length ≤ 665 }
    ensures bytes { result.bytes ≡ path_of directory.now serial.now ++ zeros (665 - length (path_of directory.now serial.now)) }
{
    let k = front_length(directory);
    let mut bytes = no_path();
    layout::bytes::copy_part(directory, 0, &mut bytes, 0, k);
    bytes[k] = b'/';
    layout::bytes::copy_part(serial, 0, &mut bytes, k + 1, serial.len());
    Path {
        bytes,
        length: k + 1 + serial.len(),
    }
}

// The file of a serial number, or the refusal 10.
pub fn open_file(image: &[u8], directory: &[u8], serial: &[u8]) -> Result<File, Refusal>
    requires { (check image.now ≡ 0) × (Addressed directory.now serial.now) }
    ensures { Opened is_file image.now (path_of directory.now serial.now) (file_refusal image.now (path_of directory.now serial.now)) result }
{
    let path = path_of(directory, serial);
    layout::file::open_file(image, &path.bytes[..path.length])
}

// The place for the file of a serial number, or the refusal, 10, 11 or 13.
pub fn find_place(image: &[u8], directory: &[u8], serial: &[u8]) -> Result<File, Refusal>
    requires { (check image.now ≡ 0) × (Addressed directory.now serial.now) }
    ensures { SearchedFor image.now (path_of directory.now serial.now) (place_refusal image.now (path_of directory.now serial.now)) result }
{
    let path = path_of(directory, serial);
    volume::place::find_place(image, &path.bytes[..path.length])
}

// Makes the file of a serial number at its place.
pub fn create_file(image: &mut [u8], directory: &[u8], serial: &[u8], found: File, time: u64)
    requires { (check image.old ≡ 0) × (Addressed directory.now serial.now) × (Vacant image.old (path_of directory.now serial.now) found.first found.slot found.block) }
    ensures { image.new ≡ create_image image.old (path_of directory.now serial.now) 0x60 0 0 0 0 time }
{
    let path = path_of(directory, serial);
    let given = Given {
        kind: 0x60,
        user: 0,
        group: 0,
        permissions: 0,
        flags: 0,
        time,
    };
    volume::create::create_at(image, found, &path.bytes[..path.length], given);
}
