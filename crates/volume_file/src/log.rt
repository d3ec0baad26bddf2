// The log of a volume file, and the flag that says that it waits.
ghost use Rattle.std.specs.Prelude.{◌+◌, ◌*◌, ◌≤◌, ◌≡◌, cond, Some, None, length};
ghost use Rattle.volume_file.specs.Format.{home_sectors, address_at, saved_at, file_sectors, address, waits, log_count, rising, log_refusal};
ghost use Rattle.volume_file.specs.Reasons.{outcome};
ghost use Rattle.volume_file.specs.Save.{flagged};

use super::refusals::Refusal;
use layout::number::get32;

// Whether the log waits.
pub fn log_waits(file: &[u8]) -> bool
    requires { 1024 ≤ length file.now }
    ensures { result ≡ waits file.now }
{
    file[512] == 1
}

// How many sectors the log says it has.
pub fn log_count(file: &[u8], h: usize) -> usize
    requires { (h ≤ 196736) × (length file.now ≡ 512 * file_sectors h) × (h ≡ home_sectors file.now) }
    ensures { result ≡ log_count file.now }
{
    get32(file, 512 * (2 + h)) as usize
}

// How many sectors of the log wait, if it does.
pub fn waiting(file: &[u8], h: usize) -> Option<usize>
    requires { (h ≤ 196736) × (length file.now ≡ 512 * file_sectors h) × (h ≡ home_sectors file.now) }
    ensures { result ≡ cond (waits file.now) (Some (log_count file.now)) None }
{
    log_waits(file).then(|| log_count(file, h))
}

// Where the j-th address of the log stands.
pub fn address_at(h: usize, j: usize) -> usize
    requires { (h ≤ 196736) × (j ≤ 196736) }
    ensures { result ≡ address_at h j }
{
    512 * (2 + h) + 4 + 4 * j
}

// The sector of the log that is its j-th.
pub fn saved_at(h: usize, j: usize) -> usize
    requires { (h ≤ 196736) × (j ≤ 196736) }
    ensures { result ≡ saved_at h j }
{
    2 + h + super::header::number_sectors(h) + j
}

// The j-th address in the log.
pub fn address(file: &[u8], h: usize, j: usize) -> usize
    requires { (h ≤ 196736) × (j ≤ 196736) × (address_at h j + 4 ≤ length file.now) }
    ensures { result ≡ address h file.now j }
{
    get32(file, address_at(h, j)) as usize
}

// Whether the first k addresses rise and are below h, from the last to the first. A `for` over `(0..k).rev()` takes 2.3 to 3.1 times as long, and a `while`
// that counts down from k takes 2.1 to 2.4 times.
fn addresses_rise(file: &[u8], h: usize, k: usize) -> bool
    requires { (h ≤ 196736) × (k ≤ h) × (length file.now ≡ 512 * file_sectors h) }
    ensures { result ≡ rising h file.now h k }
{
    let mut limit = h;
    for i in 0..k {
        let x = address(file, h, k - i - 1);
        if limit <= x {
            return false;
        }
        limit = x;
    }
    true
}

// Whether a log may have k sectors.
pub fn accepted(file: &[u8], h: usize, k: usize) -> Result<(), Refusal>
    requires { (h ≤ 196736) × (length file.now ≡ 512 * file_sectors h) × (h ≡ home_sectors file.now) }
    ensures { outcome result ≡ log_refusal file.now k }
{
    if h < k {
        return Err(Refusal::BadCount);
    }
    if !addresses_rise(file, h, k) {
        return Err(Refusal::BadAddress);
    }
    Ok(())
}

// Writes the commit sector.
pub fn set_flag(file: &mut [u8], b: u8)
    requires { 1024 ≤ length file.old }
    ensures { file.new ≡ flagged file.old b }
{
    file[512] = b;
    file[513..1024].fill(0);
}
