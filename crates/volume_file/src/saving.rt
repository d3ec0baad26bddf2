// Steps 1 and 2 of a save: the log is filled with the home sectors that differ from those of an image, a journal and the program's own bytes, and the commit
// sector is written.
ghost use Rattle.std.specs.Prelude.{◌+◌, ◌*◌, ◌/◌, ◌≤◌, ◌<◌, ◌≡◌, length, IfOk};
ghost use Rattle.layout.specs.Bytes.{bytes4, block, splice};
ghost use Rattle.volume_file.specs.Format.{home_sectors, address_at, saved_at, file_sectors};
ghost use Rattle.volume_file.specs.Save.{home_with, differs, changes, filled, lengths_refusal, prepare_refusal, after_prepare, commit_refusal, after_commit};
ghost use Rattle.volume_file.specs.Walks.Sectors.{WholeSectors};
ghost use Rattle.volume_file.specs.Answers.{prepare_answered, log_places, prepare_answer};
ghost use Rattle.volume_file.specs.Reasons.{outcome};

use super::header::told;
use super::log::log_waits;
use super::refusals::Refusal;
use layout::bytes::block;

// The refusal, or 0; how many sectors are in the log; and offsets and lengths of the two places that the log was written to.
#[repr(C)]
#[derive(Drop, Default)]
pub struct Prepared {
    pub number: u32,
    pub sectors: u32,
    pub numbers_start: u32,
    pub numbers_length: u32,
    pub sectors_start: u32,
    pub sectors_length: u32,
}

// What is to stand in the home, one after the other: an image, its journal and the program's own bytes.
#[derive(Clone, Copy)]
struct Home<'a> {
    image: &'a [u8],
    journal: &'a [u8],
    own: &'a [u8],
}

// The 512 bytes of its sector i.
fn sector_of<'a>(home: &Home<'a>, i: usize) -> &'a [u8]
    requires image { length home.now.image.now ≡ 512 * (length home.now.image.now / 512) }
    requires journal { length home.now.journal.now ≡ 512 * (length home.now.journal.now / 512) }
    requires below { 512 * i + 512 ≤ length home.now.image.now + (length home.now.journal.now + length home.now.own.now) }
    ensures bytes { result.now ≡ block (home_with home.now.image.now home.now.journal.now home.now.own.now) i }
    ensures size { length result.now ≡ 512 }
{
    let n = home.image.len() / 512;
    if i < n {
        return block(home.image, i);
    }
    let m = home.journal.len() / 512;
    if i - n < m {
        return block(home.journal, i - n);
    }
    block(home.own, i - n - m)
}

// Whether home sector i of the file differs from it.
fn changed(file: &[u8], home: &Home, i: usize, h: usize) -> bool
    requires { (WholeSectors home.now.image.now home.now.journal.now home.now.own.now h) × (i < h) × (length file.now ≡ 512 * file_sectors h) × (h ≤ 196736) }
    ensures { result ≡ differs file.now (home_with home.now.image.now home.now.journal.now home.now.own.now) i }
{
    !layout::bytes::equal(block(file, 2 + i), sector_of(home, i))
}

// Writes the number i and the bytes of a sector as the k-th of the log.
fn log_one(file: &mut [u8], sector: &[u8], k: usize, i: usize, h: usize)
    requires { (length sector.now ≡ 512) × (k < h) × (i < h) × (length file.old ≡ 512 * file_sectors h) × (h ≤ 196736) }
    ensures { file.new ≡ splice (splice file.old (address_at h k) (bytes4 i)) (512 * saved_at h k) sector.now }
{
    volume::number::put32(file, super::log::address_at(h, k), i as u32);
    let s = 512 * super::log::saved_at(h, k);
    layout::bytes::copy(sector, &mut file[s..s + 512]);
}

// Fills the log, but for the number of its sectors. Gives that number.
fn fill_log(file: &mut [u8], home: &Home, h: usize) -> usize
    requires { (WholeSectors home.now.image.now home.now.journal.now home.now.own.now h) × (length file.old ≡ 512 * file_sectors h) × (h ≤ 196736) × (h ≡ home_sectors file.old) }
    ensures count { result ≡ length (changes file.old (home_with home.now.image.now home.now.journal.now home.now.own.now)) }
    ensures file { file.new ≡ filled file.old (home_with home.now.image.now home.now.journal.now home.now.own.now) }
    ensures few { result ≤ h }
{
    let mut k = 0;
    for i in 0..h {
        if !changed(file, home, i, h) {
            continue;
        }
        log_one(file, sector_of(home, i), k, i, h);
        k += 1;
    }
    k
}

// Whether image, journal and the program's own bytes fit the places that a header sector tells.
fn fits(home: &Home, head: &[u8]) -> Result<(), Refusal>
    requires { length head.now ≡ 512 }
    ensures { outcome result ≡ lengths_refusal head.now home.now.image.now home.now.journal.now home.now.own.now }
{
    let sizes = told(head);
    if home.image.len() != 512 * sizes.image as usize {
        return Err(Refusal::ImageLength);
    }
    if home.journal.len() != 512 * sizes.journal as usize {
        return Err(Refusal::JournalLength);
    }
    if home.own.len() != 512 * sizes.own as usize {
        return Err(Refusal::OwnLength);
    }
    Ok(())
}

// Whether they can be saved. Gives the number of home sectors.
fn savable(file: &[u8], home: &Home) -> Result<usize, Refusal>
    ensures number { outcome result ≡ prepare_refusal file.now home.now.image.now home.now.journal.now home.now.own.now }
    ensures home { IfOk result (λ h. h ≡ home_sectors file.now) }
{
    let h = super::check::accepted(file)?;
    if log_waits(file) {
        return Err(Refusal::LogWaits);
    }
    fits(home, block(file, 0))?;
    Ok(h)
}

// The places that a log of k sectors takes.
fn log_places(h: usize, k: usize) -> Prepared
    requires { (h ≤ 196736) × (k ≤ h) }
    ensures { prepare_answered result.number result.sectors result.numbers_start result.numbers_length result.sectors_start result.sectors_length ≡ log_places h k }
{
    Prepared {
        number: 0,
        sectors: k as u32,
        numbers_start: (512 * (2 + h)) as u32,
        numbers_length: (512 * super::header::number_sectors(k)) as u32,
        sectors_start: (512 * super::log::saved_at(h, 0)) as u32,
        sectors_length: (512 * k) as u32,
    }
}

// Writes the log. Gives its places.
fn write_log(file: &mut [u8], home: &Home) -> Result<Prepared, Refusal>
    ensures number { outcome result ≡ prepare_refusal file.old home.now.image.now home.now.journal.now home.now.own.now }
    ensures places { IfOk result (λ p. prepare_answered p.number p.sectors p.numbers_start p.numbers_length p.sectors_start p.sectors_length ≡ prepare_answer file.old home.now.image.now home.now.journal.now home.now.own.now) }
    ensures file { file.new ≡ after_prepare file.old home.now.image.now home.now.journal.now home.now.own.now }
{
    let h = savable(file, home)?;
    let k = fill_log(file, home, h);
    let count = k as u32;
    volume::number::put32(file, 512 * (2 + h), count);
    Ok(log_places(h, k))
}

// Step 1 of a save: the log.
pub fn prepare<'a>(file: &mut [u8], image: &'a [u8], journal: &'a [u8], own: &'a [u8]) -> Prepared
    ensures answer { prepare_answered result.number result.sectors result.numbers_start result.numbers_length result.sectors_start result.sectors_length ≡ prepare_answer file.old image.now journal.now own.now }
    ensures file { file.new ≡ after_prepare file.old image.now journal.now own.now }
{
    let home = Home {
        image,
        journal,
        own,
    };
    match write_log(file, &home) {
        Ok(places) => places,
        Err(why) => Prepared {
            number: why.number(),
            ..Prepared::default()
        },
    }
}

// Whether the log can be committed.
fn committable(file: &[u8]) -> Result<(), Refusal>
    ensures { outcome result ≡ commit_refusal file.now }
{
    let h = super::header::accepted(file)?;
    let k = super::log::log_count(file, h);
    super::log::accepted(file, h, k)?;
    if super::log::log_waits(file) {
        return Err(Refusal::LogWaits);
    }
    Ok(())
}

// Writes the commit sector.
fn set_waiting(file: &mut [u8]) -> Result<(), Refusal>
    ensures answer { outcome result ≡ commit_refusal file.old }
    ensures file { file.new ≡ after_commit file.old }
{
    committable(file)?;
    super::log::set_flag(file, 1);
    Ok(())
}

// Step 2: the commit sector. Steps 3 and 4 are recovery. Gives the refusal.
pub fn commit(file: &mut [u8]) -> u32
    ensures answer { result ≡ commit_refusal file.old }
    ensures file { file.new ≡ after_commit file.old }
{
    super::refusals::outcome(set_waiting(file))
}
