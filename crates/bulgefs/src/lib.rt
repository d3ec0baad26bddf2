// The C entry points: numbers, byte buffers and runs of 32-bit numbers only. Each call says, field by field, what the call below it says; include/bulgefs.h documents them
// for C. Nothing is asked of the caller but buffers that do not overlap.
#![tactic(auto)]

ghost use Rattle.std.specs.Prelude.{◌+◌, ◌≡◌};
ghost use Rattle.layout.specs.Check.{check};
ghost use Rattle.layout.specs.Looks.{LookupAnswer, ReadAnswer, Extent, lookup, read, extent_of, read_attributes, volume_info, next_entry};
ghost use Rattle.layout.specs.Answers.{volume_answer, entry_answer};
ghost use Rattle.store.specs.Change.{Change as ChangeAsked, create, write, delete, create_directory, delete_directory, set_attributes, clear_attributes, clear_flags, shorten, replace, move, put_in, put, slot_given};
ghost use Rattle.store.specs.Get.{the_latest, the_number, got_answer, get_in, get};
ghost use Rattle.volume.specs.Format.{format_refusal, formatted};
ghost use Rattle.chain_table.specs.Transfer.{load_table, store_table};
ghost use Rattle.append.specs.Append.{after_append, append_answer};
ghost use Rattle.write_list.specs.List.{listed, write_list};
ghost use Rattle.back.specs.Marks.{info, journal_info};
ghost use Rattle.back.specs.UndoTo.{backed, undo_to};
ghost use Rattle.volume_file.specs.Format.{file_size, file_refusal};
ghost use Rattle.volume_file.specs.Begin.{begin_refusal, after_begin};
ghost use Rattle.volume_file.specs.Save.{after_prepare, commit_refusal, after_commit, after_recover};
ghost use Rattle.volume_file.specs.Answers.{PartsAnswer, parts_of, prepare_answered, prepare_answer, recover_answered, recover_answer, home_extent};
ghost use Rattle.salvage.specs.Salvage.{SalvageAnswer, salvage};
ghost use Rattle.salvage_tree.specs.SalvageTree.{TreeAnswer, salvage_tree};
ghost use Rattle.journal.specs.Journal.{start_refusal, after_start};
ghost use Rattle.journal.specs.Answers.{changed_answer};
ghost use Rattle.bulgefs.specs.Version.{version};
ghost use Rattle.journal.specs.Run.{State, state, changed, undone, change_answer, after_change, undo_answer, after_undo};

use layout::refusal::{Refusal, outcome};

// Sixteen bytes by value: C cannot pass an array so.
#[repr(C)]
#[derive(Drop)]
pub struct Uuid {
    pub bytes: [u8; 16],
}

#[repr(C)]
#[derive(Drop)]
pub struct Found {
    pub number: u32,
    pub slot: u32,
    pub size: u32,
    pub blocks: u32,
}

#[repr(C)]
#[derive(Drop)]
pub struct Filled {
    pub number: u32,
    pub count: u32,
}

// A part of the caller's image: C cannot take a returned slice.
#[repr(C)]
#[derive(Drop)]
pub struct Part {
    pub start: u32,
    pub length: u32,
}

// The slot of a created file or directory, and the length of the record added.
#[repr(C)]
#[derive(Drop)]
pub struct Created {
    pub number: u32,
    pub slot: u32,
    pub size: u32,
}

// The length of the record added or taken back.
#[repr(C)]
#[derive(Drop)]
pub struct Changed {
    pub number: u32,
    pub size: u32,
}

// The refusal of a salvage of a tree, or 0, how many entries it dropped and how many blocks it freed.
#[repr(C)]
#[derive(Drop)]
pub struct Salvaged {
    pub number: u32,
    pub dropped: u32,
    pub freed: u32,
}

// The refusal that stopped a list of writes, or 0, and how many of them were done.
#[repr(C)]
#[derive(Drop)]
pub struct Listed {
    pub number: u32,
    pub done: u32,
}

// The version of the library: the header's BULGEFS_VERSION.
#[unsafe(no_mangle)]
pub extern "C" fn bulgefs_version() -> u32
    ensures { result ≡ version }
{
    1400
}

#[unsafe(no_mangle)]
pub extern "C" fn bulgefs_check(image: &[u8]) -> u32
    ensures { result ≡ check image.now }
{
    outcome(layout::check::check(image))
}

#[unsafe(no_mangle)]
pub extern "C" fn bulgefs_plain_check(image: &[u8]) -> u32
    ensures { result ≡ check image.now }
{
    plain_check::check::plain_check(image)
}

#[unsafe(no_mangle)]
pub extern "C" fn bulgefs_lookup(image: &[u8], path: &[u8]) -> Found
    ensures { ◌≡◌ {A = LookupAnswer} (record { number = result.number; slot = result.slot; size = result.size; blocks = result.blocks }) (lookup image.now path.now) }
{
    match layout::reading::lookup(image, path) {
        Ok(file) => Found {
            number: 0,
            slot: file.slot,
            size: file.size,
            blocks: file.blocks,
        },
        Err(why) => Found {
            number: why.number(),
            slot: 0,
            size: 0,
            blocks: 0,
        },
    }
}

#[unsafe(no_mangle)]
pub extern "C" fn bulgefs_read(image: &[u8], path: &[u8], offset: u64, buffer: &mut [u8]) -> Filled
    ensures { ◌≡◌ {A = ReadAnswer} (record { number = result.number; count = result.count; buffer = buffer.new }) (read image.now path.now offset buffer.old) }
{
    match layout::reading::read(image, path, offset as usize, buffer) {
        Ok(count) => Filled {
            number: 0,
            count: count as u32,
        },
        Err(why) => Filled {
            number: why.number(),
            count: 0,
        },
    }
}

// A reader's read: C keeps the position, and lends it to each call. Image and path are lent for one lifetime, as a reader holds them.
#[unsafe(no_mangle)]
pub extern "C" fn bulgefs_read_next<'x>(
    image: &'x [u8],
    path: &'x [u8],
    position: &mut u64,
    buffer: &mut [u8],
) -> Filled
    ensures answer { ◌≡◌ {A = ReadAnswer} (record { number = result.number; count = result.count; buffer = buffer.new }) (read image.now path.now position.old buffer.old) }
    ensures position { position.new ≡ position.old + result.count }
{
    match reader::reader::read_at(image, path, *position as usize, buffer) {
        Ok(count) => {
            *position += count as u64;
            Filled {
                number: 0,
                count: count as u32,
            }
        }
        Err(why) => Filled {
            number: why.number(),
            count: 0,
        },
    }
}

#[unsafe(no_mangle)]
pub extern "C" fn bulgefs_read_attributes(image: &[u8], path: &[u8], buffer: &mut [u8]) -> Filled
    ensures { ◌≡◌ {A = ReadAnswer} (record { number = result.number; count = result.count; buffer = buffer.new }) (read_attributes image.now path.now buffer.old) }
{
    match layout::reading::read_attributes(image, path, buffer) {
        Ok(count) => Filled {
            number: 0,
            count: count as u32,
        },
        Err(why) => Filled {
            number: why.number(),
            count: 0,
        },
    }
}

#[unsafe(no_mangle)]
pub extern "C" fn bulgefs_look_in_place(image: &[u8], path: &[u8], index: u64) -> Part
    ensures { ◌≡◌ {A = Extent} (record { start = result.start; size = result.length }) (extent_of image.now path.now index) }
{
    let x = layout::reading::extent_in_place(image, path, index as usize);
    Part {
        start: x.start as u32,
        length: x.size as u32,
    }
}

// Structs of numbers are handed on as the layout gives them.
#[unsafe(no_mangle)]
pub extern "C" fn bulgefs_info(image: &[u8], labels: &mut [u8]) -> layout::overview::VolumeInfo
    ensures { volume_answer result labels.new ≡ volume_info image.now labels.old }
{
    layout::overview::info(image, labels)
}

#[unsafe(no_mangle)]
pub extern "C" fn bulgefs_entry(
    image: &[u8],
    path: &[u8],
    slot: u32,
    name: &mut [u8],
) -> layout::overview::EntryInfo
    ensures { entry_answer result name.new ≡ next_entry image.now path.now slot name.old }
{
    layout::overview::next_entry(image, path, slot as usize, name)
}

#[unsafe(no_mangle)]
pub extern "C" fn bulgefs_format(
    image: &mut [u8],
    root_blocks: u32,
    time: u64,
    uuid: Uuid,
    name: &[u8],
) -> u32
    ensures number { result ≡ format_refusal image.old root_blocks name.now }
    ensures bytes { image.new ≡ formatted image.old root_blocks uuid.bytes name.now time }
{
    let bytes = uuid.bytes;
    outcome(volume::format::format(image, root_blocks, time, bytes, name))
}

#[unsafe(no_mangle)]
pub extern "C" fn bulgefs_journal_start(journal: &mut [u8]) -> u32
    ensures number { result ≡ start_refusal journal.old }
    ensures bytes { journal.new ≡ after_start journal.old }
{
    outcome(journal::start::start(journal))
}

#[unsafe(no_mangle)]
pub extern "C" fn bulgefs_salvage(image: &mut [u8], report: &mut [u8]) -> u32
    ensures { ◌≡◌ {A = SalvageAnswer} (record { number = result; image = image.new; report = report.new }) (salvage image.old report.old) }
{
    outcome(salvage::salvage::salvage(image, report))
}

#[unsafe(no_mangle)]
pub extern "C" fn bulgefs_salvage_tree(image: &mut [u8], report: &mut [u8]) -> Salvaged
    ensures { ◌≡◌ {A = TreeAnswer} (record { number = result.number; zeroed = result.dropped; freed = result.freed; image = image.new; report = report.new }) (salvage_tree image.old report.old) }
{
    match salvage_tree::salvage_tree::salvage_tree(image, report) {
        Ok(done) => Salvaged {
            number: 0,
            dropped: done.zeroed,
            freed: done.freed,
        },
        Err(why) => Salvaged {
            number: why.number(),
            dropped: 0,
            freed: 0,
        },
    }
}

// The answer of a change, by its fields.
fn with_slot(c: Result<journal::calls::Changed, Refusal>) -> Created
    ensures { changed result.number result.slot result.size ≡ changed_answer c }
{
    match c {
        Ok(done) => Created {
            number: 0,
            slot: done.slot,
            size: done.size,
        },
        Err(why) => Created {
            number: why.number(),
            slot: 0,
            size: 0,
        },
    }
}

// The same of a change that gives no slot.
fn slotless(c: Result<journal::calls::Changed, Refusal>) -> Changed
    ensures { (p : State) (x : ChangeAsked) → slot_given p.image x ≡ 0 → changed_answer c ≡ change_answer p x → changed result.number 0 result.size ≡ change_answer p x }
{
    match c {
        Ok(done) => Changed {
            number: 0,
            size: done.size,
        },
        Err(why) => Changed {
            number: why.number(),
            size: 0,
        },
    }
}

#[unsafe(no_mangle)]
pub extern "C" fn bulgefs_create(
    image: &mut [u8],
    journal: &mut [u8],
    path: &[u8],
    kind: u8,
    user: u8,
    group: u8,
    permissions: u8,
    flags: u32,
    time: u64,
) -> Created
    ensures answer { changed result.number result.slot result.size ≡ change_answer (state image.old journal.old) (create path.now kind user group permissions flags time) }
    ensures state { state image.new journal.new ≡ after_change (state image.old journal.old) (create path.now kind user group permissions flags time) }
{
    with_slot(journal::calls::create(
        image,
        journal,
        path,
        kind,
        user,
        group,
        permissions,
        flags,
        time,
    ))
}

#[unsafe(no_mangle)]
pub extern "C" fn bulgefs_write(
    image: &mut [u8],
    journal: &mut [u8],
    path: &[u8],
    offset: u64,
    bytes: &[u8],
    time: u64,
) -> Changed
    ensures answer { changed result.number 0 result.size ≡ change_answer (state image.old journal.old) (write path.now offset bytes.now time) }
    ensures state { state image.new journal.new ≡ after_change (state image.old journal.old) (write path.now offset bytes.now time) }
{
    slotless(journal::calls::write(image, journal, path, offset as usize, bytes, time))
}

#[unsafe(no_mangle)]
pub extern "C" fn bulgefs_delete(image: &mut [u8], journal: &mut [u8], path: &[u8]) -> Changed
    ensures answer { changed result.number 0 result.size ≡ change_answer (state image.old journal.old) (delete path.now) }
    ensures state { state image.new journal.new ≡ after_change (state image.old journal.old) (delete path.now) }
{
    slotless(journal::calls::delete(image, journal, path))
}

#[unsafe(no_mangle)]
pub extern "C" fn bulgefs_create_directory(
    image: &mut [u8],
    journal: &mut [u8],
    path: &[u8],
    kind: u8,
    user: u8,
    group: u8,
    permissions: u8,
    flags: u32,
    blocks: u32,
    time: u64,
) -> Created
    ensures answer { changed result.number result.slot result.size ≡ change_answer (state image.old journal.old) (create_directory path.now kind user group permissions flags time blocks) }
    ensures state { state image.new journal.new ≡ after_change (state image.old journal.old) (create_directory path.now kind user group permissions flags time blocks) }
{
    with_slot(journal::calls::create_directory(
        image,
        journal,
        path,
        kind,
        user,
        group,
        permissions,
        flags,
        blocks,
        time,
    ))
}

#[unsafe(no_mangle)]
pub extern "C" fn bulgefs_delete_directory(
    image: &mut [u8],
    journal: &mut [u8],
    path: &[u8],
) -> Changed
    ensures answer { changed result.number 0 result.size ≡ change_answer (state image.old journal.old) (delete_directory path.now) }
    ensures state { state image.new journal.new ≡ after_change (state image.old journal.old) (delete_directory path.now) }
{
    slotless(journal::calls::delete_directory(image, journal, path))
}

#[unsafe(no_mangle)]
pub extern "C" fn bulgefs_set_attributes(
    image: &mut [u8],
    journal: &mut [u8],
    path: &[u8],
    bytes: &[u8],
) -> Changed
    ensures answer { changed result.number 0 result.size ≡ change_answer (state image.old journal.old) (set_attributes path.now bytes.now) }
    ensures state { state image.new journal.new ≡ after_change (state image.old journal.old) (set_attributes path.now bytes.now) }
{
    slotless(journal::calls::set_attributes(image, journal, path, bytes))
}

#[unsafe(no_mangle)]
pub extern "C" fn bulgefs_clear_attributes(
    image: &mut [u8],
    journal: &mut [u8],
    path: &[u8],
) -> Changed
    ensures answer { changed result.number 0 result.size ≡ change_answer (state image.old journal.old) (clear_attributes path.now) }
    ensures state { state image.new journal.new ≡ after_change (state image.old journal.old) (clear_attributes path.now) }
{
    slotless(journal::calls::clear_attributes(image, journal, path))
}

#[unsafe(no_mangle)]
pub extern "C" fn bulgefs_clear_flags(image: &mut [u8], journal: &mut [u8], path: &[u8]) -> Changed
    ensures answer { changed result.number 0 result.size ≡ change_answer (state image.old journal.old) (clear_flags path.now) }
    ensures state { state image.new journal.new ≡ after_change (state image.old journal.old) (clear_flags path.now) }
{
    slotless(journal::calls::clear_flags(image, journal, path))
}

#[unsafe(no_mangle)]
pub extern "C" fn bulgefs_shorten(
    image: &mut [u8],
    journal: &mut [u8],
    path: &[u8],
    size: u64,
    time: u64,
) -> Changed
    ensures answer { changed result.number 0 result.size ≡ change_answer (state image.old journal.old) (shorten path.now size time) }
    ensures state { state image.new journal.new ≡ after_change (state image.old journal.old) (shorten path.now size time) }
{
    slotless(journal::calls::shorten(image, journal, path, size as usize, time))
}

#[unsafe(no_mangle)]
pub extern "C" fn bulgefs_replace(
    image: &mut [u8],
    journal: &mut [u8],
    path: &[u8],
    bytes: &[u8],
    time: u64,
) -> Changed
    ensures answer { changed result.number 0 result.size ≡ change_answer (state image.old journal.old) (replace path.now bytes.now time) }
    ensures state { state image.new journal.new ≡ after_change (state image.old journal.old) (replace path.now bytes.now time) }
{
    slotless(journal::calls::replace(image, journal, path, bytes, time))
}

#[unsafe(no_mangle)]
pub extern "C" fn bulgefs_move(
    image: &mut [u8],
    journal: &mut [u8],
    path: &[u8],
    to: &[u8],
) -> Created
    ensures answer { changed result.number result.slot result.size ≡ change_answer (state image.old journal.old) (move path.now to.now) }
    ensures state { state image.new journal.new ≡ after_change (state image.old journal.old) (move path.now to.now) }
{
    with_slot(journal::calls::move_file(image, journal, path, to))
}

// The slot of a put's answer is the revision's number.
#[unsafe(no_mangle)]
pub extern "C" fn bulgefs_put_settings(
    image: &mut [u8],
    journal: &mut [u8],
    serial: &[u8],
    bytes: &[u8],
    time: u64,
) -> Created
    ensures answer { changed result.number result.slot result.size ≡ change_answer (state image.old journal.old) (put serial.now time bytes.now) }
    ensures state { state image.new journal.new ≡ after_change (state image.old journal.old) (put serial.now time bytes.now) }
{
    with_slot(journal::calls::put_settings(image, journal, serial, bytes, time))
}

#[unsafe(no_mangle)]
pub extern "C" fn bulgefs_get_settings(
    image: &[u8],
    serial: &[u8],
    revision: u32,
    buffer: &mut [u8],
) -> store::get::Got
    ensures { got_answer result.number result.revision result.length buffer.new ≡ get image.now serial.now (the_number revision) buffer.old }
{
    store::get::get(image, serial, revision, buffer)
}

#[unsafe(no_mangle)]
pub extern "C" fn bulgefs_get_latest_settings(
    image: &[u8],
    serial: &[u8],
    buffer: &mut [u8],
) -> store::get::Got
    ensures { got_answer result.number result.revision result.length buffer.new ≡ get image.now serial.now the_latest buffer.old }
{
    store::get::get_latest(image, serial, buffer)
}

// The same calls in a directory, `/` for the root.
#[unsafe(no_mangle)]
pub extern "C" fn bulgefs_put_settings_in(
    image: &mut [u8],
    journal: &mut [u8],
    directory: &[u8],
    serial: &[u8],
    bytes: &[u8],
    time: u64,
) -> Created
    ensures answer { changed result.number result.slot result.size ≡ change_answer (state image.old journal.old) (put_in directory.now serial.now time bytes.now) }
    ensures state { state image.new journal.new ≡ after_change (state image.old journal.old) (put_in directory.now serial.now time bytes.now) }
{
    with_slot(journal::calls::put_settings_in(image, journal, directory, serial, bytes, time))
}

#[unsafe(no_mangle)]
pub extern "C" fn bulgefs_get_settings_in(
    image: &[u8],
    directory: &[u8],
    serial: &[u8],
    revision: u32,
    buffer: &mut [u8],
) -> store::get::Got
    ensures { got_answer result.number result.revision result.length buffer.new ≡ get_in image.now directory.now serial.now (the_number revision) buffer.old }
{
    store::get::get_in(image, directory, serial, revision, buffer)
}

#[unsafe(no_mangle)]
pub extern "C" fn bulgefs_get_latest_settings_in(
    image: &[u8],
    directory: &[u8],
    serial: &[u8],
    buffer: &mut [u8],
) -> store::get::Got
    ensures { got_answer result.number result.revision result.length buffer.new ≡ get_in image.now directory.now serial.now the_latest buffer.old }
{
    store::get::get_latest_in(image, directory, serial, buffer)
}

#[unsafe(no_mangle)]
pub extern "C" fn bulgefs_undo(image: &mut [u8], journal: &mut [u8]) -> Changed
    ensures answer { undone result.number result.size ≡ undo_answer (state image.old journal.old) }
    ensures state { state image.new journal.new ≡ after_undo (state image.old journal.old) }
{
    match journal::calls::undo(image, journal) {
        Ok(size) => Changed { number: 0, size },
        Err(refusal) => Changed {
            number: refusal.number(),
            size: 0,
        },
    }
}

#[unsafe(no_mangle)]
pub extern "C" fn bulgefs_undo_to(
    image: &mut [u8],
    journal: &mut [u8],
    mark: u32,
) -> back::call::Backed
    ensures { backed (state image.new journal.new) result.number result.done ≡ undo_to (state image.old journal.old) mark }
{
    back::call::undo_to(image, journal, mark as usize)
}

#[unsafe(no_mangle)]
pub extern "C" fn bulgefs_journal_info<'x>(image: &'x [u8], journal: &'x [u8]) -> back::call::Info
    ensures { info result.number result.used result.records result.last ≡ journal_info (state image.now journal.now) }
{
    back::call::journal_info(image, journal)
}

#[unsafe(no_mangle)]
pub extern "C" fn bulgefs_append(
    image: &mut [u8],
    journal: &mut [u8],
    path: &[u8],
    piece: &[u8],
    time: u64,
) -> Changed
    ensures answer { changed result.number 0 result.size ≡ append_answer (state image.old journal.old) path.now piece.now time }
    ensures state { state image.new journal.new ≡ after_append (state image.old journal.old) path.now piece.now time }
{
    let c = with_slot(append::call::append(image, journal, path, piece, time));
    Changed {
        number: c.number,
        size: c.size,
    }
}

#[unsafe(no_mangle)]
pub extern "C" fn bulgefs_write_list(image: &mut [u8], journal: &mut [u8], list: &[u8]) -> Listed
    ensures { listed (state image.new journal.new) result.number result.done ≡ write_list (state image.old journal.old) list.now }
{
    let w = write_list::call::write_list(image, journal, list);
    Listed {
        number: outcome(w.answer),
        done: w.done,
    }
}

#[unsafe(no_mangle)]
pub extern "C" fn bulgefs_load_table(image: &[u8], entries: &mut [u32]) -> u32
    ensures number { result ≡ (load_table image.now entries.old).number }
    ensures entries { entries.new ≡ (load_table image.now entries.old).numbers }
{
    outcome(chain_table::transfer::load_table(image, entries))
}

#[unsafe(no_mangle)]
pub extern "C" fn bulgefs_store_table(image: &mut [u8], entries: &[u32]) -> u32
    ensures number { result ≡ (store_table image.old entries.now).number }
    ensures image { image.new ≡ (store_table image.old entries.now).image }
{
    outcome(chain_table::transfer::store_table(image, entries))
}

// The calls on a volume file: the whole file in memory, which the caller reads and writes.
#[unsafe(no_mangle)]
pub extern "C" fn bulgefs_file_size(
    image_sectors: u32,
    journal_sectors: u32,
    own_sectors: u32,
) -> u64
    ensures { result ≡ file_size image_sectors journal_sectors own_sectors }
{
    volume_file::parts::file_size(image_sectors, journal_sectors, own_sectors) as u64
}

#[unsafe(no_mangle)]
pub extern "C" fn bulgefs_file_begin(
    file: &mut [u8],
    image_sectors: u32,
    journal_sectors: u32,
    own_sectors: u32,
) -> u32
    ensures number { result ≡ begin_refusal file.old image_sectors journal_sectors own_sectors }
    ensures file { file.new ≡ after_begin file.old image_sectors journal_sectors own_sectors }
{
    volume_file::begin::begin(file, image_sectors, journal_sectors, own_sectors)
}

#[unsafe(no_mangle)]
pub extern "C" fn bulgefs_file_check(file: &[u8]) -> u32
    ensures { result ≡ file_refusal file.now }
{
    volume_file::check::refusal(file)
}

#[unsafe(no_mangle)]
pub extern "C" fn bulgefs_file_parts(file: &[u8]) -> volume_file::parts::Parts
    ensures { ◌≡◌ {A = PartsAnswer} (record { number = result.number; waits = result.waits; image_start = result.image_start; image_length = result.image_length; journal_start = result.journal_start; journal_length = result.journal_length; own_start = result.own_start; own_length = result.own_length }) (parts_of file.now) }
{
    volume_file::parts::parts_of(file)
}

#[unsafe(no_mangle)]
pub extern "C" fn bulgefs_file_prepare<'x>(
    file: &mut [u8],
    image: &'x [u8],
    journal: &'x [u8],
    own: &'x [u8],
) -> volume_file::saving::Prepared
    ensures answer { prepare_answered result.number result.sectors result.numbers_start result.numbers_length result.sectors_start result.sectors_length ≡ prepare_answer file.old image.now journal.now own.now }
    ensures file { file.new ≡ after_prepare file.old image.now journal.now own.now }
{
    volume_file::saving::prepare(file, image, journal, own)
}

#[unsafe(no_mangle)]
pub extern "C" fn bulgefs_file_commit(file: &mut [u8]) -> u32
    ensures number { result ≡ commit_refusal file.old }
    ensures file { file.new ≡ after_commit file.old }
{
    volume_file::saving::commit(file)
}

#[unsafe(no_mangle)]
pub extern "C" fn bulgefs_file_recover(file: &mut [u8]) -> volume_file::recovery::Recovered
    ensures answer { recover_answered result.number result.waited result.sectors ≡ recover_answer file.old }
    ensures file { file.new ≡ after_recover file.old }
{
    volume_file::recovery::recover(file)
}

#[unsafe(no_mangle)]
pub extern "C" fn bulgefs_file_home(file: &[u8], index: u32) -> volume_file::parts::Extent
    ensures { ◌≡◌ {A = Extent} (record { start = result.start; size = result.length }) (home_extent file.now index) }
{
    volume_file::parts::home_extent(file, index as usize)
}
