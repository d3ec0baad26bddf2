// The C library: each entry point is the call of that name of the library `bulgefs`, with its contract, exported from a static library. Nothing is asked of the
// caller but buffers that do not overlap; include/bulgefs.h documents them for C.
#![tactic(auto)]

ghost use Rattle.std.specs.Prelude.{◌+◌, ◌≡◌};
ghost use Rattle.layout.specs.Check.{check};
ghost use Rattle.layout.specs.Looks.{LookupAnswer, ReadAnswer, Extent, lookup, read, extent_of, read_attributes, volume_info, next_entry};
ghost use Rattle.layout.specs.Answers.{volume_answer, entry_answer};
ghost use Rattle.store.specs.Change.{create, write, delete, create_directory, delete_directory, set_attributes, clear_attributes, clear_flags, shorten, replace, move, put_in, put};
ghost use Rattle.store.specs.Get.{the_latest, the_number, got_answer, get_in, get};
ghost use Rattle.volume.specs.Format.{format_refusal, formatted};
ghost use Rattle.chain_table.specs.Transfer.{load_table, store_table};
ghost use Rattle.append.specs.Append.{after_append, append_answer};
ghost use Rattle.write_list.specs.List.{listed, write_list};
ghost use Rattle.back.specs.Marks.{info, journal_info};
ghost use Rattle.back.specs.UndoTo.{backed, undo_to};
ghost use Rattle.volume_file.specs.Format.{file_size, file_refusal};
ghost use Rattle.volume_file.specs.Begin.{begin_refusal, after_begin};
ghost use Rattle.volume_file.specs.Save.{after_prepare, commit_refusal, after_commit, after_recover};
ghost use Rattle.volume_file.specs.Answers.{PartsAnswer, parts_of, prepare_answered, prepare_answer, recover_answered, recover_answer, home_extent};
ghost use Rattle.salvage.specs.Salvage.{SalvageAnswer, salvage};
ghost use Rattle.salvage_tree.specs.SalvageTree.{TreeAnswer, salvage_tree};
ghost use Rattle.journal.specs.Journal.{start_refusal, after_start};
ghost use Rattle.bulgefs.specs.Version.{version};
ghost use Rattle.journal.specs.Run.{state, changed, undone, change_answer, after_change, undo_answer, after_undo};

// The version of the library: the header's BULGEFS_VERSION.
#[unsafe(no_mangle)]
pub extern "C" fn bulgefs_version() -> u32
    ensures { result ≡ version }
{
    bulgefs::bulgefs_version()
}

#[unsafe(no_mangle)]
pub extern "C" fn bulgefs_check(image: &[u8]) -> u32
    ensures { result ≡ check image.now }
{
    bulgefs::bulgefs_check(image)
}

#[unsafe(no_mangle)]
pub extern "C" fn bulgefs_plain_check(image: &[u8]) -> u32
    ensures { result ≡ check image.now }
{
    bulgefs::bulgefs_plain_check(image)
}

#[unsafe(no_mangle)]
pub extern "C" fn bulgefs_lookup(image: &[u8], path: &[u8]) -> bulgefs::Found
    ensures { ◌≡◌ {A = LookupAnswer} (record { number = result.number; slot = result.slot; size = result.size; blocks = result.blocks }) (lookup image.now path.now) }
{
    bulgefs::bulgefs_lookup(image, path)
}

#[unsafe(no_mangle)]
pub extern "C" fn bulgefs_read(
    image: &[u8],
    path: &[u8],
    offset: u64,
    buffer: &mut [u8],
) -> bulgefs::Filled
    ensures { ◌≡◌ {A = ReadAnswer} (record { number = result.number; count = result.count; buffer = buffer.new }) (read image.now path.now offset buffer.old) }
{
    bulgefs::bulgefs_read(image, path, offset, buffer)
}

// A reader's read: C keeps the position, and lends it to each call. Image and path are lent for one lifetime, as a reader holds them.
#[unsafe(no_mangle)]
pub extern "C" fn bulgefs_read_next<'x>(
    image: &'x [u8],
    path: &'x [u8],
    position: &mut u64,
    buffer: &mut [u8],
) -> bulgefs::Filled
    ensures answer { ◌≡◌ {A = ReadAnswer} (record { number = result.number; count = result.count; buffer = buffer.new }) (read image.now path.now position.old buffer.old) }
    ensures position { position.new ≡ position.old + result.count }
{
    bulgefs::bulgefs_read_next(image, path, position, buffer)
}

#[unsafe(no_mangle)]
pub extern "C" fn bulgefs_read_attributes(
    image: &[u8],
    path: &[u8],
    buffer: &mut [u8],
) -> bulgefs::Filled
    ensures { ◌≡◌ {A = ReadAnswer} (record { number = result.number; count = result.count; buffer = buffer.new }) (read_attributes image.now path.now buffer.old) }
{
    bulgefs::bulgefs_read_attributes(image, path, buffer)
}

#[unsafe(no_mangle)]
pub extern "C" fn bulgefs_look_in_place(image: &[u8], path: &[u8], index: u64) -> bulgefs::Part
    ensures { ◌≡◌ {A = Extent} (record { start = result.start; size = result.length }) (extent_of image.now path.now index) }
{
    bulgefs::bulgefs_look_in_place(image, path, index)
}

// Structs of numbers are handed on as the layout gives them.
#[unsafe(no_mangle)]
pub extern "C" fn bulgefs_info(image: &[u8], labels: &mut [u8]) -> layout::overview::VolumeInfo
    ensures { volume_answer result labels.new ≡ volume_info image.now labels.old }
{
    bulgefs::bulgefs_info(image, labels)
}

#[unsafe(no_mangle)]
pub extern "C" fn bulgefs_entry(
    image: &[u8],
    path: &[u8],
    slot: u32,
    name: &mut [u8],
) -> layout::overview::EntryInfo
    ensures { entry_answer result name.new ≡ next_entry image.now path.now slot name.old }
{
    bulgefs::bulgefs_entry(image, path, slot, name)
}

#[unsafe(no_mangle)]
pub extern "C" fn bulgefs_format(
    image: &mut [u8],
    root_blocks: u32,
    time: u64,
    uuid: bulgefs::Uuid,
    name: &[u8],
) -> u32
    ensures number { result ≡ format_refusal image.old root_blocks name.now }
    ensures bytes { image.new ≡ formatted image.old root_blocks uuid.bytes name.now time }
{
    bulgefs::bulgefs_format(image, root_blocks, time, uuid, name)
}

#[unsafe(no_mangle)]
pub extern "C" fn bulgefs_journal_start(journal: &mut [u8]) -> u32
    ensures number { result ≡ start_refusal journal.old }
    ensures bytes { journal.new ≡ after_start journal.old }
{
    bulgefs::bulgefs_journal_start(journal)
}

#[unsafe(no_mangle)]
pub extern "C" fn bulgefs_salvage(image: &mut [u8], report: &mut [u8]) -> u32
    ensures { ◌≡◌ {A = SalvageAnswer} (record { number = result; image = image.new; report = report.new }) (salvage image.old report.old) }
{
    bulgefs::bulgefs_salvage(image, report)
}

#[unsafe(no_mangle)]
pub extern "C" fn bulgefs_salvage_tree(image: &mut [u8], report: &mut [u8]) -> bulgefs::Salvaged
    ensures { ◌≡◌ {A = TreeAnswer} (record { number = result.number; zeroed = result.dropped; freed = result.freed; image = image.new; report = report.new }) (salvage_tree image.old report.old) }
{
    bulgefs::bulgefs_salvage_tree(image, report)
}

#[unsafe(no_mangle)]
pub extern "C" fn bulgefs_create(
    image: &mut [u8],
    journal: &mut [u8],
    path: &[u8],
    kind: u8,
    user: u8,
    group: u8,
    permissions: u8,
    flags: u32,
    time: u64,
) -> bulgefs::Created
    ensures answer { changed result.number result.slot result.size ≡ change_answer (state image.old journal.old) (create path.now kind user group permissions flags time) }
    ensures state { state image.new journal.new ≡ after_change (state image.old journal.old) (create path.now kind user group permissions flags time) }
{
    bulgefs::bulgefs_create(
        image,
        journal,
        path,
        kind,
        user,
        group,
        permissions,
        flags,
        time,
    )
}

#[unsafe(no_mangle)]
pub extern "C" fn bulgefs_write(
    image: &mut [u8],
    journal: &mut [u8],
    path: &[u8],
    offset: u64,
    bytes: &[u8],
    time: u64,
) -> bulgefs::Changed
    ensures answer { changed result.number 0 result.size ≡ change_answer (state image.old journal.old) (write path.now offset bytes.now time) }
    ensures state { state image.new journal.new ≡ after_change (state image.old journal.old) (write path.now offset bytes.now time) }
{
    bulgefs::bulgefs_write(image, journal, path, offset, bytes, time)
}

#[unsafe(no_mangle)]
pub extern "C" fn bulgefs_delete(
    image: &mut [u8],
    journal: &mut [u8],
    path: &[u8],
) -> bulgefs::Changed
    ensures answer { changed result.number 0 result.size ≡ change_answer (state image.old journal.old) (delete path.now) }
    ensures state { state image.new journal.new ≡ after_change (state image.old journal.old) (delete path.now) }
{
    bulgefs::bulgefs_delete(image, journal, path)
}

#[unsafe(no_mangle)]
pub extern "C" fn bulgefs_create_directory(
    image: &mut [u8],
    journal: &mut [u8],
    path: &[u8],
    kind: u8,
    user: u8,
    group: u8,
    permissions: u8,
    flags: u32,
    blocks: u32,
    time: u64,
) -> bulgefs::Created
    ensures answer { changed result.number result.slot result.size ≡ change_answer (state image.old journal.old) (create_directory path.now kind user group permissions flags time blocks) }
    ensures state { state image.new journal.new ≡ after_change (state image.old journal.old) (create_directory path.now kind user group permissions flags time blocks) }
{
    bulgefs::bulgefs_create_directory(
        image,
        journal,
        path,
        kind,
        user,
        group,
        permissions,
        flags,
        blocks,
        time,
    )
}

#[unsafe(no_mangle)]
pub extern "C" fn bulgefs_delete_directory(
    image: &mut [u8],
    journal: &mut [u8],
    path: &[u8],
) -> bulgefs::Changed
    ensures answer { changed result.number 0 result.size ≡ change_answer (state image.old journal.old) (delete_directory path.now) }
    ensures state { state image.new journal.new ≡ after_change (state image.old journal.old) (delete_directory path.now) }
{
    bulgefs::bulgefs_delete_directory(image, journal, path)
}

#[unsafe(no_mangle)]
pub extern "C" fn bulgefs_set_attributes(
    image: &mut [u8],
    journal: &mut [u8],
    path: &[u8],
    bytes: &[u8],
) -> bulgefs::Changed
    ensures answer { changed result.number 0 result.size ≡ change_answer (state image.old journal.old) (set_attributes path.now bytes.now) }
    ensures state { state image.new journal.new ≡ after_change (state image.old journal.old) (set_attributes path.now bytes.now) }
{
    bulgefs::bulgefs_set_attributes(image, journal, path, bytes)
}

#[unsafe(no_mangle)]
pub extern "C" fn bulgefs_clear_attributes(
    image: &mut [u8],
    journal: &mut [u8],
    path: &[u8],
) -> bulgefs::Changed
    ensures answer { changed result.number 0 result.size ≡ change_answer (state image.old journal.old) (clear_attributes path.now) }
    ensures state { state image.new journal.new ≡ after_change (state image.old journal.old) (clear_attributes path.now) }
{
    bulgefs::bulgefs_clear_attributes(image, journal, path)
}

#[unsafe(no_mangle)]
pub extern "C" fn bulgefs_clear_flags(
    image: &mut [u8],
    journal: &mut [u8],
    path: &[u8],
) -> bulgefs::Changed
    ensures answer { changed result.number 0 result.size ≡ change_answer (state image.old journal.old) (clear_flags path.now) }
    ensures state { state image.new journal.new ≡ after_change (state image.old journal.old) (clear_flags path.now) }
{
    bulgefs::bulgefs_clear_flags(image, journal, path)
}

#[unsafe(no_mangle)]
pub extern "C" fn bulgefs_shorten(
    image: &mut [u8],
    journal: &mut [u8],
    path: &[u8],
    size: u64,
    time: u64,
) -> bulgefs::Changed
    ensures answer { changed result.number 0 result.size ≡ change_answer (state image.old journal.old) (shorten path.now size time) }
    ensures state { state image.new journal.new ≡ after_change (state image.old journal.old) (shorten path.now size time) }
{
    bulgefs::bulgefs_shorten(image, journal, path, size, time)
}

#[unsafe(no_mangle)]
pub extern "C" fn bulgefs_replace(
    image: &mut [u8],
    journal: &mut [u8],
    path: &[u8],
    bytes: &[u8],
    time: u64,
) -> bulgefs::Changed
    ensures answer { changed result.number 0 result.size ≡ change_answer (state image.old journal.old) (replace path.now bytes.now time) }
    ensures state { state image.new journal.new ≡ after_change (state image.old journal.old) (replace path.now bytes.now time) }
{
    bulgefs::bulgefs_replace(image, journal, path, bytes, time)
}

#[unsafe(no_mangle)]
pub extern "C" fn bulgefs_move(
    image: &mut [u8],
    journal: &mut [u8],
    path: &[u8],
    to: &[u8],
) -> bulgefs::Created
    ensures answer { changed result.number result.slot result.size ≡ change_answer (state image.old journal.old) (move path.now to.now) }
    ensures state { state image.new journal.new ≡ after_change (state image.old journal.old) (move path.now to.now) }
{
    bulgefs::bulgefs_move(image, journal, path, to)
}

// The slot of a put's answer is the revision's number.
#[unsafe(no_mangle)]
pub extern "C" fn bulgefs_put_settings(
    image: &mut [u8],
    journal: &mut [u8],
    serial: &[u8],
    bytes: &[u8],
    time: u64,
) -> bulgefs::Created
    ensures answer { changed result.number result.slot result.size ≡ change_answer (state image.old journal.old) (put serial.now time bytes.now) }
    ensures state { state image.new journal.new ≡ after_change (state image.old journal.old) (put serial.now time bytes.now) }
{
    bulgefs::bulgefs_put_settings(image, journal, serial, bytes, time)
}

#[unsafe(no_mangle)]
pub extern "C" fn bulgefs_get_settings(
    image: &[u8],
    serial: &[u8],
    revision: u32,
    buffer: &mut [u8],
) -> store::get::Got
    ensures { got_answer result.number result.revision result.length buffer.new ≡ get image.now serial.now (the_number revision) buffer.old }
{
    bulgefs::bulgefs_get_settings(image, serial, revision, buffer)
}

#[unsafe(no_mangle)]
pub extern "C" fn bulgefs_get_latest_settings(
    image: &[u8],
    serial: &[u8],
    buffer: &mut [u8],
) -> store::get::Got
    ensures { got_answer result.number result.revision result.length buffer.new ≡ get image.now serial.now the_latest buffer.old }
{
    bulgefs::bulgefs_get_latest_settings(image, serial, buffer)
}

// The same calls in a directory, `/` for the root.
#[unsafe(no_mangle)]
pub extern "C" fn bulgefs_put_settings_in(
    image: &mut [u8],
    journal: &mut [u8],
    directory: &[u8],
    serial: &[u8],
    bytes: &[u8],
    time: u64,
) -> bulgefs::Created
    ensures answer { changed result.number result.slot result.size ≡ change_answer (state image.old journal.old) (put_in directory.now serial.now time bytes.now) }
    ensures state { state image.new journal.new ≡ after_change (state image.old journal.old) (put_in directory.now serial.now time bytes.now) }
{
    bulgefs::bulgefs_put_settings_in(image, journal, directory, serial, bytes, time)
}

#[unsafe(no_mangle)]
pub extern "C" fn bulgefs_get_settings_in(
    image: &[u8],
    directory: &[u8],
    serial: &[u8],
    revision: u32,
    buffer: &mut [u8],
) -> store::get::Got
    ensures { got_answer result.number result.revision result.length buffer.new ≡ get_in image.now directory.now serial.now (the_number revision) buffer.old }
{
    bulgefs::bulgefs_get_settings_in(image, directory, serial, revision, buffer)
}

#[unsafe(no_mangle)]
pub extern "C" fn bulgefs_get_latest_settings_in(
    image: &[u8],
    directory: &[u8],
    serial: &[u8],
    buffer: &mut [u8],
) -> store::get::Got
    ensures { got_answer result.number result.revision result.length buffer.new ≡ get_in image.now directory.now serial.now the_latest buffer.old }
{
    bulgefs::bulgefs_get_latest_settings_in(image, directory, serial, buffer)
}

#[unsafe(no_mangle)]
pub extern "C" fn bulgefs_undo(image: &mut [u8], journal: &mut [u8]) -> bulgefs::Changed
    ensures answer { undone result.number result.size ≡ undo_answer (state image.old journal.old) }
    ensures state { state image.new journal.new ≡ after_undo (state image.old journal.old) }
{
    bulgefs::bulgefs_undo(image, journal)
}

#[unsafe(no_mangle)]
pub extern "C" fn bulgefs_undo_to(
    image: &mut [u8],
    journal: &mut [u8],
    mark: u32,
) -> back::call::Backed
    ensures { backed (state image.new journal.new) result.number result.done ≡ undo_to (state image.old journal.old) mark }
{
    bulgefs::bulgefs_undo_to(image, journal, mark)
}

#[unsafe(no_mangle)]
pub extern "C" fn bulgefs_journal_info<'x>(image: &'x [u8], journal: &'x [u8]) -> back::call::Info
    ensures { info result.number result.used result.records result.last ≡ journal_info (state image.now journal.now) }
{
    bulgefs::bulgefs_journal_info(image, journal)
}

#[unsafe(no_mangle)]
pub extern "C" fn bulgefs_append(
    image: &mut [u8],
    journal: &mut [u8],
    path: &[u8],
    piece: &[u8],
    time: u64,
) -> bulgefs::Changed
    ensures answer { changed result.number 0 result.size ≡ append_answer (state image.old journal.old) path.now piece.now time }
    ensures state { state image.new journal.new ≡ after_append (state image.old journal.old) path.now piece.now time }
{
    bulgefs::bulgefs_append(image, journal, path, piece, time)
}

#[unsafe(no_mangle)]
pub extern "C" fn bulgefs_write_list(
    image: &mut [u8],
    journal: &mut [u8],
    list: &[u8],
) -> bulgefs::Listed
    ensures { listed (state image.new journal.new) result.number result.done ≡ write_list (state image.old journal.old) list.now }
{
    bulgefs::bulgefs_write_list(image, journal, list)
}

#[unsafe(no_mangle)]
pub extern "C" fn bulgefs_load_table(image: &[u8], entries: &mut [u32]) -> u32
    ensures number { result ≡ (load_table image.now entries.old).number }
    ensures entries { entries.new ≡ (load_table image.now entries.old).numbers }
{
    bulgefs::bulgefs_load_table(image, entries)
}

#[unsafe(no_mangle)]
pub extern "C" fn bulgefs_store_table(image: &mut [u8], entries: &[u32]) -> u32
    ensures number { result ≡ (store_table image.old entries.now).number }
    ensures image { image.new ≡ (store_table image.old entries.now).image }
{
    bulgefs::bulgefs_store_table(image, entries)
}

// The calls on a volume file: the whole file in memory, which the caller reads and writes.
#[unsafe(no_mangle)]
pub extern "C" fn bulgefs_file_size(
    image_sectors: u32,
    journal_sectors: u32,
    own_sectors: u32,
) -> u64
    ensures { result ≡ file_size image_sectors journal_sectors own_sectors }
{
    bulgefs::bulgefs_file_size(image_sectors, journal_sectors, own_sectors)
}

#[unsafe(no_mangle)]
pub extern "C" fn bulgefs_file_begin(
    file: &mut [u8],
    image_sectors: u32,
    journal_sectors: u32,
    own_sectors: u32,
) -> u32
    ensures number { result ≡ begin_refusal file.old image_sectors journal_sectors own_sectors }
    ensures file { file.new ≡ after_begin file.old image_sectors journal_sectors own_sectors }
{
    bulgefs::bulgefs_file_begin(file, image_sectors, journal_sectors, own_sectors)
}

#[unsafe(no_mangle)]
pub extern "C" fn bulgefs_file_check(file: &[u8]) -> u32
    ensures { result ≡ file_refusal file.now }
{
    bulgefs::bulgefs_file_check(file)
}

#[unsafe(no_mangle)]
pub extern "C" fn bulgefs_file_parts(file: &[u8]) -> volume_file::parts::Parts
    ensures { ◌≡◌ {A = PartsAnswer} (record { number = result.number; waits = result.waits; image_start = result.image_start; image_length = result.image_length; journal_start = result.journal_start; journal_length = result.journal_length; own_start = result.own_start; own_length = result.own_length }) (parts_of file.now) }
{
    bulgefs::bulgefs_file_parts(file)
}

#[unsafe(no_mangle)]
pub extern "C" fn bulgefs_file_prepare<'x>(
    file: &mut [u8],
    image: &'x [u8],
    journal: &'x [u8],
    own: &'x [u8],
) -> volume_file::saving::Prepared
    ensures answer { prepare_answered result.number result.sectors result.numbers_start result.numbers_length result.sectors_start result.sectors_length ≡ prepare_answer file.old image.now journal.now own.now }
    ensures file { file.new ≡ after_prepare file.old image.now journal.now own.now }
{
    bulgefs::bulgefs_file_prepare(file, image, journal, own)
}

#[unsafe(no_mangle)]
pub extern "C" fn bulgefs_file_commit(file: &mut [u8]) -> u32
    ensures number { result ≡ commit_refusal file.old }
    ensures file { file.new ≡ after_commit file.old }
{
    bulgefs::bulgefs_file_commit(file)
}

#[unsafe(no_mangle)]
pub extern "C" fn bulgefs_file_recover(file: &mut [u8]) -> volume_file::recovery::Recovered
    ensures answer { recover_answered result.number result.waited result.sectors ≡ recover_answer file.old }
    ensures file { file.new ≡ after_recover file.old }
{
    bulgefs::bulgefs_file_recover(file)
}

#[unsafe(no_mangle)]
pub extern "C" fn bulgefs_file_home(file: &[u8], index: u32) -> volume_file::parts::Extent
    ensures { ◌≡◌ {A = Extent} (record { start = result.start; size = result.length }) (home_extent file.now index) }
{
    bulgefs::bulgefs_file_home(file, index)
}
