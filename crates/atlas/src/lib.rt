// Atlas files in the caller's memory (document 01, 'The atlas file'): a file is read into a table of places that the caller lends, and a
// sheet and such a table are written into a buffer that the caller lends.
//
// A function whose name ends in _unchecked is not offered to callers, as in trig.

#![tactic(auto)]

ghost use Rattle.std.specs.Prelude.{◌≡◌, true, [], ◌++◌, ◌+◌, ◌*◌, ◌≤◌, ◌<◌, length, get_or, take, drop};
ghost use Rattle.refusal.specs.Numbers.{accepted};
ghost use Rattle.refusal.specs.Rules.{in_order};
ghost use Rattle.sheet.specs.Sheets.{passes_checks, reply_of};
ghost use Rattle.place.specs.Places.{blank_place};
ghost use Rattle.atlas_file.specs.Steps.{most_places};
ghost use Rattle.atlas_file.specs.Reading.{file_reply_of, read_reply, places_read};
ghost use Rattle.atlas_file.specs.Writing.{place_records, file_of, file_length, places_rules, list_rules, write_reply};
ghost use Rattle.atlas.specs.Tables.{table_after, AcceptedFile};
ghost use Rattle.atlas.specs.Buffers.{write_reply_of, buffer_after};

mod places;

use atlas_file::{Atlas, FileRefusal, MOST_PLACES};
use place::Place;
pub use places::Places;
use records::{END_RECORD, PLACE_RECORD};
use refusal::Refusal;
use sheet::{CheckedSheet, Sheet};

// Reads a file into a table: the count and the sheet, with the places in the first entries and later entries unchanged; or the refusal and
// its offset, with the table untouched. No entry is stored before the whole file is accepted.
pub fn read(bytes: &[u8], table: &mut [Place]) -> Result<Atlas, FileRefusal>
    ensures { (file_reply_of result ≡ read_reply bytes.now (length table.old)) × (table.new ≡ table_after bytes.now table.old) }
{
    let atlas = atlas_file::read_through(bytes, table.len())?;
    let first = records::sheet_record_length(atlas.sheet);
    store_places(bytes, table, first, atlas.count);
    Ok(atlas)
}

// Stores the places of an accepted file in the first entries of a table.
fn store_places(bytes: &[u8], table: &mut [Place], first: usize, count: usize)
    requires { AcceptedFile bytes.now (length table.old) first × (count ≡ (read_reply bytes.now (length table.old)).count) }
    ensures { table.new ≡ table_after bytes.now table.old }
{
    let places = Places {
        bytes,
        first,
        count,
    };
    for k in 0..count {
        table::set_place_unchecked(table, k, places.place_unchecked(k));
    }
}

// The place at a position, counted from 0, of an accepted file whose first place's record starts at `first`; not offered to callers.
pub fn place_of_unchecked(bytes: &[u8], first: usize, position: usize) -> Place
    requires accepted_file { AcceptedFile bytes.now most_places first }
    requires position_bound { position < (read_reply bytes.now most_places).count }
    ensures { result ≡ get_or (places_read bytes.now most_places) position blank_place }
{
    let at = first + PLACE_RECORD * position;
    let end = at + PLACE_RECORD;
    records::decode_place_unchecked(&bytes[at..end])
}

// Writes a sheet and a table of places into a buffer, and answers the file's length: 4, 5, 10 if there are more than 1,000 places, each place
// in turn 6, 7, 8, 14, then 10 if the buffer is too short. A refusal leaves the buffer untouched. Bytes after the file are unchanged.
pub fn write(sheet: Sheet, table: &[Place], buffer: &mut [u8]) -> Result<usize, Refusal>
    ensures { (write_reply_of result ≡ write_reply sheet table.now (length buffer.old)) × (buffer.new ≡ buffer_after sheet table.now buffer.old) }
{
    check_list(sheet, table)?;
    let length = file_length(sheet, table.len());
    if buffer.len() < length {
        return Err(Refusal::NoRoom);
    }
    write_file(sheet, table, buffer);
    Ok(length)
}

// Whether a sheet and a table of places may be a file: 4, 5, 10, each place in turn 6, 7, 8, 14.
fn check_list(sheet: Sheet, table: &[Place]) -> Result<(), Refusal>
    ensures { reply_of result ≡ in_order 0 (list_rules sheet table.now) (accepted []) }
{
    let checked = CheckedSheet::new(sheet)?;
    if MOST_PLACES < table.len() {
        return Err(Refusal::NoRoom);
    }
    check_places(checked, table)
}

// Each place in turn: 6, 7, 8, 14.
fn check_places(checked: CheckedSheet, table: &[Place]) -> Result<(), Refusal>
    ensures { reply_of result ≡ in_order 0 (places_rules checked.sheet 0 0 table.now) (accepted []) }
{
    let mut last_id = 0;
    for k in 0..table.len() {
        let place = table::place_at_unchecked(table, k);
        place::check_place_on(checked, k, last_id, place)?;
        last_id = place.id;
    }
    Ok(())
}

// The length of a file with so many places.
fn file_length(sheet: Sheet, count: usize) -> usize
    requires { count ≤ most_places }
    ensures { result ≡ file_length sheet count }
{
    records::sheet_record_length(sheet) + PLACE_RECORD * count + END_RECORD
}

// Sets each record into its own part of the buffer.
fn write_file(sheet: Sheet, table: &[Place], buffer: &mut [u8])
    requires { (length table.now ≤ most_places) × (file_length sheet (length table.now) ≤ length buffer.old) }
    ensures { buffer.new ≡ file_of sheet table.now ++ drop (file_length sheet (length table.now)) buffer.old }
{
    let first = records::sheet_record_length(sheet);
    records::write_sheet_unchecked(&mut buffer[..first], sheet);
    let at = write_places(table, buffer, first);
    let end = at + END_RECORD;
    let count = table.len() as u32;
    records::write_end_unchecked(&mut buffer[at..end], count);
}

// Sets the record of each place into its own part of the buffer, the first at `first`. Gives the position after the last.
// No plainer: by chunks_exact_mut a proof would know the buffer's length alone.
fn write_places(table: &[Place], buffer: &mut [u8], first: usize) -> usize
    requires { first + 37 * length table.now ≤ length buffer.old }
    ensures { (result ≡ first + 37 * length table.now) × (buffer.new ≡ take first buffer.old ++ place_records table.now ++ drop result buffer.old) }
{
    let mut at = first;
    for k in 0..table.len() {
        let end = at + PLACE_RECORD;
        let place = table::place_at_unchecked(table, k);
        records::write_place_unchecked(&mut buffer[at..end], place);
        at = end;
    }
    at
}
