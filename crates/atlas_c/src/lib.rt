// The C interface, over numbers and byte slices; include/atlas.h is its header. A slice is a pointer and a length there.
//
// A function that can refuse gives the refusal's number, 0 where it accepts; on refusal its out-parameters are untouched. A sheet goes in and
// out as its record's bytes.

#![tactic(auto)]

ghost use Rattle.std.specs.Prelude.{◌≡◌, true, [], ◌∷◌, ◌++◌, map, ◌*◌, ◌≤◌, pos, length, drop, ◌/◌, ℤ};
ghost use Rattle.refusal.specs.Numbers.{number_of, Reply};
ghost use Rattle.records.specs.Records.{IsRecord};
ghost use Rattle.records.specs.declared.Record.TheVariants as records;
ghost use Rattle.conic.specs.Conic as forward;
ghost use Rattle.conic.specs.Conic.{map_reply_of};
ghost use Rattle.conic.specs.MapToGlobe as inverse;
ghost use Rattle.conic.specs.MapToGlobe.{globe_reply_of};
ghost use Rattle.nearest.specs.Taps.{usual_reach};
ghost use Rattle.atlas_file.specs.Reading.{file_reply_of};
ghost use Rattle.lookup_all.specs.Positions.{positions_after};
ghost use Rattle.atlas_c.specs.Given.{as_sheet, given, or_untouched, file_reply, count_reply, sheet_reply, sheet_after, place_reply, nearest_reply, in_reach_reply, sheet_in, forward_reply, inverse_reply, each_answer_of, each_answers, sheet_for_each, forward_each_reply, inverse_each_reply};

use atlas_file::{Atlas, FileRefusal, Found, MOST_PLACES};
use conic::{InverseProjection, MapPoint, Position};
use nearest::USUAL_REACH;
use records::Record;
use refusal::Refusal;
use sheet::CheckedSheet;

// Whether a file is good.
#[unsafe(no_mangle)]
pub extern "C" fn atlas_check(file: &[u8]) -> u32
    ensures { result ≡ (file_reply file.now).number }
{
    match read_file(file) {
        Ok(_) => 0,
        Err(why) => number(why.refusal),
    }
}

// Where a file is refused.
#[unsafe(no_mangle)]
pub extern "C" fn atlas_refused_at(file: &[u8]) -> usize
    ensures { result ≡ (file_reply file.now).offset }
{
    match read_file(file) {
        Ok(_) => 0,
        Err(why) => why.offset,
    }
}

// How many places a file has.
#[unsafe(no_mangle)]
pub extern "C" fn atlas_count(file: &[u8], count: &mut usize) -> u32
    ensures { given result (pos count.new ∷ []) ≡ or_untouched (count_reply file.now) (pos count.old ∷ []) }
{
    match read_file(file) {
        Ok(atlas) => {
            *count = atlas.count;
            0
        }
        Err(why) => number(why.refusal),
    }
}

// The record of a file's sheet, into a buffer, and its length.
#[unsafe(no_mangle)]
pub extern "C" fn atlas_sheet(file: &[u8], sheet: &mut [u8], sheet_length: &mut usize) -> u32
    ensures sheet_length_after { given result (pos sheet_length.new ∷ []) ≡ or_untouched (sheet_reply file.now (length sheet.old)) (pos sheet_length.old ∷ []) }
    ensures sheet_after { sheet.new ≡ sheet_after file.now sheet.old }
{
    match read_file(file) {
        Ok(atlas) => {
            let length = records::sheet_record_length(atlas.sheet);
            if sheet.len() < length {
                return number(Refusal::NoRoom);
            }
            records::write_sheet_unchecked(&mut sheet[..length], atlas.sheet);
            *sheet_length = length;
            0
        }
        Err(why) => number(why.refusal),
    }
}

// The place at an index of a file.
#[unsafe(no_mangle)]
pub extern "C" fn atlas_place(
    file: &[u8],
    index: usize,
    id: &mut u32,
    latitude: &mut i32,
    longitude: &mut i32,
    x: &mut i32,
    y: &mut i32,
    name: &mut [u8; 16],
) -> u32
    ensures { given result (pos id.new ∷ latitude.new ∷ longitude.new ∷ x.new ∷ y.new ∷ map pos name.new)
        ≡ or_untouched (place_reply file.now index) (pos id.old ∷ latitude.old ∷ longitude.old ∷ x.old ∷ y.old ∷ map pos name.old) }
{
    let answer = lookup::place_at(file, index);
    match answer {
        Ok(found) => {
            let place = found.place;
            *id = place.id;
            let place_latitude = place.latitude;
            *latitude = place_latitude;
            let place_longitude = place.longitude;
            *longitude = place_longitude;
            let place_x = place.x;
            *x = place_x;
            let place_y = place.y;
            *y = place_y;
            let bytes = place.name;
            *name = bytes;
            0
        }
        Err(why) => number(why.refusal),
    }
}

// The index of the place of a file that is nearest to a tap.
#[unsafe(no_mangle)]
pub extern "C" fn atlas_nearest(file: &[u8], x: i64, y: i64, reach: i64, index: &mut usize) -> u32
    ensures { given result (pos index.new ∷ []) ≡ or_untouched (nearest_reply file.now x y reach) (pos index.old ∷ []) }
{
    let answer = lookup::nearest_place(file, x, y, reach);
    match answer {
        Ok(found) => {
            *index = found.position;
            0
        }
        Err(why) => number(why.refusal),
    }
}

// The indexes of the places of a file within the reach of a tap, nearest first, and their count.
#[unsafe(no_mangle)]
pub extern "C" fn atlas_places_in_reach(
    file: &[u8],
    x: i64,
    y: i64,
    reach: i64,
    indexes: &mut [usize],
    count: &mut usize,
) -> u32
    ensures count_after { given result (pos count.new ∷ []) ≡ or_untouched (in_reach_reply file.now x y reach (length indexes.old)) (pos count.old ∷ []) }
    ensures indexes_after { indexes.new ≡ positions_after file.now x y reach indexes.old }
{
    let answer = lookup_all::positions_in_reach(file, x, y, reach, indexes);
    match answer {
        Ok(listed) => {
            *count = listed;
            0
        }
        Err(why) => number(why.refusal),
    }
}

// The usual reach of a tap.
#[unsafe(no_mangle)]
pub extern "C" fn atlas_usual_reach() -> i64
    ensures { result ≡ usual_reach }
{
    USUAL_REACH
}

// From globe to map: the map point of a position on a sheet.
#[unsafe(no_mangle)]
pub extern "C" fn atlas_forward(
    sheet: &[u8],
    latitude: i64,
    longitude: i64,
    x: &mut i64,
    y: &mut i64,
) -> u32
    ensures { given result (x.new ∷ y.new ∷ []) ≡ or_untouched (forward_reply sheet.now latitude longitude) (x.old ∷ y.old ∷ []) }
{
    match forward_of(sheet, latitude, longitude) {
        Ok(point) => {
            *x = point.x;
            *y = point.y;
            0
        }
        Err(r) => number(r),
    }
}

// The same for many positions on one sheet, which is checked once: latitude, longitude, ..; three numbers are answered to each.
#[unsafe(no_mangle)]
pub extern "C" fn atlas_forward_each(sheet: &[u8], positions: &[i64], answers: &mut [i64]) -> u32
    ensures { given result answers.new ≡ forward_each_reply sheet.now positions.now answers.old }
{
    match sheet_for_each(sheet, positions.len(), answers.len()) {
        Ok(checked) => {
            answer_each(&ForwardProjection { checked }, positions, answers);
            0
        }
        Err(r) => number(r),
    }
}

// From map to globe: the position of a point of a sheet's map.
#[unsafe(no_mangle)]
pub extern "C" fn atlas_inverse(
    sheet: &[u8],
    x: i64,
    y: i64,
    latitude: &mut i64,
    longitude: &mut i64,
) -> u32
    ensures { given result (latitude.new ∷ longitude.new ∷ []) ≡ or_untouched (inverse_reply sheet.now x y) (latitude.old ∷ longitude.old ∷ []) }
{
    match inverse_of(sheet, x, y) {
        Ok(position) => {
            *latitude = position.latitude;
            *longitude = position.longitude;
            0
        }
        Err(r) => number(r),
    }
}

// The same for many points on one sheet, which is checked once: x, y, ..; three numbers are answered to each.
#[unsafe(no_mangle)]
pub extern "C" fn atlas_inverse_each(sheet: &[u8], points: &[i64], answers: &mut [i64]) -> u32
    ensures { given result answers.new ≡ inverse_each_reply sheet.now points.now answers.old }
{
    match sheet_for_each(sheet, points.len(), answers.len()) {
        Ok(checked) => {
            answer_each(&InverseProjection::new(checked), points, answers);
            0
        }
        Err(r) => number(r),
    }
}

// Reads a file through, with room for as many places as a file can have.
fn read_file(file: &[u8]) -> Result<Atlas, FileRefusal>
    ensures { file_reply_of result ≡ file_reply file.now }
{
    atlas_file::read_through(file, MOST_PLACES)
}

// A refusal's number, as the C interface gives it.
fn number(r: Refusal) -> u32
    ensures { result ≡ number_of r }
{
    refusal::number(r) as u32
}

// Bytes as a sheet: refused as the first record of a file is, then 3 if bytes follow it. One whole record of a good sheet, which is what an app has,
// is taken without a reader's state.
fn sheet_in(bytes: &[u8]) -> Result<CheckedSheet, Refusal>
    ensures { as_sheet result ≡ sheet_in bytes.now }
{
    if is_sheet_record(bytes) {
        // Checked where it lies: the copy that CheckedSheet::new gives would be read in pieces that were not written as one, which takes time.
        let sheet = records::decode_sheet_unchecked(bytes);
        if let Ok(()) = sheet::check(sheet) {
            return Ok(CheckedSheet { sheet });
        }
    }
    first_sheet(bytes)
}

// Whether the bytes are one whole record of a sheet.
fn is_sheet_record(bytes: &[u8]) -> bool
    ensures { result ≡ true → IsRecord records.Sheet bytes.now }
{
    if bytes.is_empty() {
        return false;
    }
    match Record::try_from(bytes[0]) {
        Ok(Record::Sheet) => bytes.len() - 1 == Record::Sheet.body(),
        _ => false,
    }
}

// The same by a reader's first step. A place and the end are not due first.
fn first_sheet(bytes: &[u8]) -> Result<CheckedSheet, Refusal>
    ensures { as_sheet result ≡ sheet_in bytes.now }
{
    let advance = match atlas_file::step(bytes, atlas_file::start(0)) {
        Ok(advance) => advance,
        Err(why) => return Err(why.refusal),
    };
    match advance.found {
        Found::Sheet(sheet) => {
            if advance.next.at != bytes.len() {
                return Err(Refusal::TrailingBytes);
            }
            Ok(CheckedSheet { sheet })
        }
        Found::Place(_) | Found::End { count: _ } => Err(Refusal::Kind),
    }
}

// The sheet on which pairs of numbers are answered, by three numbers each: refused as the sheet is, then 12 if a first number has no second, then
// 10 if there is no room for the answers.
fn sheet_for_each(bytes: &[u8], numbers: usize, room: usize) -> Result<CheckedSheet, Refusal>
    ensures { as_sheet result ≡ sheet_for_each (sheet_in bytes.now) numbers room }
{
    let checked = sheet_in(bytes)?;
    if numbers % 2 != 0 {
        return Err(Refusal::OutOfRange);
    }
    if room / 3 < numbers / 2 {
        return Err(Refusal::NoRoom);
    }
    Ok(checked)
}

// Forward on the sheet whose record the bytes are. (No plainer as one function with inverse_of: they answer two types.)
fn forward_of(bytes: &[u8], latitude: i64, longitude: i64) -> Result<MapPoint, Refusal>
    ensures { map_reply_of result ≡ forward_reply bytes.now latitude longitude }
{
    conic::forward_on(&sheet_in(bytes)?, latitude, longitude)
}

// Inverse on the sheet whose record the bytes are.
fn inverse_of(bytes: &[u8], x: i64, y: i64) -> Result<Position, Refusal>
    ensures { globe_reply_of result ≡ inverse_reply bytes.now x y }
{
    conic::inverse_on(sheet_in(bytes)?, x, y)
}

// One of the two ways on one sheet: three numbers are answered to a pair of numbers, the refusal's and the two values.
trait Projection {
    ghost reply: { Self → ℤ → ℤ → Reply };

    fn answer(&self, first: i64, second: i64) -> [i64; 3]
        ensures { result ≡ each_answer_of (reply self.now first second) };
}

// From globe to map.
#[derive(Clone, Copy)]
struct ForwardProjection {
    checked: CheckedSheet,
}

impl Projection for ForwardProjection {
    ghost reply = { λ p. forward.forward_reply p.checked.sheet };

    fn answer(&self, latitude: i64, longitude: i64) -> [i64; 3] {
        match conic::forward_on(&self.checked, latitude, longitude) {
            Ok(point) => [0, point.x, point.y],
            Err(r) => [number(r) as i64, 0, 0],
        }
    }
}

// From map to globe.
impl Projection for InverseProjection {
    ghost reply = { λ p. inverse.inverse_reply p.checked.sheet };

    fn answer(&self, x: i64, y: i64) -> [i64; 3] {
        match self.position(x, y) {
            Ok(position) => [0, position.latitude, position.longitude],
            Err(r) => [number(r) as i64, 0, 0],
        }
    }
}

// Sets the answers to pairs of numbers, each into its own three places of the slice.
fn answer_each<P: Projection>(projection: &P, pairs: &[i64], answers: &mut [i64])
    requires { length pairs.now / 2 ≤ length answers.old / 3 }
    ensures { answers.new ≡ each_answers (P.reply projection.now) pairs.now (length pairs.now / 2) ++ drop (3 * (length pairs.now / 2)) answers.old }
{
    for k in 0..pairs.len() / 2 {
        let answer = projection.answer(pairs[2 * k], pairs[2 * k + 1]);
        let at = 3 * k;
        answers[at..at + 3].copy_from_slice(&answer);
    }
}
