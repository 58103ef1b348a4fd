// The engine's functions for test programs, through the C ABI: the interface of the tests alone, not of users.
//
// The contract of each says, by the engine's own replies, what it gives and stores, on refusal too; none has a `requires`.
//
// A sheet is passed as nine numbers, in the order of its record. A function that can refuse gives the refusal's number, 0 where it accepts.
// Out arrays are overwritten in full, with zeros where there is no value.

#![tactic(auto)]

ghost use Rattle.std.specs.Prelude.{◌≡◌, [], ◌∷◌, pos, length};
ghost use Rattle.arith.specs.Bounds.{Size};
ghost use Rattle.refusal.specs.Numbers.{number_of, reply_by};
ghost use Rattle.trig.specs.Trig.{reply_of, angle_reply, sine_reply, cosine_reply, root_reply};
ghost use Rattle.sheet.specs.Sheets as sheets;
ghost use Rattle.sheet.specs.Sheets.{check_reply, on_sheet};
ghost use Rattle.conic.specs.Conic.{map_reply_of, forward_reply};
ghost use Rattle.conic.specs.MapToGlobe.{globe_reply_of, inverse_reply};
ghost use Rattle.nearest.specs.Taps.{nearest_reply_of, nearest_reply, usual_reach};
ghost use Rattle.atlas_file.specs.Steps.{step_reply_of, step_reply};
ghost use Rattle.atlas_file.specs.Reading.{file_reply_of, read_reply};
ghost use Rattle.atlas_file.specs.Writing.{write_reply};
ghost use Rattle.atlas.specs.Tables.{table_after};
ghost use Rattle.atlas.specs.Buffers.{write_reply_of, buffer_after};
ghost use Rattle.lookup.specs.Lookups.{lookup_reply_of, place_at_reply, nearest_place_reply};
ghost use Rattle.within_reach.specs.Lists.{places_after, list_reply, list_reply_of};
ghost use Rattle.test_interface.specs.Stored.{sheet_with, sheet_numbers, state_with, state_numbers, place_numbers, reply, wholes, file_out, file_out_of, lookup_out, lookup_out_of, step_out, step_out_of, offset_taken, offset_reply};

use atlas_file::{Advance, Atlas, FileRefusal, Found, State};
use cone::{Cone, ConePoint};
use conic::{MapPoint, Position};
use place::Place;
use refusal::Refusal;
use sheet::Sheet;

#[unsafe(no_mangle)]
pub extern "C" fn melgoweth_test_angle(a: i64, out: &mut [i64; 1]) -> u64
    ensures { reply result out.new ≡ angle_reply a }
{
    store_value(trig::angle(a), out)
}

#[unsafe(no_mangle)]
pub extern "C" fn melgoweth_test_sine(t: i64, out: &mut [i64; 1]) -> u64
    ensures { reply result out.new ≡ sine_reply t }
{
    store_value(trig::sine(t), out)
}

#[unsafe(no_mangle)]
pub extern "C" fn melgoweth_test_cosine(t: i64, out: &mut [i64; 1]) -> u64
    ensures { reply result out.new ≡ cosine_reply t }
{
    store_value(trig::cosine(t), out)
}

#[unsafe(no_mangle)]
pub extern "C" fn melgoweth_test_root(q: i64, out: &mut [i64; 1]) -> u64
    ensures { reply result out.new ≡ root_reply q }
{
    store_value(trig::root(q), out)
}

// out: the offset of a map point, by a guess that is tested or by the halving.
#[unsafe(no_mangle)]
pub extern "C" fn melgoweth_test_offset(n: u32, x: i64, v: i64, w: u32, out: &mut [i64; 1]) -> u64
    ensures { reply result out.new ≡ offset_reply n x v w }
{
    store_value(offset(n, x, v, w), out)
}

// The guess of the offset alone, to count how often it settles the offset. No more than its size is known of a guess: no answer rests on it.
#[unsafe(no_mangle)]
pub extern "C" fn melgoweth_test_guess_offset(n: u32, x: i32, v: i32) -> i64
    ensures { Size (pos 4503599627370496) result }
{
    guess::offset(n, x, v)
}

#[unsafe(no_mangle)]
pub extern "C" fn melgoweth_test_check(
    f1: i32,
    f2: i32,
    f0: i32,
    m0: i32,
    fs: i32,
    fn_: i32,
    w: u32,
    n: u32,
    g: i32,
) -> u64
    ensures { reply result [] ≡ check_reply (sheet_with f1 f2 f0 m0 fs fn_ w n g) }
{
    verdict_number(sheet::check(sheet_of(f1, f2, f0, m0, fs, fn_, w, n, g)))
}

#[unsafe(no_mangle)]
pub extern "C" fn melgoweth_test_on_sheet(
    f1: i32,
    f2: i32,
    f0: i32,
    m0: i32,
    fs: i32,
    fn_: i32,
    w: u32,
    n: u32,
    g: i32,
    latitude: i64,
    longitude: i64,
) -> bool
    ensures { result ≡ on_sheet (sheet_with f1 f2 f0 m0 fs fn_ w n g) latitude longitude }
{
    sheet::on_sheet(
        sheet_of(f1, f2, f0, m0, fs, fn_, w, n, g),
        latitude,
        longitude,
    )
}

// out: x, y.
#[unsafe(no_mangle)]
pub extern "C" fn melgoweth_test_forward(
    f1: i32,
    f2: i32,
    f0: i32,
    m0: i32,
    fs: i32,
    fn_: i32,
    w: u32,
    n: u32,
    g: i32,
    latitude: i64,
    longitude: i64,
    out: &mut [i64; 2],
) -> u64
    ensures { reply result out.new ≡ forward_reply (sheet_with f1 f2 f0 m0 fs fn_ w n g) latitude longitude }
{
    let answer = conic::forward(
        sheet_of(f1, f2, f0, m0, fs, fn_, w, n, g),
        latitude,
        longitude,
    );
    store_point(answer, out)
}

// out: latitude, longitude.
#[unsafe(no_mangle)]
pub extern "C" fn melgoweth_test_inverse(
    f1: i32,
    f2: i32,
    f0: i32,
    m0: i32,
    fs: i32,
    fn_: i32,
    w: u32,
    n: u32,
    g: i32,
    x: i64,
    y: i64,
    out: &mut [i64; 2],
) -> u64
    ensures { reply result out.new ≡ inverse_reply (sheet_with f1 f2 f0 m0 fs fn_ w n g) x y }
{
    let answer = conic::inverse(sheet_of(f1, f2, f0, m0, fs, fn_, w, n, g), x, y);
    store_globe_position(answer, out)
}

// numbers: the refusal's offset, the count of places; so in the next two.
#[unsafe(no_mangle)]
pub extern "C" fn melgoweth_test_read(
    bytes: &[u8],
    table: &mut [Place],
    numbers: &mut [u64; 2],
    sheet: &mut [i64; 9],
) -> u64
    ensures { (file_out result numbers.new sheet.new ≡ file_out_of (read_reply bytes.now (length table.old))) × (table.new ≡ table_after bytes.now table.old) }
{
    let answer = atlas::read(bytes, table);
    store_file(answer, numbers, sheet)
}

#[unsafe(no_mangle)]
pub extern "C" fn melgoweth_test_read_through(
    bytes: &[u8],
    room: usize,
    numbers: &mut [u64; 2],
    sheet: &mut [i64; 9],
) -> u64
    ensures { file_out result numbers.new sheet.new ≡ file_out_of (read_reply bytes.now room) }
{
    store_file(atlas_file::read_through(bytes, room), numbers, sheet)
}

#[unsafe(no_mangle)]
pub extern "C" fn melgoweth_test_run(
    bytes: &[u8],
    room: usize,
    numbers: &mut [u64; 2],
    sheet: &mut [i64; 9],
) -> u64
    ensures { file_out result numbers.new sheet.new ≡ file_out_of (read_reply bytes.now room) }
{
    store_file(reader::run(bytes, room), numbers, sheet)
}

// A step from any state. record: the refusal's offset; 1, 2, 3 for a sheet, a place, the end; the end's count. sheet, place, name: what was
// found. next: at, sheet_read, count, last_id and room after the step; next_sheet: the sheet then.
#[unsafe(no_mangle)]
pub extern "C" fn melgoweth_test_step(
    bytes: &[u8],
    at: usize,
    sheet_read: bool,
    f1: i32,
    f2: i32,
    f0: i32,
    m0: i32,
    fs: i32,
    fn_: i32,
    w: u32,
    n: u32,
    g: i32,
    count: usize,
    last_id: u32,
    room: usize,
    record: &mut [u64; 3],
    sheet: &mut [i64; 9],
    place: &mut [i64; 5],
    name: &mut [u8; 16],
    next: &mut [u64; 5],
    next_sheet: &mut [i64; 9],
) -> u64
    ensures { step_out result «record».new sheet.new place.new name.new next.new next_sheet.new ≡ step_out_of (step_reply bytes.now (state_with at sheet_read (sheet_with f1 f2 f0 m0 fs fn_ w n g) count last_id room)) }
{
    let state = State {
        at: at,
        sheet_read: sheet_read,
        sheet: sheet_of(f1, f2, f0, m0, fs, fn_, w, n, g),
        count: count,
        last_id: last_id,
        room: room,
    };
    let answer = atlas_file::step(bytes, state);
    store_step(state, answer, record, sheet, place, name, next, next_sheet)
}

// out: the position; so in the next.
#[unsafe(no_mangle)]
pub extern "C" fn melgoweth_test_nearest(
    table: &[Place],
    x: i64,
    y: i64,
    reach: i64,
    out: &mut [u64; 1],
) -> u64
    ensures { reply result (wholes out.new) ≡ nearest_reply table.now x y reach }
{
    let answer = nearest::nearest(table, x, y, reach);
    store_size(answer, out)
}

#[unsafe(no_mangle)]
pub extern "C" fn melgoweth_test_nearest_in_usual_reach(
    table: &[Place],
    x: i64,
    y: i64,
    out: &mut [u64; 1],
) -> u64
    ensures { reply result (wholes out.new) ≡ nearest_reply table.now x y usual_reach }
{
    let answer = nearest::nearest_in_usual_reach(table, x, y);
    store_size(answer, out)
}

// out: the count.
#[unsafe(no_mangle)]
pub extern "C" fn melgoweth_test_places_in_reach(
    table: &[Place],
    x: i64,
    y: i64,
    reach: i64,
    found: &mut [Place],
    out: &mut [u64; 1],
) -> u64
    ensures { (reply result (wholes out.new) ≡ list_reply table.now x y reach (length found.old)) × (found.new ≡ places_after table.now x y reach found.old) }
{
    let answer = within_reach::places_in_reach(table, x, y, reach, found);
    store_size(answer, out)
}

// out: the file's length.
#[unsafe(no_mangle)]
pub extern "C" fn melgoweth_test_write(
    f1: i32,
    f2: i32,
    f0: i32,
    m0: i32,
    fs: i32,
    fn_: i32,
    w: u32,
    n: u32,
    g: i32,
    table: &[Place],
    buffer: &mut [u8],
    out: &mut [u64; 1],
) -> u64
    ensures { (reply result (wholes out.new) ≡ write_reply (sheet_with f1 f2 f0 m0 fs fn_ w n g) table.now (length buffer.old)) × (buffer.new ≡ buffer_after (sheet_with f1 f2 f0 m0 fs fn_ w n g) table.now buffer.old) }
{
    let sheet = sheet_of(f1, f2, f0, m0, fs, fn_, w, n, g);
    let answer = atlas::write(sheet, table, buffer);
    store_size(answer, out)
}

// numbers: the refusal's offset, the position; so in the next.
#[unsafe(no_mangle)]
pub extern "C" fn melgoweth_test_place_at(
    bytes: &[u8],
    position: usize,
    numbers: &mut [u64; 2],
    place: &mut [i64; 5],
    name: &mut [u8; 16],
) -> u64
    ensures { lookup_out result numbers.new place.new name.new ≡ lookup_out_of (place_at_reply bytes.now position) }
{
    store_lookup(lookup::place_at(bytes, position), numbers, place, name)
}

#[unsafe(no_mangle)]
pub extern "C" fn melgoweth_test_nearest_place(
    bytes: &[u8],
    x: i64,
    y: i64,
    reach: i64,
    numbers: &mut [u64; 2],
    place: &mut [i64; 5],
    name: &mut [u8; 16],
) -> u64
    ensures { lookup_out result numbers.new place.new name.new ≡ lookup_out_of (nearest_place_reply bytes.now x y reach) }
{
    store_lookup(
        lookup::nearest_place(bytes, x, y, reach),
        numbers,
        place,
        name,
    )
}

// The offset of a map point where n, x, v and w are in the ranges that a Cone and a ConePoint ask for, 12 outside.
#[tactic(auto, unfolding(crate::specs::Stored::offset_taken, trig::specs::Trig::offered))]
fn offset(n: u32, x: i64, v: i64, w: u32) -> Result<i64, Refusal>
    ensures { reply_of result ≡ offset_reply n x v w }
{
    if !offset_taken(n, x, v, w) {
        return Err(Refusal::OutOfRange);
    }
    let cone = Cone {
        constant: n,
        half_width: w,
    };
    Ok(cone.offset_unchecked(ConePoint { x, v }, cone.least_rise()))
}

// Whether they are in these ranges.
#[tactic(auto, unfolding(crate::specs::Stored::offset_taken))]
fn offset_taken(n: u32, x: i64, v: i64, w: u32) -> bool
    ensures { result ≡ offset_taken n x v w }
{
    let cone = (n <= 1073741824) & ((1 <= w) & (w <= 60000000));
    let point = ((-536870912 <= x) & (x <= 536870912)) & ((1 <= v) & (v <= 805306368));
    cone & point
}

// As the C interface of the tests gives it.
fn number(r: Refusal) -> u64
    ensures { result ≡ number_of r }
{
    refusal::number(r) as u64
}

fn verdict_number(verdict: Result<(), Refusal>) -> u64
    ensures { reply result [] ≡ sheets.reply_of verdict }
{
    match verdict {
        Ok(()) => 0,
        Err(r) => number(r),
    }
}

// A number of a sheet or a place, as an out array holds it.
fn wide(a: i32) -> i64
    ensures { result ≡ a }
{
    a as i64
}

// A sheet of the nine numbers that the C interface of the tests takes.
fn sheet_of(f1: i32, f2: i32, f0: i32, m0: i32, fs: i32, fn_: i32, w: u32, n: u32, g: i32) -> Sheet
    ensures { result ≡ sheet_with f1 f2 f0 m0 fs fn_ w n g }
{
    Sheet {
        first_parallel: f1,
        second_parallel: f2,
        origin_latitude: f0,
        central_meridian: m0,
        south_edge: fs,
        north_edge: fn_,
        half_width: w,
        cone_constant: n,
        radius_constant: g,
    }
}

// The functions that follow store an answer in out arrays, or a part of one; of an answer they give the refusal's number. One for each type is
// plainer than one for all, which would take a closure for the values and a lemma at each call.

fn store_size(answer: Result<usize, Refusal>, out: &mut [u64; 1]) -> u64
    ensures { reply result (wholes out.new) ≡ reply_by 1 (λ size. pos size ∷ []) answer }
{
    match answer {
        Ok(size) => {
            *out = [size as u64];
            0
        }
        Err(r) => {
            *out = [0];
            number(r)
        }
    }
}

fn store_value(answer: Result<i64, Refusal>, out: &mut [i64; 1]) -> u64
    ensures { reply result out.new ≡ reply_of answer }
{
    match answer {
        Ok(v) => {
            *out = [v];
            0
        }
        Err(r) => {
            *out = [0];
            number(r)
        }
    }
}

fn store_point(answer: Result<MapPoint, Refusal>, out: &mut [i64; 2]) -> u64
    ensures { reply result out.new ≡ map_reply_of answer }
{
    match answer {
        Ok(point) => {
            *out = [point.x, point.y];
            0
        }
        Err(r) => {
            *out = [0, 0];
            number(r)
        }
    }
}

fn store_globe_position(answer: Result<Position, Refusal>, out: &mut [i64; 2]) -> u64
    ensures { reply result out.new ≡ globe_reply_of answer }
{
    match answer {
        Ok(position) => {
            *out = [position.latitude, position.longitude];
            0
        }
        Err(r) => {
            *out = [0, 0];
            number(r)
        }
    }
}

fn store_sheet(sheet: Sheet, out: &mut [i64; 9])
    ensures { out.new ≡ sheet_numbers sheet }
{
    *out = [
        wide(sheet.first_parallel),
        wide(sheet.second_parallel),
        wide(sheet.origin_latitude),
        wide(sheet.central_meridian),
        wide(sheet.south_edge),
        wide(sheet.north_edge),
        sheet.half_width as i64,
        sheet.cone_constant as i64,
        wide(sheet.radius_constant),
    ];
}

fn store_place(place: Place, out: &mut [i64; 5], name: &mut [u8; 16])
    ensures { (out.new ≡ place_numbers place) × (name.new ≡ place.name) }
{
    *out = [
        place.id as i64,
        wide(place.latitude),
        wide(place.longitude),
        wide(place.x),
        wide(place.y),
    ];
    let bytes = place.name;
    *name = bytes;
}

fn store_file(answer: Result<Atlas, FileRefusal>, numbers: &mut [u64; 2], out: &mut [i64; 9]) -> u64
    ensures { file_out result numbers.new out.new ≡ file_out_of (file_reply_of answer) }
{
    match answer {
        Ok(atlas) => {
            *numbers = [0, atlas.count as u64];
            store_sheet(atlas.sheet, out);
            0
        }
        Err(why) => {
            *numbers = [why.offset as u64, 0];
            store_sheet(sheet::blank(), out);
            number(why.refusal)
        }
    }
}

fn store_step(
    state: State,
    answer: Result<Advance, FileRefusal>,
    record: &mut [u64; 3],
    sheet: &mut [i64; 9],
    place: &mut [i64; 5],
    name: &mut [u8; 16],
    next: &mut [u64; 5],
    next_sheet: &mut [i64; 9],
) -> u64
    ensures { step_out result «record».new sheet.new place.new name.new next.new next_sheet.new ≡ step_out_of (step_reply_of state answer) }
{
    match answer {
        Ok(advance) => {
            store_state(advance.next, next, next_sheet);
            match advance.found {
                Found::Sheet(s) => {
                    *record = [0, 1, 0];
                    store_sheet(s, sheet);
                    store_place(place::blank(), place, name);
                    0
                }
                Found::Place(p) => {
                    *record = [0, 2, 0];
                    store_sheet(sheet::blank(), sheet);
                    store_place(p, place, name);
                    0
                }
                Found::End { count } => {
                    *record = [0, 3, count as u64];
                    store_sheet(sheet::blank(), sheet);
                    store_place(place::blank(), place, name);
                    0
                }
            }
        }
        Err(why) => {
            *record = [why.offset as u64, 0, 0];
            store_sheet(sheet::blank(), sheet);
            store_place(place::blank(), place, name);
            store_state(state, next, next_sheet);
            number(why.refusal)
        }
    }
}

fn store_state(state: State, out: &mut [u64; 5], sheet: &mut [i64; 9])
    ensures { (out.new ≡ state_numbers state) × (sheet.new ≡ sheet_numbers state.sheet) }
{
    *out = [
        state.at as u64,
        state.sheet_read as u64,
        state.count as u64,
        state.last_id as u64,
        state.room as u64,
    ];
    store_sheet(state.sheet, sheet);
}

fn store_lookup(
    answer: Result<lookup::Found, FileRefusal>,
    numbers: &mut [u64; 2],
    place: &mut [i64; 5],
    name: &mut [u8; 16],
) -> u64
    ensures { lookup_out result numbers.new place.new name.new ≡ lookup_out_of (lookup_reply_of answer) }
{
    match answer {
        Ok(found) => {
            store_place(found.place, place, name);
            *numbers = [0, found.position as u64];
            0
        }
        Err(why) => {
            store_place(place::blank(), place, name);
            *numbers = [why.offset as u64, 0];
            number(why.refusal)
        }
    }
}
