// A place of an atlas: what it is, its name, and when it may stand in a file (document 01, 'The atlas file', and 6, 7, 8 and 14 of
// 'Numbers that come back').

#![tactic(auto)]

ghost use Rattle.std.specs.Prelude.{◌≡◌, [], ◌∷◌};
ghost use Rattle.refusal.specs.Numbers.{accepted};
ghost use Rattle.refusal.specs.Rules.{in_order};
ghost use Rattle.sheet.specs.Sheets.{reply_of};
ghost use Rattle.conic.specs.Conic.{map_reply_of};
ghost use Rattle.place.specs.Names.{is_printable, is_name};
ghost use Rattle.place.specs.Places.{blank_place, is_at, place_rules_at, place_reply};

use conic::MapPoint;
use refusal::Refusal;
use sheet::{CheckedSheet, Sheet};

// The bytes of a name.
pub const NAME_LENGTH: usize = 16;

// A place of the map. Latitude, longitude, x and y are in units. It is laid out as C does it, for tests that lend tables of places.
#[repr(C)]
#[derive(Clone, Copy)]
pub struct Place {
    pub id: u32,
    pub latitude: i32,
    pub longitude: i32,
    // Where it lies on its sheet's map.
    pub x: i32,
    pub y: i32,
    // A good name is 1 to 16 bytes of value 32 to 126, then zeros: see is_name.
    pub name: [u8; NAME_LENGTH],
}

// Zeros: what an answer holds where there is no place.
pub fn blank() -> Place
    ensures { result ≡ blank_place }
{
    Place {
        id: 0,
        latitude: 0,
        longitude: 0,
        x: 0,
        y: 0,
        name: [0u8; NAME_LENGTH],
    }
}

// Whether a place may follow `count` places, the last of which has the id `last_id`, on a sheet: 6 if its id is not above the last, 7 if
// it is out of range or off the sheet (or the sheet does not pass its checks), 8 if x, y are not its own, 14 for its name.
pub fn check_place(sheet: Sheet, count: usize, last_id: u32, place: Place) -> Result<(), Refusal>
    ensures { reply_of result ≡ place_reply sheet count last_id place }
{
    let answer = conic::forward(sheet, place.latitude as i64, place.longitude as i64);
    verdict_at(answer, count, last_id, place)
}

// The same on a checked sheet. (No plainer as one function: it would take the way from globe to map as a closure, for a line each.)
pub fn check_place_on(
    checked: CheckedSheet,
    count: usize,
    last_id: u32,
    place: Place,
) -> Result<(), Refusal>
    ensures { reply_of result ≡ place_reply checked.sheet count last_id place }
{
    let answer = conic::forward_on(&checked, place.latitude as i64, place.longitude as i64);
    verdict_at(answer, count, last_id, place)
}

// The same, once it is known where the place's latitude and longitude lie on the map.
fn verdict_at(
    answer: Result<MapPoint, Refusal>,
    count: usize,
    last_id: u32,
    place: Place,
) -> Result<(), Refusal>
    ensures { reply_of result ≡ in_order 0 (place_rules_at (map_reply_of answer) count last_id place) (accepted []) }
{
    if !((count == 0) | (last_id < place.id)) {
        return Err(Refusal::IdOrder);
    }
    let Ok(point) = answer else {
        return Err(Refusal::PlaceOffSheet);
    };
    if !is_at(point, place) {
        return Err(Refusal::PlacePosition);
    }
    if !is_name(place.name) {
        return Err(Refusal::Name);
    }
    Ok(())
}

// Whether a map point is where a place says that it lies.
fn is_at(point: MapPoint, place: Place) -> bool
    ensures { result ≡ is_at (accepted (point.x ∷ point.y ∷ [])) place.x place.y }
{
    (point.x == i64::from(place.x)) & (point.y == i64::from(place.y))
}

// Whether a byte is of value 32 to 126, a printable character of ASCII.
fn is_printable(b: u8) -> bool
    ensures { result ≡ is_printable b }
{
    (32 <= b) & (b <= 126)
}

// Whether a name is 1 to 16 bytes of value 32 to 126, then zeros.
pub fn is_name(name: [u8; NAME_LENGTH]) -> bool
    ensures { result ≡ is_name name }
{
    // of the bytes so far, from the last: whether they are printable, then zeros; whether they are zeros
    let mut named = true;
    let mut zeros = true;
    for &b in name.iter().rev() {
        zeros = zeros & (b == 0);
        named = zeros | (named & is_printable(b));
    }
    named & is_printable(name[0])
}
