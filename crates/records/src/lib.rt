// The records of an atlas file (document 01, 'The atlas file'): their kinds, and the bytes of a sheet, a place and
// the end. A record is its kind byte and its body.
//
// A function whose name ends in _unchecked is not offered to callers, as in trig.

#![tactic(auto)]

ghost use Rattle.std.specs.Prelude.{◌≡◌, length};
ghost use Rattle.records.specs.Records.{body_of, layout_reply_of, layout_reply, IsRecord, sheet_of, sheet_record, place_of, place_record, end_of, end_record};
ghost use Rattle.records.specs.declared.Record.TheVariants as records;

use little_endian::{
    bytes_at_unchecked, i32_at_unchecked, put_bytes_unchecked, put_numbers_unchecked, to_unsigned,
    u32_at_unchecked,
};
use place::Place;
use refusal::Refusal;
use sheet::Sheet;

// How long a place's record and the end record are, kind byte and body.
// No plainer: a constant's value may not call `body`.
pub const PLACE_RECORD: usize = 37;

pub const END_RECORD: usize = 5;

// Which record it is, by its kind byte.
#[derive(Clone, Copy, Debug, PartialEq, Eq)]
pub enum Record {
    Sheet = 1,
    Place = 2,
    End = 3,
}

const SHEET: u8 = Record::Sheet as u8;

const PLACE: u8 = Record::Place as u8;

const END: u8 = Record::End as u8;

impl Record {
    // How many bytes follow the kind byte.
    pub fn body(self) -> usize
        ensures { result ≡ body_of self }
    {
        match self {
            Record::Sheet | Record::Place => 36,
            Record::End => 4,
        }
    }
}

// The record that a kind byte begins; 2 for any other kind.
impl TryFrom<u8> for Record {
    type Error = Refusal;

    ghost try_from_gives = { λ byte r. layout_reply_of r ≡ layout_reply byte };

    #[tactic(auto, unfolding(crate::specs::Records::layout_of))]
    fn try_from(byte: u8) -> Result<Record, Refusal> {
        match byte {
            SHEET => Ok(Record::Sheet),
            PLACE => Ok(Record::Place),
            END => Ok(Record::End),
            _ => Err(Refusal::Kind),
        }
    }
}

// The sheet of a sheet's record; not offered to callers.
// No plainer: what each decoder asks of the bytes is another fact, so a type that holds it would serve one decoder.
#[tactic(auto, unfolding(crate::specs::Records::sheet_of))]
pub fn decode_sheet_unchecked(bytes: &[u8]) -> Sheet
    requires { IsRecord records.Sheet bytes.now }
    ensures { result ≡ sheet_of bytes.now }
{
    Sheet {
        first_parallel: i32_at_unchecked(bytes, 1),
        second_parallel: i32_at_unchecked(bytes, 5),
        origin_latitude: i32_at_unchecked(bytes, 9),
        central_meridian: i32_at_unchecked(bytes, 13),
        south_edge: i32_at_unchecked(bytes, 17),
        north_edge: i32_at_unchecked(bytes, 21),
        half_width: u32_at_unchecked(bytes, 25),
        cone_constant: u32_at_unchecked(bytes, 29),
        radius_constant: i32_at_unchecked(bytes, 33),
    }
}

// How long a sheet's record is.
#[tactic(auto, using(crate::proofs::SheetRecords::sheet_length))]
pub fn sheet_record_length(sheet: Sheet) -> usize
    ensures { result ≡ length (sheet_record sheet) }
{
    Record::Sheet.body() + 1
}

// Fills a part of a buffer with a sheet's record; not offered to callers.
#[tactic(auto, using(crate::proofs::SheetRecords::sheet_length))]
pub fn write_sheet_unchecked(part: &mut [u8], sheet: Sheet)
    requires { length part.old ≡ length (sheet_record sheet) }
    ensures { part.new ≡ sheet_record sheet }
{
    let numbers = [
        to_unsigned(sheet.first_parallel),
        to_unsigned(sheet.second_parallel),
        to_unsigned(sheet.origin_latitude),
        to_unsigned(sheet.central_meridian),
        to_unsigned(sheet.south_edge),
        to_unsigned(sheet.north_edge),
        sheet.half_width,
        sheet.cone_constant,
        to_unsigned(sheet.radius_constant),
    ];
    part[0] = SHEET;
    put_numbers_unchecked(part, &numbers);
}

// The place of a place's record; not offered to callers.
#[tactic(auto, unfolding(crate::specs::Records::place_of))]
pub fn decode_place_unchecked(bytes: &[u8]) -> Place
    requires { IsRecord records.Place bytes.now }
    ensures { result ≡ place_of bytes.now }
{
    Place {
        id: u32_at_unchecked(bytes, 1),
        latitude: i32_at_unchecked(bytes, 5),
        longitude: i32_at_unchecked(bytes, 9),
        x: i32_at_unchecked(bytes, 13),
        y: i32_at_unchecked(bytes, 17),
        name: bytes_at_unchecked(bytes, 21),
    }
}

// Fills a part of a buffer with a place's record; not offered to callers.
pub fn write_place_unchecked(part: &mut [u8], place: Place)
    requires { length part.old ≡ 37 }
    ensures { part.new ≡ place_record place }
{
    let numbers = [
        place.id,
        to_unsigned(place.latitude),
        to_unsigned(place.longitude),
        to_unsigned(place.x),
        to_unsigned(place.y),
    ];
    part[0] = PLACE;
    put_numbers_unchecked(part, &numbers);
    put_bytes_unchecked(part, 21, &place.name);
}

// The number of places in an end record; not offered to callers.
#[tactic(auto, unfolding(crate::specs::Records::end_of))]
pub fn decode_end_unchecked(bytes: &[u8]) -> u32
    requires { IsRecord records.End bytes.now }
    ensures { result ≡ end_of bytes.now }
{
    u32_at_unchecked(bytes, 1)
}

// Fills a part of a buffer with the end record; not offered to callers.
#[tactic(auto, using(little_endian::proofs::Puts::written), unfolding(crate::specs::Records::end_record))]
pub fn write_end_unchecked(part: &mut [u8], count: u32)
    requires { length part.old ≡ 5 }
    ensures { part.new ≡ end_record count }
{
    part[0] = END;
    put_numbers_unchecked(part, &[count]);
}
