// The refusals, and the number that document 01 gives each ('Numbers that come back').

#![tactic(auto)]

ghost use Rattle.std.specs.Prelude.{◌≡◌};
ghost use Rattle.refusal.specs.Numbers.{number_of};

// Why there is no answer: to a file, a sheet, a number, a coordinate or a tap. A refusal is document 01's word for it.
#[derive(Clone, Copy, Debug, PartialEq, Eq)]
pub enum Refusal {
    // The file ends within a record, or before its end record.
    Cut = 1,
    // A kind of record that is unknown, or not due there.
    Kind = 2,
    // Bytes after the end record.
    TrailingBytes = 3,
    // A number of the sheet is outside its limits.
    SheetLimit = 4,
    // The sheet's constants do not agree with its parallels.
    SheetConstants = 5,
    // A place's id is not above the last one.
    IdOrder = 6,
    // A place is out of range or off the sheet.
    PlaceOffSheet = 7,
    // A place's x, y are not those of its latitude and longitude.
    PlacePosition = 8,
    // The end record's count differs from the places read.
    EndCount = 9,
    // No room in the caller's table or buffer, or more than 1,000 places.
    NoRoom = 10,
    // A position or a map point off the sheet.
    OffSheet = 11,
    // A number out of range.
    OutOfRange = 12,
    // No place within reach of a tap.
    NothingInReach = 13,
    // A place's name is not of the form of a name.
    Name = 14,
    // An answer off its own sheet.
    AnswerOffSheet = 15,
}

// The refusal's number.
pub fn number(r: Refusal) -> u8
    ensures { result ≡ number_of r }
{
    r as u8
}
