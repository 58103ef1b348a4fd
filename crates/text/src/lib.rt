// The text that the programs read and write (document 01, 'Two programs'), in ASCII: numbers in decimal, the lines that are printed, and the
// line of a tap.

#![tactic(auto)]

ghost use Rattle.std.specs.Prelude.{◌≡◌, [], ◌∷◌, ◌++◌, ◌+◌, ◌≤◌, length, map};
ghost use Rattle.refusal.specs.Numbers.{number_of};
ghost use Rattle.text.specs.Decimals.{signed};
ghost use Rattle.text.specs.Lines.{row, line_size, count_line, place_line, file_refused_line, found_line, nothing_found_line, refused_line, crowd_line, Holds};
ghost use Rattle.text.specs.TapLines.{line_reply, line_reply_of};
ghost use Rattle.text.specs.Coordinates.{point_of, coordinate_of, sized_coordinate, with_digit, numeral_of};

use arrayvec::ArrayString;
use conic::MapPoint;
use itoa::Buffer;
use place::Place;
use refusal::Refusal;

// How many bytes a line has room for.
pub const LINE_SIZE: usize = 64;

// A line of text, of up to LINE_SIZE bytes. It is not made by `write!`, since std does not say that this succeeds where there is room, and the
// contracts of the lines (`Holds`) have no error.
pub type Line = ArrayString<LINE_SIZE>;

// A line with no text.
pub fn empty() -> Line
    ensures { Holds result [] }
{
    Line::new()
}

// A whole number in decimal, a minus before it where it is below 0; no newline.
pub fn decimal(n: i64) -> Line
    ensures { Holds result (signed n) }
{
    let mut line = empty();
    line.push_str(Buffer::new().format(n));
    line
}

// `places N`.
pub fn count_line(count: usize) -> Line
    ensures { Holds result (count_line count) }
{
    row(&["places", Buffer::new().format(count)])
}

// A place: id, latitude, longitude, x, y.
pub fn place_line(place: Place) -> Line
    ensures { Holds result (place_line place) }
{
    row(&[
        Buffer::new().format(place.id),
        Buffer::new().format(place.latitude),
        Buffer::new().format(place.longitude),
        Buffer::new().format(place.x),
        Buffer::new().format(place.y),
    ])
}

// `refused R at B`: of a file.
pub fn file_refused_line(refusal: Refusal, offset: usize) -> Line
    ensures { Holds result (file_refused_line (number_of refusal) offset) }
{
    row(&[
        "refused",
        Buffer::new().format(refusal::number(refusal)),
        "at",
        Buffer::new().format(offset),
    ])
}

// A position and the id of the place that is nearest.
pub fn found_line(latitude: i64, longitude: i64, id: u32) -> Line
    ensures { Holds result (found_line latitude longitude id) }
{
    position_line(latitude, longitude, Buffer::new().format(id))
}

// A position with no place near it.
pub fn nothing_found_line(latitude: i64, longitude: i64) -> Line
    ensures { Holds result (nothing_found_line latitude longitude) }
{
    position_line(latitude, longitude, "-")
}

// `refused R`: of a tap.
pub fn refused_line(refusal: Refusal) -> Line
    ensures { Holds result (refused_line (number_of refusal)) }
{
    row(&["refused", Buffer::new().format(refusal::number(refusal))])
}

// A line of the crowding report: a place's id, and how many others lie within the usual reach of it.
pub fn crowd_line(id: u32, others: usize) -> Line
    ensures { Holds result (crowd_line id others) }
{
    row(&[Buffer::new().format(id), Buffer::new().format(others)])
}

// A position and a word more.
fn position_line(latitude: i64, longitude: i64, word: &str) -> Line
    requires { length word.now ≤ 10 }
    ensures { Holds result (row (signed latitude ∷ signed longitude ∷ word.now ∷ [])) }
{
    row(&[
        Buffer::new().format(latitude),
        Buffer::new().format(longitude),
        word,
    ])
}

// The words of one line, one space between, and its newline.
fn row(words: &[&str]) -> Line
    requires { length (row (map (λ word. word.now) words.now)) ≤ line_size }
    ensures { Holds result (row (map (λ word. word.now) words.now)) }
{
    let mut line = empty();
    push_row(&mut line, words);
    line
}

// The same behind what a line holds.
fn push_row(line: &mut Line, words: &[&str])
    requires { length line.old.bytes + length (row (map (λ word. word.now) words.now)) ≤ line_size }
    ensures { line.new.bytes ≡ line.old.bytes ++ row (map (λ word. word.now) words.now) }
{
    match words {
        [] => line.push_str("\n"),
        [word] => {
            line.push_str(word);
            line.push_str("\n");
        }
        [word, rest @ ..] => {
            line.push_str(word);
            line.push_str(" ");
            push_row(line, rest);
        }
    }
}

// The map point of a tap's line, without its newline: x, one space, y. 12 if it has another form or a number is out of range.
pub fn point_of_line(line: &[u8]) -> Result<MapPoint, Refusal>
    ensures { line_reply_of result ≡ line_reply line.now }
{
    if LONGEST_TAP < line.len() {
        return Err(Refusal::OutOfRange);
    }
    let Some(space) = line.iter().position(|&byte| byte == b' ') else {
        return Err(Refusal::OutOfRange);
    };
    point_of(
        read_coordinate(&line[..space]),
        read_coordinate(&line[space + 1..]),
    )
}

// A tap's line has at most so many bytes before its newline.
const LONGEST_TAP: usize = 24;

// One more than the size that a coordinate may have.
const TOO_LARGE: u64 = 536870913;

// The point of two coordinates that are read.
fn point_of(x: Option<i64>, y: Option<i64>) -> Result<MapPoint, Refusal>
    ensures { result ≡ point_of x y }
{
    match (x, y) {
        (Some(x), Some(y)) => Ok(MapPoint { x, y }),
        _ => Err(Refusal::OutOfRange),
    }
}

// The number that a text spells, where it is one and in range.
fn read_coordinate(text: &[u8]) -> Option<i64>
    ensures { result ≡ coordinate_of text.now }
{
    match text.strip_prefix(b"-") {
        Some(digits) => coordinate_of_size(true, numeral(digits)?),
        None => coordinate_of_size(false, numeral(text)?),
    }
}

// A coordinate of that size. (No plainer with a type for a sign than with the flag.)
fn coordinate_of_size(negative: bool, size: u64) -> Option<i64>
    ensures { result ≡ sized_coordinate negative size }
{
    if TOO_LARGE <= size {
        return None;
    }
    let value = size as i64;
    if negative { Some(-value) } else { Some(value) }
}

// What digits spell, where the text is one digit or more and that is not too large.
fn numeral(text: &[u8]) -> Option<u64>
    ensures { result ≡ numeral_of text.now }
{
    if text.is_empty() {
        return None;
    }
    let mut value = 0;
    for &byte in text {
        value = with_digit(value, byte)?;
    }
    Some(value)
}

// A number with a digit more behind it, where that is not too large.
fn with_digit(value: u64, byte: u8) -> Option<u64>
    ensures { result ≡ with_digit value byte }
{
    if !byte.is_ascii_digit() || TOO_LARGE <= value {
        return None;
    }
    let next = 10 * value + (byte - b'0') as u64;
    if next < TOO_LARGE { Some(next) } else { None }
}
