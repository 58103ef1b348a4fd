// What the lister and the tap program print (document 01, 'Two programs'), by what they read: all that the lister prints of a file, and what the tap
// program prints at each part of its input.
//
// A function whose name ends in _unchecked is not offered to callers, as in trig.

#![tactic(auto)]

ghost use Rattle.std.specs.Prelude.{◌≡◌, ◌+◌, ◌≤◌, length};
ghost use Rattle.atlas_file.specs.Steps.{most_places};
ghost use Rattle.atlas_file.specs.Reading.{places_read};
ghost use Rattle.integrity.specs.Integrity.{longest_file};
ghost use Rattle.text.specs.Lines.{line_size, Holds, text_of};
ghost use Rattle.programs.specs.Listing.{Stands, place_lines, listing_of};
ghost use Rattle.programs.specs.Tapping.{near_line, point_line, answer_to, bytes_of, nothing_begun, begun_with, begun_after, begun_by, printed_at, printed_by, printed_at_end, taken};

use atlas::Places;
use place::Place;
use sheet::Sheet;
use text::Line;

// How many bytes of a file the programs read: one more than the longest atlas file has. These decide what is printed.
pub const FILE_SIZE: usize = 37043;

// That number, held against the longest file.
pub fn file_size() -> usize
    ensures { result ≡ 1 + longest_file }
{
    FILE_SIZE
}

// All that the lister prints of a file: it stands at the start of the buffer, which has room for 1,001 lines, and its length is the answer.
// Bytes after it are unchanged.
pub fn listing(file: &[u8], out: &mut [u8; 65536]) -> usize
    ensures { Stands 0 (listing_of file.now) result out.old out.new }
{
    match Places::read(file) {
        Ok(places) => {
            let at = put(out, 0, text::count_line(places.count));
            put_places(out, at, places)
        }
        Err(why) => put(out, 0, text::file_refused_line(why.refusal, why.offset)),
    }
}

// Writes a line, any bytes, into a buffer from `at` on, and answers where it ends; not offered to callers. (The buffer stays a slice with what is
// filled of it beside: `Stands`, which `listing`, `answers` and `report` promise, speaks of the bytes after the text too.)
pub fn put_line_unchecked(out: &mut [u8], at: usize, line: &[u8]) -> usize
    requires { at + length line.now ≤ length out.old }
    ensures { Stands at line.now result out.old out.new }
{
    let end = at + line.len();
    out[at..end].copy_from_slice(line);
    end
}

// The same of the text of a `Line`, where there is room for as much as one holds.
fn put(out: &mut [u8], at: usize, line: Line) -> usize
    requires { at + line_size ≤ length out.old }
    ensures { Stands at (text_of line) result out.old out.new }
{
    put_line_unchecked(out, at, line.as_str().as_bytes())
}

// The lines of the places of a file.
fn put_places(out: &mut [u8], at: usize, places: Places<'_>) -> usize
    requires { at + 64000 ≤ length out.old }
    ensures { Stands at (place_lines (places_read places.entry.bytes.now most_places)) result out.old out.new }
{
    let mut to = at;
    for k in 0..places.count {
        to = put(out, to, text::place_line(places.place_unchecked(k)));
    }
    to
}

// So many bytes of a line are enough to tell what it is: one more than the longest tap has.
pub const BEGUN_SIZE: usize = 25;

// The first bytes of a line of taps, as far as it is read, up to BEGUN_SIZE. No ArrayVec: `answers` and `finish` take any value of this type, also
// one whose length is past its bytes.
#[derive(Clone, Copy)]
pub struct Begun {
    pub bytes: [u8; BEGUN_SIZE],
    pub length: usize,
}

// A line of which nothing is read.
pub fn begin() -> Begun
    ensures { result ≡ nothing_begun }
{
    Begun {
        bytes: [0; BEGUN_SIZE],
        length: 0,
    }
}

impl Begun {
    // What is read of the line.
    fn read(&self) -> &[u8]
        ensures { result.now ≡ bytes_of self.now }
    {
        &self.bytes[..self.length.min(BEGUN_SIZE)]
    }

    // Takes a byte, if there is room for it. A line that is longer is told by the bytes that it has.
    fn push(&mut self, byte: u8)
        ensures { self.new ≡ begun_with self.old byte }
    {
        if self.length < BEGUN_SIZE {
            self.bytes[self.length] = byte;
            self.length += 1;
        }
    }
}

// How many bytes of the input are taken at a time. Each may end a line, and the buffer has room for as many answers.
pub const PART_SIZE: usize = 1024;

// Answers each line that ends in the next part of the input, after the line that is begun, and answers how many bytes are printed. Of a longer
// part the first PART_SIZE bytes are taken. What is printed stands at the start of the buffer; bytes after it are unchanged.
pub fn answers(
    sheet: Sheet,
    table: &[Place],
    begun: &mut Begun,
    input: &[u8],
    out: &mut [u8; 65536],
) -> usize
    ensures begun { begun.new ≡ begun_by begun.old (taken input.now) }
    ensures printed { Stands 0 (printed_by sheet table.now begun.old (taken input.now)) result out.old out.new }
{
    let mut to = 0;
    for &byte in &input[..input.len().min(PART_SIZE)] {
        to = put(out, to, feed(sheet, table, begun, byte));
    }
    to
}

// The next byte of the input, after the line that is begun, and what is printed: where it is a newline the line is answered, else nothing.
fn feed(sheet: Sheet, table: &[Place], begun: &mut Begun, byte: u8) -> Line
    ensures begun { begun.new ≡ begun_after begun.old byte }
    ensures printed { Holds result (printed_at sheet table.now begun.old byte) }
{
    if byte == b'\n' {
        let line = answer(sheet, table, begun.read());
        *begun = begin();
        line
    } else {
        begun.push(byte);
        text::empty()
    }
}

// What is printed at the end of the input: the answer to a last line without its newline, if it has any byte.
pub fn finish(sheet: Sheet, table: &[Place], begun: &Begun) -> Line
    ensures { Holds result (printed_at_end sheet table.now begun.now) }
{
    if begun.length == 0 {
        text::empty()
    } else {
        answer(sheet, table, begun.read())
    }
}

// The answer to a line.
fn answer(sheet: Sheet, table: &[Place], line: &[u8]) -> Line
    ensures { Holds result (answer_to sheet table.now line.now) }
{
    match text::point_of_line(line) {
        Ok(point) => answer_at(sheet, table, point.x, point.y),
        Err(refusal) => text::refused_line(refusal),
    }
}

// The answer to a map point.
fn answer_at(sheet: Sheet, table: &[Place], x: i64, y: i64) -> Line
    ensures { Holds result (point_line sheet table.now x y) }
{
    match conic::inverse(sheet, x, y) {
        Ok(position) => nearest_to(table, x, y, position.latitude, position.longitude),
        Err(refusal) => text::refused_line(refusal),
    }
}

// The answer where the map point has a position.
fn nearest_to(table: &[Place], x: i64, y: i64, latitude: i64, longitude: i64) -> Line
    ensures { Holds result (near_line table.now x y latitude longitude) }
{
    match nearest::nearest_in_usual_reach(table, x, y) {
        Ok(position) => {
            let place = table::place_at_unchecked(table, position);
            text::found_line(latitude, longitude, place.id)
        }
        Err(_) => text::nothing_found_line(latitude, longitude),
    }
}
