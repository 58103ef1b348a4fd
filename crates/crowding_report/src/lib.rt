// The crowding report of a file (document 02, E2): a line for each place, in file order, with its id and how many others lie within the
// usual reach of it.

#![tactic(auto)]

ghost use Rattle.std.specs.Prelude.{◌≤◌, ◌≡◌, length, pos};
ghost use Rattle.arith.specs.Bounds.{Within};
ghost use Rattle.nearest.specs.Taps.{reach_limit, within_reach};
ghost use Rattle.atlas_file.specs.Steps.{most_places};
ghost use Rattle.atlas_file.specs.Reading.{places_read};
ghost use Rattle.programs.specs.Listing.{Stands};
ghost use Rattle.crowding_report.specs.Crowding.{crowd_lines, crowding_of};

use atlas::Places;
use nearest::USUAL_REACH;
use place::Place;

// All that the crowding report prints of a file: it stands at the start of the buffer, which has room for 1,000 lines, and its length is the
// answer. Bytes after it are unchanged.
pub fn report(file: &[u8], out: &mut [u8; 65536]) -> usize
    ensures { Stands 0 (crowding_of file.now) result out.old out.new }
{
    match Places::read(file) {
        Ok(places) => put_lines(out, places),
        Err(why) => {
            let line = text::file_refused_line(why.refusal, why.offset);
            programs::put_line_unchecked(out, 0, line.as_str().as_bytes())
        }
    }
}

// The lines of the places of a file. (No plainer as one with the lister's `put_places`: that takes a closure for the line and a contract that
// says which text each call holds, for four lines; a line here takes the whole file.)
fn put_lines(out: &mut [u8], places: Places<'_>) -> usize
    requires { 64000 ≤ length out.old }
    ensures { Stands 0 (crowd_lines (places_read places.entry.bytes.now most_places)) result out.old out.new }
{
    let mut to = 0;
    for k in 0..places.count {
        let place = places.place_unchecked(k);
        let around = count_around(places, place, USUAL_REACH);
        let line = text::crowd_line(place.id, around - 1);
        to = programs::put_line_unchecked(out, to, line.as_str().as_bytes());
    }
    to
}

// How many places of a file lie within a reach of a place; the place itself is one, if it is of the file.
fn count_around(places: Places<'_>, place: Place, reach: i64) -> usize
    requires { Within (pos 0) (pos reach_limit) reach }
    ensures { result ≡ length (within_reach (places_read places.entry.bytes.now most_places) place.x place.y reach) }
{
    lookup_all::count_unchecked(places, place.x as i64, place.y as i64, reach)
}
