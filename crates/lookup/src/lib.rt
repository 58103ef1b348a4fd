// Places of an atlas file by the file's bytes alone, for callers that keep no table: the place at a position, and the place nearest to a tap.

#![tactic(auto)]

ghost use Rattle.std.specs.Prelude.{◌≡◌};
ghost use Rattle.lookup.specs.Lookups.{lookup_reply_of, place_at_reply, nearest_among, nearest_place_reply};

use atlas::Places;
use atlas_file::{FileRefusal, MOST_PLACES};
use place::Place;
use refusal::Refusal;

// A place that was found, and its position in the file, counted from 0.
#[derive(Clone, Copy)]
pub struct Found {
    pub position: usize,
    pub place: Place,
}

// The place at a position of a file: the file's own refusals, then 12 if it has no place there. A refusal that is not the file's has offset 0.
pub fn place_at(bytes: &[u8], position: usize) -> Result<Found, FileRefusal>
    ensures { lookup_reply_of result ≡ place_at_reply bytes.now position }
{
    let places = Places::read(bytes)?;
    if places.count <= position {
        return Err(FileRefusal::from(Refusal::OutOfRange));
    }
    Ok(Found {
        position,
        place: places.place_unchecked(position),
    })
}

// The place of a file that is nearest to the tap at x, y: the file's own refusals, then 12 and 13 as of a tap.
pub fn nearest_place(bytes: &[u8], x: i64, y: i64, reach: i64) -> Result<Found, FileRefusal>
    ensures { lookup_reply_of result ≡ nearest_place_reply bytes.now x y reach }
{
    let mut table = [place::blank(); MOST_PLACES];
    let atlas = atlas::read(bytes, &mut table)?;
    nearest_among(&table[..atlas.count], x, y, reach)
}

// The place nearest to a tap among some places.
fn nearest_among(places: &[Place], x: i64, y: i64, reach: i64) -> Result<Found, FileRefusal>
    ensures { lookup_reply_of result ≡ nearest_among x y reach places.now }
{
    let position = nearest::nearest(places, x, y, reach)?;
    Ok(Found {
        position,
        place: table::place_at_unchecked(places, position),
    })
}
