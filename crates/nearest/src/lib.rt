// The place nearest to a tap (document 01, 'Taps'; 'tap' and 'reach' are its terms). A tap is a point x, y of the map; its reach is how far
// from it, in units, a place may lie to be found.
//
// A function whose name ends in _unchecked is not offered to callers, as in trig.

#![tactic(auto)]

ghost use Rattle.std.specs.Prelude.{◌≡◌, pos, None, is_ok, IfOk, IfErr};
ghost use Rattle.arith.specs.Bounds.{Size};
ghost use Rattle.refusal.specs.declared.Refusal.TheVariants.{OutOfRange};
ghost use Rattle.nearest.specs.Taps.{tap_limit, tap_in_range, squared, squared_distance, candidate_at, is_before, is_within_reach, within_reach_from, is_better, best_of, nearest_reply, difference_limit, usual_reach, nearest_reply_of};

use place::Place;
use refusal::Refusal;

// The reach of a tap that names none, in units.
pub const USUAL_REACH: i64 = 50000;

// A tap's coordinates are of size up to this.
const TAP_LIMIT: u32 = 536870912;

// A reach is from 0 to this.
const REACH_LIMIT: i64 = 1048576;

// A place by what the order compares, in its order: squared distance from the tap, then id, then position in the table.
#[derive(Clone, Copy, PartialEq, Eq, PartialOrd, Ord)]
pub struct Candidate {
    pub squared_distance: u64,
    pub id: u32,
    pub position: usize,
}

// The order: whether a comes before b, by squared distance, then id, then position.
#[tactic(auto, unfolding(crate::specs::Taps::is_before))]
pub fn is_before(a: Candidate, b: Candidate) -> bool
    ensures { result ≡ is_before a b }
{
    a < b
}

// The place of a table that is nearest to the tap at x, y: its position, counted from 0. Refused with 12 if a coordinate or the reach is out
// of range, then 13 if no place is within reach.
#[tactic(auto, unfolding(crate::specs::Taps::nearest_reply, crate::specs::Taps::within_reach))]
pub fn nearest(table: &[Place], x: i64, y: i64, reach: i64) -> Result<usize, Refusal>
    ensures { nearest_reply_of result ≡ nearest_reply table.now x y reach }
{
    let tap = Tap::new(x, y, reach)?;
    let Some(nearest) = tap.best_of(table) else {
        return Err(Refusal::NothingInReach);
    };
    Ok(nearest.position)
}

// The same for a tap without a reach.
pub fn nearest_in_usual_reach(table: &[Place], x: i64, y: i64) -> Result<usize, Refusal>
    ensures { nearest_reply_of result ≡ nearest_reply table.now x y usual_reach }
{
    nearest(table, x, y, USUAL_REACH)
}

// Whether a tap's coordinates and its reach are within their limits.
pub fn tap_in_range(x: i64, y: i64, reach: i64) -> bool
    ensures { result ≡ tap_in_range x y reach }
{
    trig::size_up_to(x, TAP_LIMIT)
        & trig::size_up_to(y, TAP_LIMIT)
        & ((0 <= reach) & (reach <= REACH_LIMIT))
}

// The square of a number that is no larger than the difference of a place's coordinate and a tap's; not offered to callers.
pub fn square_unchecked(a: i64) -> u64
    requires { Size (pos difference_limit) a }
    ensures { result ≡ squared a }
{
    (a * a) as u64
}

// A tap in range, with the square of its reach.
#[derive(Clone, Copy)]
pub struct Tap {
    pub x: i64,
    pub y: i64,
    pub squared_reach: u64,
    ghost x_in_range: { Size (pos tap_limit) x },
    ghost y_in_range: { Size (pos tap_limit) y },
}

impl Tap {
    // Refused with 12 if a coordinate or the reach is out of range.
    pub fn new(x: i64, y: i64, reach: i64) -> Result<Self, Refusal>
        ensures in_range { is_ok result ≡ tap_in_range x y reach }
        ensures tap { IfOk result (λ tap. (tap.x ≡ x) × (tap.y ≡ y) × (tap.squared_reach ≡ squared reach)) }
        ensures refused { IfErr result (λ refusal. refusal ≡ OutOfRange) }
    {
        if !tap_in_range(x, y, reach) {
            return Err(Refusal::OutOfRange);
        }
        let squared_reach = square_unchecked(reach);
        Ok(Tap {
            x,
            y,
            squared_reach,
        })
    }

    // The squared distance of a place. It may pass 2^63: an i64 would wrap.
    fn squared_distance(self, place: Place) -> u64
        ensures { result ≡ squared_distance self.x self.y place }
    {
        square_unchecked(place.x as i64 - self.x) + square_unchecked(place.y as i64 - self.y)
    }

    // A place as a candidate.
    pub fn candidate(self, place: Place, position: usize) -> Candidate
        ensures { result ≡ candidate_at self.x self.y place position }
    {
        Candidate {
            squared_distance: self.squared_distance(place),
            id: place.id,
            position,
        }
    }

    // Whether a place is within reach.
    pub fn reaches(self, place: Place) -> bool
        ensures { result ≡ is_within_reach self.x self.y self.squared_reach place }
    {
        self.squared_distance(place) <= self.squared_reach
    }

    // The first by `is_before` of a table's places within reach.
    fn best_of(self, table: &[Place]) -> Option<Candidate>
        ensures { result ≡ best_of None (within_reach_from 0 table.now self.x self.y self.squared_reach) }
    {
        let mut best = None;
        for position in 0..table.len() {
            let place = table::place_at_unchecked(table, position);
            let candidate = self.candidate(place, position);
            if self.is_better(best, candidate) {
                best = Some(candidate);
            }
        }
        best
    }

    // Whether a candidate is within reach and comes before the best so far.
    #[tactic(auto, unfolding(crate::specs::Taps::is_better))]
    fn is_better(self, best: Option<Candidate>, candidate: Candidate) -> bool
        ensures { result ≡ is_better best candidate self.squared_reach }
    {
        if self.squared_reach < candidate.squared_distance {
            return false;
        }
        match best {
            None => true,
            Some(first) => is_before(candidate, first),
        }
    }
}
