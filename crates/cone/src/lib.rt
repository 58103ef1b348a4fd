// The cone that a sheet is drawn on: the angle of an offset on it, and where a map point lies from its apex, v below it and x beside it
// (document 01, 'From globe to map' and 'From map to globe'). n is the cone constant, w the half-width.
//
// Nothing here is offered to callers.

#![tactic(auto)]

ghost use Rattle.std.specs.Prelude.{◌≡◌, ◌≤◌, pos, ◌-ℤ◌, ◌*ℤ◌, ◌<ℤ◌};
ghost use Rattle.std.specs.Int.Signed.{le_z};
ghost use Rattle.arith.specs.Bounds.{Size};
ghost use Rattle.trig.specs.Trig.{sine_limit};
ghost use Rattle.cone.specs.Cone.{cone_angle_of, IsX, IsV, radius_at, sine_cosine_at, offset_at};
ghost use Rattle.cone.specs.Settled.{least_rise, east_of};

use trig::{ONE, SineCosine};

// A map point: it lies v below the cone's apex and x beside it.
#[derive(Clone, Copy)]
pub struct ConePoint {
    pub x: i64,
    pub v: i64,
    ghost x_range: { IsX x },
    ghost v_range: { IsV v },
}

impl ConePoint {
    // The distance from the cone's apex.
    pub fn radius(self) -> i64
        ensures { result ≡ radius_at self.x self.v }
    {
        trig::root_unchecked(self.x * self.x + self.v * self.v)
    }

    // Whether the point does not lie left of a direction. (A sine is no larger than its angle, so that sine_limit bounds it too.)
    pub fn is_not_left_unchecked(self, at: SineCosine) -> bool
        requires size { Size (pos sine_limit) at.sine }
        requires size_2 { Size (pos 1073741824) at.cosine }
        ensures { result ≡ le_z (self.v *ℤ at.sine) (self.x *ℤ at.cosine) }
    {
        self.x * at.cosine >= self.v * at.sine
    }

    // Whether it does not lie right of a direction. (No plainer as one function: a side as an Ordering would be tested again at each of its three uses.)
    pub fn is_not_right_unchecked(self, at: SineCosine) -> bool
        requires size { Size (pos sine_limit) at.sine }
        requires size_2 { Size (pos 1073741824) at.cosine }
        ensures { result ≡ le_z (self.x *ℤ at.cosine) (self.v *ℤ at.sine) }
    {
        self.x * at.cosine <= self.v * at.sine
    }
}

// What the cone needs of a sheet: its cone constant n and its half-width w.
#[derive(Clone, Copy)]
pub struct Cone {
    pub constant: u32,
    pub half_width: u32,
    ghost n_bound: { constant ≤ 1073741824 },
    ghost w_bound: { half_width ≤ 60000000 },
}

// An angle of a units times n, radians in ONEths: of an offset, the angle on the cone. No method of Cone: a sheet's check calls it for a cone
// constant before there is a Cone.
pub fn cone_angle_unchecked(n: u32, a: i64) -> i64
    requires n_bound { n ≤ 1073741824 }
    requires size { Size (pos 268435456) a }
    ensures { result ≡ cone_angle_of (pos n) a }
{
    n as i64 * trig::angle_unchecked(a) / ONE
}

impl Cone {
    // Sine and cosine at an offset from the central meridian. (No plainer with a type for the offset: each of the three functions that ask for its
    // size knows it in another way.)
    pub fn sine_cosine_unchecked(self, d: i64) -> SineCosine
        requires { Size (pos 60000000) d }
        ensures { result ≡ sine_cosine_at (pos self.constant) d }
    {
        trig::Radians {
            t: cone_angle_unchecked(self.constant, d),
        }
        .sine_cosine()
    }

    // By how much the sine rises at least from an offset to the next.
    pub fn least_rise(self) -> i64
        ensures { result ≡ least_rise (pos self.constant) (pos self.half_width) }
    {
        let t = cone_angle_unchecked(self.constant, self.half_width as i64);
        let z = t * t / ONE;
        let further = 18 * (self.constant as i64) / ONE;
        (further * (2147483648 - z - 1) - 3 * t) / 2147483648
    }

    // The offset of a map point from the central meridian. It is known at once where the point lies near enough to an offset that is guessed (Laws:
    // SettledHere, SettledBefore); otherwise a halving that starts at the guess finds it. `rise` is the cone's least_rise.
    pub fn offset_unchecked(self, point: ConePoint, rise: i64) -> i64
        requires { rise ≡ least_rise (pos self.constant) (pos self.half_width) }
        ensures { result ≡ offset_at (pos self.constant) point.x point.v (pos self.half_width) }
    {
        let near = guess::offset(self.constant, point.x as i32, point.v as i32);
        let width = self.half_width as i64;
        if (-width < near) & (near < width) {
            let east = self.east_of(point, near);
            let margin = point.v * rise;
            if (-margin <= east) & (east < margin) {
                return if east < 0 { near - 1 } else { near };
            }
        }
        self.halve(point, near)
    }

    // How far a map point lies east of an offset's direction, in ONEths of a unit; negative to the west.
    fn east_of(self, point: ConePoint, d: i64) -> i64
        requires { Size (pos 60000000) d }
        ensures { result ≡ east_of (pos self.constant) point.x point.v d }
    {
        let at = self.sine_cosine_unchecked(d);
        point.x * at.cosine - point.v * at.sine
    }

    // Document 01's halving, but for where it cuts: anywhere between lo and hi gives the same offset (Laws: LastLoCut), and it cuts near the guess.
    fn halve(self, point: ConePoint, near: i64) -> i64
        requires { Size (pos 4503599627370496) near }
        ensures { result ≡ offset_at (pos self.constant) point.x point.v (pos self.half_width) }
    {
        let mut hi = self.half_width as i64;
        let mut lo = -hi;
        // counts no index: lo and hi close in on the offset
        while hi - lo > 1 {
            let mid = cut(near, lo, hi);
            if point.is_not_left_unchecked(self.sine_cosine_unchecked(mid)) {
                lo = mid;
            } else {
                hi = mid;
            }
        }
        lo
    }
}

// Where to cut between lo and hi: at near or, turn by turn, 1, 3, 7, .. beyond it; in the middle where that does not lie between them.
fn cut(near: i64, lo: i64, hi: i64) -> i64
    requires size { Size (pos 4503599627370496) near }
    requires size_2 { Size (pos 60000000) lo }
    requires size_3 { Size (pos 60000000) hi }
    requires pos_bound { pos 1 <ℤ (hi -ℤ lo) }
    ensures lower_bound { lo <ℤ result }
    ensures upper_bound { result <ℤ hi }
{
    let next = if near <= lo {
        lo + (lo - near) + 1
    } else if near >= hi {
        hi - (near - hi) - 1
    } else {
        near
    };
    if (lo < next) & (next < hi) {
        next
    } else {
        lo + (hi - lo) / 2
    }
}
