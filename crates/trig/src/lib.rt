// Radians, sine, cosine and root in whole numbers (document 01, 'Angle, sine, cosine, root'). Radians, sines and cosines are in
// ONEths: ONE stands for 1.
//
// A function whose name ends in _unchecked is not offered to callers: it is for a number that is known to be in range, and the
// proof of each function that calls it shows that. The function without that ending takes any number, checks, and refuses.

#![tactic(auto)]

ghost use Rattle.std.specs.Prelude.{◌≡◌, true, ◌+◌, ◌*◌, ◌≤◌, pos, nat_abs, cond, Ok, Err};
ghost use Rattle.arith.specs.Bounds.{Size, Within, size_up_to};
ghost use Rattle.refusal.specs.declared.Refusal.TheVariants.{OutOfRange};
ghost use Rattle.trig.specs.Trig.{angle_of, angle_reply, cosine_row, IsRow, IsSquare, square_of, series_of, sine_of, sine_reply, cosine_of, cosine_reply, root_of, root_reply, angle_limit, sine_limit, root_limit, reply_of};

use refusal::Refusal;

// 2^30, which stands for 1.
pub const ONE: i64 = 1073741824;

// 2^60 × pi / 180,000,000, fraction dropped: radians in ONEths for ONE units.
const ANGLE_FACTOR: i64 = 20122276272;

// Angle takes a number of size up to this.
const ANGLE_LIMIT: u32 = 360000000;

// Sine and cosine take a number of size up to this, 1.5 ONE.
const SINE_LIMIT: u32 = 1610612736;

// The largest number that root takes, 2^60.
const ROOT_LIMIT: i64 = 1152921504606846976;

// The factors: row 0 is sine's, row 1 cosine's. Rule of the project: a constant array of two rows (docs/DEMANDS.md, 'Forms we want to see').
const FACTORS: [[u32; 6]; 2] = [[6, 20, 42, 72, 110, 156], [2, 12, 30, 56, 90, 132]];

// Whether a is of size up to the limit.
pub fn size_up_to(a: i64, limit: u32) -> bool
    ensures { result ≡ size_up_to limit a }
{
    let n = limit as i64;
    -n <= a && a <= n
}

// Refuses a number that is not in range.
fn in_range(is_in: bool) -> Result<(), Refusal>
    ensures { result ≡ cond is_in (Ok tt) (Err OutOfRange) }
{
    if is_in {
        Ok(())
    } else {
        Err(Refusal::OutOfRange)
    }
}

// Units, millionths of a degree of arc, as radians in ONEths.
#[tactic(auto, unfolding(crate::specs::Trig::offered))]
pub fn angle(a: i64) -> Result<i64, Refusal>
    ensures { reply_of result ≡ angle_reply a }
{
    in_range(size_up_to(a, ANGLE_LIMIT))?;
    Ok(angle_unchecked(a))
}

// The same of a number in range; not offered to callers.
pub fn angle_unchecked(a: i64) -> i64
    requires { Size (pos angle_limit) a }
    ensures { result ≡ angle_of a }
{
    a * ANGLE_FACTOR / ONE
}

// An angle that sine and cosine take: t, radians in ONEths.
#[derive(Clone, Copy)]
pub struct Radians {
    pub t: i64,
    ghost in_range: { Size (pos sine_limit) t },
}

// The sine and the cosine of one angle.
#[derive(Clone, Copy)]
pub struct SineCosine {
    pub sine: i64,
    pub cosine: i64,
}

impl Radians {
    pub fn sine(self) -> i64
        ensures { result ≡ sine_of self.t }
    {
        self.sine_by_square(self.square())
    }

    pub fn cosine(self) -> i64
        ensures { result ≡ cosine_of self.t }
    {
        cosine_by_square(self.square())
    }

    // Both, which share the angle's square.
    pub fn sine_cosine(self) -> SineCosine
        ensures sine_value { result.sine ≡ sine_of self.t }
        ensures cosine_value { result.cosine ≡ cosine_of self.t }
    {
        let z = self.square();
        SineCosine {
            sine: self.sine_by_square(z),
            cosine: cosine_by_square(z),
        }
    }

    // The sine, where z is the angle's square.
    fn sine_by_square(self, z: i64) -> i64
        requires { z ≡ square_of self.t }
        ensures { result ≡ sine_of self.t }
    {
        self.t * series(FACTORS[0], z) / ONE
    }

    // The square, in ONEths.
    fn square(self) -> i64
        ensures { result ≡ square_of self.t }
    {
        self.t * self.t / ONE
    }
}

// The sine of t, radians in ONEths.
#[tactic(auto, unfolding(crate::specs::Trig::offered))]
pub fn sine(t: i64) -> Result<i64, Refusal>
    ensures { reply_of result ≡ sine_reply t }
{
    in_range(size_up_to(t, SINE_LIMIT))?;
    Ok(Radians { t }.sine())
}

// The cosine of t, radians in ONEths.
#[tactic(auto, unfolding(crate::specs::Trig::offered))]
pub fn cosine(t: i64) -> Result<i64, Refusal>
    ensures { reply_of result ≡ cosine_reply t }
{
    in_range(size_up_to(t, SINE_LIMIT))?;
    Ok(Radians { t }.cosine())
}

// The cosine of an angle whose square is z.
fn cosine_by_square(z: i64) -> i64
    requires { IsSquare z }
    ensures { result ≡ series_of cosine_row z }
{
    series(FACTORS[1], z)
}

// The evaluation that sine and cosine share, from the row's last factor to its first. z is a square: from 0 to 2.25 ONE.
fn series(row: [u32; 6], z: i64) -> i64
    requires row { IsRow row }
    requires square { IsSquare z }
    ensures { result ≡ series_of row z }
{
    let mut p = ONE;
    for factor in row.iter().rev() {
        p = ONE - z * p / (ONE * *factor as i64);
    }
    p
}

// The whole number nearest the square root of q.
#[tactic(auto, unfolding(crate::specs::Trig::offered))]
pub fn root(q: i64) -> Result<i64, Refusal>
    ensures { reply_of result ≡ root_reply q }
{
    in_range(1 <= q && q <= ROOT_LIMIT)?;
    Ok(root_unchecked(q))
}

// The same of a number in range; not offered to callers. A guess that is one off has the root beside it; otherwise the root from below gives it.
pub fn root_unchecked(q: i64) -> i64
    requires { Within (pos 1) (pos root_limit) q }
    ensures { result ≡ pos (root_of (nat_abs q)) }
{
    let near = guess::root(q as u64);
    if (1 <= near) & (near <= ONE) {
        if is_root(q, near) {
            return near;
        }
        let beside = if near * near < q { near + 1 } else { near - 1 };
        if is_root(q, beside) {
            return beside;
        }
    }
    root_from_below(q)
}

// Whether s is the root: -s < q - s² ≤ s.
fn is_root(q: i64, s: i64) -> bool
    requires q { Within (pos 1) (pos root_limit) q }
    requires s { Within (pos 0) (pos 1073741825) s }
    ensures { result ≡ true → s ≡ pos (root_of (nat_abs q)) }
{
    let off = q - s * s;
    (-s < off) & (off <= s)
}

// The same by the root from below, rounded.
fn root_from_below(q: i64) -> i64
    requires { Within (pos 1) (pos root_limit) q }
    ensures { result ≡ pos (root_of (nat_abs q)) }
{
    let below = q.isqrt();
    if q - below * below > below {
        below + 1
    } else {
        below
    }
}
