// Guesses by floats, for a root and for the offset of a map point. Nothing has to be proved of how near they come: each is tried by an exact test
// in whole numbers, and where it fails a loop finds the answer, so that a bad guess costs time and changes no answer. A contract says how large a
// guess may be, and no more. Not offered to callers.

#![tactic(auto)]

ghost use Rattle.std.specs.Prelude.{pos};
ghost use Rattle.arith.specs.Bounds.{Size};

// A whole number near the square root of q: q times 1 / √q.
pub fn root(q: u64) -> i64
    ensures { Size (pos 4503599627370496) result }
{
    let high = float((q / 4294967296) as u32);
    let low = float((q % 4294967296) as u32);
    let f = high * 4294967296.0 + low;
    nearest_whole(f * reciprocal_root(f))
}

// n as a float, from the bits of 2^52 + n. (A conversion by the processor waits for what its register held before.)
fn float(n: u32) -> f64 {
    f64::from_bits(4841369599423283200 + n as u64) - 4503599627370496.0
}

// 1 / √f: half the exponent, negated, by f's bits (near to 3.5 percent), then three of Newton's steps (1.8e-3, 4.7e-6, 3.4e-11).
fn reciprocal_root(f: f64) -> f64 {
    if 0.0 < f {
        let half = 0.5 * f;
        let bits = f64::to_bits(f) % 9223372036854775808;
        let start = f64::from_bits(6910469410427058089 - bits / 2);
        let once = start * (1.5 - half * start * start);
        let twice = once * (1.5 - half * once * once);
        return twice * (1.5 - half * twice * twice);
    }
    0.0
}

// A whole number near the offset of the map point that lies v below the cone's apex and x beside it, for the cone constant n. 6.15e16 is
// ONE × 180,000,000 / pi; 1.1e-9 radians is about what the steps of angle, sine and cosine drop.
pub fn offset(n: u32, x: i32, v: i32) -> i64
    ensures { Size (pos 4503599627370496) result }
{
    let t = arctangent(x as f64, v as f64);
    let dropped = if x < 0 { -1.1e-9 } else { 1.1e-9 };
    nearest_whole((t + dropped) * (6.152087480187885e16 / (n as f64)))
}

// The angle in radians, up to 60 degrees, whose tangent is x / v: x / v times a rational function of its square, near to 5e-10.
fn arctangent(x: f64, v: f64) -> f64 {
    let a = x * x;
    let b = v * v;
    let b2 = b * b;
    let b3 = b2 * b;
    let b4 = b2 * b2;
    let p = (((6.62666955910536454e-4 * a + 5.37509376742137148e-2 * b) * a
        + 0.526425034892473814 * b2)
        * a
        + 1.37885425716790189 * b3)
        * a
        + 0.999999992834145376 * b4;
    let q = (((5.84928380797549432e-3 * a + 0.153203832070181359 * b) * a
        + 0.897157616285604388 * b2)
        * a
        + 1.71218729660793374 * b3)
        * a
        + b4;
    x * p / (v * q)
}

// The nearest whole number, where it is of size below 2^51; else 0. A float from 2^52 up to 2^53 has no fraction, and its last 52 bits are the
// number less 2^52.
fn nearest_whole(d: f64) -> i64
    ensures { Size (pos 4503599627370496) result }
{
    let m = d + 6755399441055744.0;
    if m >= 4503599627370496.0 {
        if m < 9007199254740992.0 {
            let digits = f64::to_bits(m) % 4503599627370496;
            return digits as i64 - 2251799813685248;
        }
    }
    0
}
