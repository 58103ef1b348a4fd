// A map sheet, its checks, and what is on it (document 01, 'Units and the sheet' and 'From globe to map'; 'sheet' and 'unit' are its
// words). A unit is a millionth of a degree of arc; map coordinates are in the same unit.
//
// A function whose name ends in _unchecked is not offered to callers, as in trig.

#![tactic(auto)]

ghost use Rattle.std.specs.Prelude.{◌≡◌, true, [], ◌≤◌, pos, IfOk};
ghost use Rattle.arith.specs.Bounds.{Size};
ghost use Rattle.refusal.specs.Numbers.{reply_by};
ghost use Rattle.trig.specs.Trig.{angle_of, cosine_of};
ghost use Rattle.sheet.specs.Sheets.{blank_sheet, passes_checks, within_limits, cone_agrees, radius_agrees, constants_agree, check_reply, reply_of, shifted, offset_of, on_sheet};

use cone::Cone;
use refusal::Refusal;
use trig::{ONE, Radians};

// The constants may differ from what the parallels give by this, in ONEths.
const TOLERANCE: u32 = 32;

// A sheet of the equidistant conic projection: an area between two latitudes and two longitudes, drawn on a cone. Its numbers are in
// units, but for the cone constant.
#[derive(Clone, Copy)]
pub struct Sheet {
    // The parallels at which the scale is true.
    pub first_parallel: i32,
    pub second_parallel: i32,
    // The latitude and the longitude of the map's point x = 0, y = 0.
    pub origin_latitude: i32,
    pub central_meridian: i32,
    // The latitudes between which the sheet lies.
    pub south_edge: i32,
    pub north_edge: i32,
    // How far it reaches west and east of the central meridian.
    pub half_width: u32,
    // An angle on the cone as a share of that on the globe, in ONEths: n.
    pub cone_constant: u32,
    // The radius of the Equator's arc on the map: g.
    pub radius_constant: i32,
}

// Zeros: what an answer holds where there is no sheet.
pub fn blank() -> Sheet
    ensures { result ≡ blank_sheet }
{
    Sheet {
        first_parallel: 0,
        second_parallel: 0,
        origin_latitude: 0,
        central_meridian: 0,
        south_edge: 0,
        north_edge: 0,
        half_width: 0,
        cone_constant: 0,
        radius_constant: 0,
    }
}

// A sheet that passes its checks.
#[derive(Clone, Copy)]
pub struct CheckedSheet {
    pub sheet: Sheet,
    pub ghost passes: { passes_checks sheet ≡ true },
}

impl CheckedSheet {
    // The sheet, if it is within its limits (else refusal 4) and its constants agree with its parallels (else 5).
    #[tactic(auto, unfolding(crate::specs::Sheets::sheet_rules))]
    pub fn new(sheet: Sheet) -> Result<CheckedSheet, Refusal>
        ensures reply { reply_by 0 (λ _. []) result ≡ check_reply sheet }
        ensures sheet { IfOk result (λ checked. checked.sheet ≡ sheet) }
    {
        if !within_limits(sheet) {
            return Err(Refusal::SheetLimit);
        }
        if !constants_agree(sheet) {
            return Err(Refusal::SheetConstants);
        }
        Ok(CheckedSheet { sheet })
    }

    // The cone that the sheet is drawn on.
    pub fn cone(self) -> Cone
        ensures constant_value { result.constant ≡ self.sheet.cone_constant }
        ensures half_width_value { result.half_width ≡ self.sheet.half_width }
    {
        Cone {
            constant: self.sheet.cone_constant,
            half_width: self.sheet.half_width,
        }
    }
}

// Whether the sheet passes its checks: 4, 5.
pub fn check(sheet: Sheet) -> Result<(), Refusal>
    ensures { reply_of result ≡ check_reply sheet }
{
    CheckedSheet::new(sheet)?;
    Ok(())
}

// The four lines of limits.
fn within_limits(sheet: Sheet) -> bool
    ensures { result ≡ within_limits sheet }
{
    let f1 = sheet.first_parallel;
    let f2 = sheet.second_parallel;
    let f0 = sheet.origin_latitude;
    let m0 = sheet.central_meridian;
    let fs = sheet.south_edge;
    let fn_ = sheet.north_edge;
    let w = sheet.half_width;
    let n = sheet.cone_constant as i64;
    let g = sheet.radius_constant as i64;
    let parallels = (5000000 <= f1) & (f1 <= f2) & (f2 <= 80000000) & (fs <= f1) & (f2 <= fn_);
    let latitudes = (0 <= fs) & (fs <= f0) & (f0 <= fn_) & (fn_ <= 90000000);
    let longitudes = (-180000000 <= m0) & (m0 < 180000000) & (1 <= w) & (w <= 60000000);
    let constants = (134217728 <= n)
        & (n <= ONE)
        & (1000000 <= g - fn_ as i64)
        & (g - fs as i64 <= 268435456);
    parallels & latitudes & longitudes & constants
}

// The two rules of the constants, for a sheet within its limits.
fn constants_agree(sheet: Sheet) -> bool
    requires { within_limits sheet ≡ true }
    ensures { result ≡ constants_agree sheet }
{
    let n = sheet.cone_constant;
    let f1 = sheet.first_parallel as i64;
    let f2 = sheet.second_parallel as i64;
    let g = sheet.radius_constant as i64;
    cone_agrees(n, f1, f2) & radius_agrees(n, f1, g - f1)
}

// The cone constant against the sine of the one parallel, or the cosines of the two.
fn cone_agrees(n: u32, f1: i64, f2: i64) -> bool
    requires n_bound { n ≤ 1073741824 }
    requires size { Size (pos 80000000) f1 }
    requires size_2 { Size (pos 80000000) f2 }
    ensures { result ≡ cone_agrees (pos n) f1 f2 }
{
    if f1 < f2 {
        let fall = cosine_at(f1) - cosine_at(f2);
        trig::size_up_to(cone::cone_angle_unchecked(n, f2 - f1) - fall, TOLERANCE)
    } else {
        let t = trig::angle_unchecked(f1);
        let sine = Radians { t }.sine();
        trig::size_up_to(n as i64 - sine, TOLERANCE)
    }
}

// The radius of the first parallel against its cosine.
fn radius_agrees(n: u32, f1: i64, r1: i64) -> bool
    requires n_bound { n ≤ 1073741824 }
    requires size { Size (pos 80000000) f1 }
    requires size_2 { Size (pos 268435456) r1 }
    ensures { result ≡ radius_agrees (pos n) f1 r1 }
{
    trig::size_up_to(cone::cone_angle_unchecked(n, r1) - cosine_at(f1), TOLERANCE)
}

// The cosine of a parallel.
fn cosine_at(f: i64) -> i64
    requires { Size (pos 80000000) f }
    ensures { result ≡ cosine_of (angle_of f) }
{
    let t = trig::angle_unchecked(f);
    Radians { t }.cosine()
}

// A difference of two longitudes, or a longitude plus an offset, shifted once by 360 degrees where it is not from -180 up to, not
// including, 180 degrees.
pub fn shift(a: i64) -> i64
    ensures { result ≡ shifted a }
{
    if a < -180000000 {
        a + 360000000
    } else if a < 180000000 {
        a
    } else {
        a - 360000000
    }
}

// How far a longitude lies east of the central meridian, negative to the west; not offered to callers.
pub fn offset_unchecked(sheet: Sheet, longitude: i64) -> i64
    requires { Size (pos 180000000) longitude }
    ensures { result ≡ offset_of sheet longitude }
{
    shift(longitude - sheet.central_meridian as i64)
}

// Whether a position is on the sheet. The sheet itself is not checked here: see check.
pub fn on_sheet(sheet: Sheet, latitude: i64, longitude: i64) -> bool
    ensures { result ≡ on_sheet sheet latitude longitude }
{
    if trig::size_up_to(longitude, 180000000) {
        let d = offset_unchecked(sheet, longitude);
        (sheet.south_edge as i64 <= latitude)
            & (latitude <= sheet.north_edge as i64)
            & trig::size_up_to(d, sheet.half_width)
    } else {
        false
    }
}
