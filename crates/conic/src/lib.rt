// The equidistant conic projection on the sphere, northern cone (Snyder, chapter 16; document 01, 'From globe to map' and 'From map
// to globe').
//
// A function whose name ends in _unchecked is not offered to callers, as in trig.

#![tactic(auto)]

ghost use Rattle.std.specs.Prelude.{◌≡◌, true, pos};
ghost use Rattle.arith.specs.Bounds.{Size};
ghost use Rattle.trig.specs.Trig.{sine_limit};
ghost use Rattle.cone.specs.Cone.{radius_at};
ghost use Rattle.sheet.specs.Sheets.{on_sheet};
ghost use Rattle.conic.specs.Conic.{x_at, y_at, x_of, y_of, forward_reply, map_reply_of};
ghost use Rattle.conic.specs.MapToGlobe.{edge_values_of, point_on_sheet, latitude_at, longitude_at, held_reply, inverse_reply, globe_reply_of};
ghost use Rattle.conic.specs.Values.{inverse_values_of};

use cone::ConePoint;
use refusal::Refusal;
use sheet::{CheckedSheet, Sheet};
use trig::{ONE, Radians, SineCosine};

// A map coordinate that inverse takes is of size up to this.
const POINT_LIMIT: u32 = 536870912;

// A point of a sheet's map, in units.
#[derive(Clone, Copy, Debug, PartialEq, Eq)]
pub struct MapPoint {
    pub x: i64,
    pub y: i64,
}

// From globe to map: where a latitude and a longitude lie on the sheet's map. Refused with 4 or 5 for the sheet, then 12 (out of
// range), then 11 (off the sheet). (No plainer with a Position for the two numbers: no caller has one.)
pub fn forward(sheet: Sheet, latitude: i64, longitude: i64) -> Result<MapPoint, Refusal>
    ensures { map_reply_of result ≡ forward_reply sheet latitude longitude }
{
    forward_on(&CheckedSheet::new(sheet)?, latitude, longitude)
}

// The same on a checked sheet.
pub fn forward_on(
    checked: &CheckedSheet,
    latitude: i64,
    longitude: i64,
) -> Result<MapPoint, Refusal>
    ensures { map_reply_of result ≡ forward_reply checked.now.sheet latitude longitude }
{
    if !(trig::size_up_to(latitude, 90000000) & trig::size_up_to(longitude, 180000000)) {
        return Err(Refusal::OutOfRange);
    }
    if !sheet::on_sheet(checked.sheet, latitude, longitude) {
        return Err(Refusal::OffSheet);
    }
    Ok(point_of(*checked, latitude, longitude))
}

// The map point of a position on the sheet.
fn point_of(checked: CheckedSheet, latitude: i64, longitude: i64) -> MapPoint
    requires { on_sheet checked.sheet latitude longitude ≡ true }
    ensures x_value { result.x ≡ x_of checked.sheet latitude longitude }
    ensures y_value { result.y ≡ y_of checked.sheet latitude longitude }
{
    let d = sheet::offset_unchecked(checked.sheet, longitude);
    let t = cone::cone_angle_unchecked(checked.sheet.cone_constant, d);
    let g = checked.sheet.radius_constant as i64;
    let f0 = checked.sheet.origin_latitude as i64;
    point_at(g - f0, g - latitude, t)
}

// The map point at the radius r and the angle t on the cone; r0 is the radius of the map's origin.
fn point_at(r0: i64, r: i64, t: i64) -> MapPoint
    requires size { Size (pos 268435456) r0 }
    requires size_2 { Size (pos 268435456) r }
    requires size_3 { Size (pos sine_limit) t }
    ensures x_value { result.x ≡ x_at r t }
    ensures y_value { result.y ≡ y_at r0 r t }
{
    let at = Radians { t }.sine_cosine();
    MapPoint {
        x: r * at.sine / ONE,
        y: r0 - r * at.cosine / ONE,
    }
}

// A position on the globe, in units.
#[derive(Clone, Copy, Debug, PartialEq, Eq)]
pub struct Position {
    pub latitude: i64,
    pub longitude: i64,
}

// What map to globe needs that depends on the sheet alone: the radius of the map's origin, and sine and cosine at both edges.
#[derive(Clone, Copy)]
pub struct EdgeValues {
    pub origin_radius: i64,
    pub west: SineCosine,
    pub east: SineCosine,
}

// The edge values, and by how much the sine rises at least from an offset to the next: worked out once for many points.
#[derive(Clone, Copy)]
pub struct InverseValues {
    pub edges: EdgeValues,
    pub least_rise: i64,
}

// From map to globe: the position of a point of the sheet's map. Refused with 4 or 5 for the sheet, then 12 (out of range), then 11 (off
// the sheet), then 15 (the position would be off its own sheet, which never occurs).
pub fn inverse(sheet: Sheet, x: i64, y: i64) -> Result<Position, Refusal>
    ensures { globe_reply_of result ≡ inverse_reply sheet x y }
{
    inverse_on(CheckedSheet::new(sheet)?, x, y)
}

// The same on a checked sheet.
pub fn inverse_on(checked: CheckedSheet, x: i64, y: i64) -> Result<Position, Refusal>
    ensures { globe_reply_of result ≡ inverse_reply checked.sheet x y }
{
    InverseProjection::new(checked).position(x, y)
}

// Map to globe on one checked sheet, for many points: the sheet's values are worked out once.
#[derive(Clone, Copy)]
pub struct InverseProjection {
    pub checked: CheckedSheet,
    pub values: InverseValues,
    pub ghost own: { values ≡ inverse_values_of checked.sheet },
}

impl InverseProjection {
    pub fn new(checked: CheckedSheet) -> InverseProjection
        ensures { result.checked ≡ checked }
    {
        let values = inverse_values(checked);
        InverseProjection { checked, values }
    }

    // The position of a point of the sheet's map.
    pub fn position(&self, x: i64, y: i64) -> Result<Position, Refusal>
        ensures { globe_reply_of result ≡ inverse_reply self.now.checked.sheet x y }
    {
        let sheet = self.checked.sheet;
        let edges = self.values.edges;
        if !(trig::size_up_to(x, POINT_LIMIT) & trig::size_up_to(y, POINT_LIMIT)) {
            return Err(Refusal::OutOfRange);
        }
        let v = edges.origin_radius - y;
        if v <= 0 {
            return Err(Refusal::OffSheet);
        }
        let point = ConePoint { x, v };
        let r = point.radius();
        if !point_on_sheet(self.checked, edges, point, r) {
            return Err(Refusal::OffSheet);
        }
        let cone = self.checked.cone();
        let d = cone.offset_unchecked(point, self.values.least_rise);
        position_at(sheet, r, d)
    }
}

// The values of a checked sheet.
fn inverse_values(checked: CheckedSheet) -> InverseValues
    ensures { result ≡ inverse_values_of checked.sheet }
{
    let edges = edge_values(checked);
    let least_rise = checked.cone().least_rise();
    InverseValues { edges, least_rise }
}

// The values at the edges of a checked sheet. West and east mirror.
fn edge_values(checked: CheckedSheet) -> EdgeValues
    ensures { result ≡ edge_values_of checked.sheet }
{
    let sheet = checked.sheet;
    let g = sheet.radius_constant as i64;
    let east = checked
        .cone()
        .sine_cosine_unchecked(sheet.half_width as i64);
    let west = SineCosine {
        sine: -east.sine,
        cosine: east.cosine,
    };
    EdgeValues {
        origin_radius: g - sheet.origin_latitude as i64,
        west,
        east,
    }
}

// Whether a map point, whose radius is r, is on the sheet.
fn point_on_sheet(checked: CheckedSheet, edges: EdgeValues, point: ConePoint, r: i64) -> bool
    requires edges_value { edges ≡ edge_values_of checked.sheet }
    requires r_value { r ≡ radius_at point.x point.v }
    ensures { result ≡ point_on_sheet checked.sheet point.x point.v }
{
    let sheet = checked.sheet;
    let g = sheet.radius_constant as i64;
    (g - sheet.north_edge as i64 <= r)
        & (r <= g - sheet.south_edge as i64)
        & point.is_not_left_unchecked(edges.west)
        & point.is_not_right_unchecked(edges.east)
}

// The position at the radius r and the offset d; before it is handed out it is held against the sheet's own edges.
fn position_at(sheet: Sheet, r: i64, d: i64) -> Result<Position, Refusal>
    requires size { Size (pos 1073741824) r }
    requires size_2 { Size (pos 60000000) d }
    ensures { globe_reply_of result ≡ held_reply sheet (latitude_at sheet r) (longitude_at sheet d) }
{
    let latitude = sheet.radius_constant as i64 - r;
    let longitude = sheet::shift(sheet.central_meridian as i64 + d);
    if !sheet::on_sheet(sheet, latitude, longitude) {
        return Err(Refusal::AnswerOffSheet);
    }
    Ok(Position {
        latitude,
        longitude,
    })
}
