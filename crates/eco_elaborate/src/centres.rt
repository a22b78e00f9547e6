//! Where placed components have their centres.

ghost use Rattle.std.specs.Prelude.{◌≡◌, ◌≤◌, true, pos, ◌+ℤ◌, ◌*ℤ◌};
ghost use Rattle.eco_common.specs.Sizes.{keeps_limit};
ghost use Rattle.eco_issued_laws.specs.Bounds.{IsCoordinate};
ghost use Rattle.eco_elaborate.specs.Centres.{extent, is_turned, as_placed, doubled_centre, IsInRange, IsCentre};

use eco_common::{MAX_MILLIONTHS, MAX_UNITS, Point, Size};
use eco_def::{Orient, Place};

/// A length in millionths of a micron, in database units.
fn extent(units: u32, length: u64) -> u64
    requires units { units ≤ MAX_UNITS }
    requires length { length ≤ MAX_MILLIONTHS }
    ensures value { result ≡ extent units length }
    ensures most { result ≤ MAX_MILLIONTHS }
{
    length * u64::from(units) / 1_000_000
}

/// Whether a box lies on its side.
fn is_turned(orient: Orient) -> bool
    ensures { result ≡ is_turned orient }
{
    match orient {
        Orient::E | Orient::W | Orient::FE | Orient::FW => true,
        Orient::N | Orient::S | Orient::FN | Orient::FS => false,
    }
}

/// A macro's size as its component lies.
fn as_placed(orient: Orient, size: Size) -> Size
    requires { keeps_limit size ≡ true }
    ensures size { result ≡ as_placed orient size }
    ensures width { result.width ≤ MAX_MILLIONTHS }
    ensures height { result.height ≤ MAX_MILLIONTHS }
{
    if is_turned(orient) {
        return Size {
            width: size.height,
            height: size.width,
        };
    }
    size
}

/// Twice the middle of a side, by where it begins and its length in millionths of a micron.
fn twice_middle(units: u32, start: i64, length: u64) -> i64
    requires units { units ≤ MAX_UNITS }
    requires start { IsCoordinate start }
    requires length { length ≤ MAX_MILLIONTHS }
    ensures value { result ≡ (pos 2 *ℤ start) +ℤ pos (extent units length) }
    ensures range { IsInRange result }
{
    2 * start + extent(units, length) as i64
}

/// The doubled centre of a component, by the size of its macro.
pub fn doubled_centre(units: u32, size: Size, place: Place) -> Point
    requires units { units ≤ MAX_UNITS }
    requires size { keeps_limit size ≡ true }
    requires place { IsCoordinate place.point.x × IsCoordinate place.point.y }
    ensures centre { result ≡ doubled_centre units size place }
    ensures range { IsCentre result }
{
    let Size { width, height } = as_placed(place.orient, size);
    Point {
        x: twice_middle(units, place.point.x, width),
        y: twice_middle(units, place.point.y, height),
    }
}
