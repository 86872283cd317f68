// The store of a mill sheet.
pub mod sheet;

ghost use Rattle.std.specs.Prelude.{◌≡◌, false, is_some};
ghost use Rattle.steels.specs.Mill.{sheet_fault};

use crate::point::Point;
use arrayvec::ArrayVec;

// The points in hand are always without fault.
#[derive(Drop)]
pub struct MillSheet {
    points: ArrayVec<Point, 64>,
    ghost sound: { is_some (sheet_fault points.items) ≡ false },
}
