// Mill sheets: points handed in are tried first and taken whole, or refused and nothing is changed.
ghost use Rattle.std.specs.Prelude.{◌≡◌, false, ◌&&◌, map, is_some, is_ok, OnOk};
ghost use Rattle.std.specs.Option.{option_map};
ghost use Rattle.std.specs.Result.{result_err};
ghost use Rattle.steels.specs.Mill.{Follows, capacity_from, degree_fits, falls, first_points, full_point, in_range, point_fault, row_of, sheet_capacity, sheet_factor, sheet_fault};
ghost use Rattle.steels.specs.Refusal.{refused};
ghost use Rattle.steels.specs.MillStore.{points_of};
ghost use Rattle.steels.specs.Table.{Sound};
ghost use Rattle.steels.specs.Points.{sheet_factor_law, sheet_capacity_law};

use crate::meaning::Steel;
use crate::mill::MillSheet;
use crate::point::Point;
use crate::refusal::Refusal;
use crate::table::{Reduction, clamp, factor_at};
use arrayvec::ArrayVec;

// A point is tried against the one before it, if there is one; the two are no pair elsewhere.
impl Point {
    // Of such points a sheet is made before any are read.
    fn full(degree: u32) -> Point
        ensures { result ≡ full_point degree }
    {
        Point {
            degree,
            strength: 10_000,
            stiffness: 10_000,
            capacity: 600,
        }
    }

    fn degree_fits(&self, before: Option<Point>, last: bool) -> bool
        ensures { result ≡ degree_fits before self.now last }
    {
        let rises = before.map_or(self.degree == 20, |point| point.degree < self.degree);
        rises && (!last || self.degree == 1200)
    }

    fn figures_fit(&self, before: Option<Point>) -> bool
        ensures { result ≡ (in_range self.now && falls before self.now) }
    {
        let in_range = self.strength <= 10_000
            && self.stiffness <= 10_000
            && (300..=6000).contains(&self.capacity);
        in_range && self.falls_from(before)
    }

    fn falls_from(&self, before: Option<Point>) -> bool
        ensures { result ≡ falls before self.now }
    {
        before.is_none_or(|point| {
            self.strength <= point.strength && self.stiffness <= point.stiffness
        })
    }
}

// Tries the points: their number comes first.
fn try_points(points: &[Point]) -> Result<(), Refusal>
    ensures { option_map refused (result_err result) ≡ sheet_fault points.now }
{
    if !(2..=64).contains(&points.len()) {
        return Err(Refusal::PointCount);
    }
    try_each_point(points)
}

// The first point at fault decides, and at it the smaller number. A loop is plainer than `position` here, since each point is held against the one before it.
fn try_each_point(points: &[Point]) -> Result<(), Refusal>
    ensures { option_map refused (result_err result) ≡ point_fault 0 None points.now }
{
    let mut before = None;
    for (i, point) in points.iter().enumerate() {
        if !point.degree_fits(before, i + 1 == points.len()) {
            return Err(Refusal::PointDegree { point: i });
        }
        if !point.figures_fit(before) {
            return Err(Refusal::PointFigure { point: i });
        }
        before = Some(*point);
    }
    Ok(())
}

// The sheet that holds the points; they are without fault.
#[tactic(auto, using(crate::specs::Points::follows))]
fn holding(points: &[Point]) -> MillSheet
    requires { is_some (sheet_fault points.now) ≡ false }
    ensures held { points_of result ≡ points.now }
    ensures meaning { Follows points.now }
{
    MillSheet {
        points: ArrayVec::try_from(points).unwrap(),
    }
}

impl MillSheet {
    // Before any is read: full factors and 600 J/(kg K) everywhere.
    pub fn new() -> MillSheet
        ensures points { points_of result ≡ first_points }
        ensures meaning { Follows first_points }
    {
        holding(&[Point::full(20), Point::full(1200)])
    }

    // Takes the points for those in hand, or refuses them and keeps those in hand.
    pub fn read(&mut self, points: &[Point]) -> Result<(), Refusal>
        ensures fault { option_map refused (result_err result) ≡ sheet_fault points.now }
        ensures taken { OnOk result (points_of self.new ≡ points.now) }
        ensures meaning { OnOk result (Follows points.now) }
        ensures kept { is_ok result ≡ false → self.new ≡ self.old }
    {
        try_points(points)?;
        *self = holding(points);
        Ok(())
    }
}

fn capacity_of(points: &[Point], degree: u32) -> u32
    ensures { result ≡ sheet_capacity points.now degree }
{
    // Points in hand are never none; of none the definition says 0.
    let [first, rest @ ..] = points else {
        return 0;
    };
    last_capacity(first.capacity, rest, clamp(degree))
}

// The heat capacity of the last point that is not above the degree. With `take_while` and `last` the check did not find it, and with `fold` it is no plainer.
fn last_capacity(first: u32, rest: &[Point], degree: u32) -> u32
    ensures { result ≡ capacity_from first rest.now degree }
{
    let mut capacity = first;
    for point in rest {
        if degree < point.degree {
            return capacity;
        }
        capacity = point.capacity;
    }
    capacity
}

impl Steel for MillSheet {
    ghost factor = { λ s r. sheet_factor r (points_of s) };

    ghost capacity = { λ s. sheet_capacity (points_of s) };

    ghost factor_law = { λ s r. sheet_factor_law r (points_of s) s.sound };

    ghost capacity_law = { λ s. sheet_capacity_law (points_of s) s.sound };

    fn factor_at(&self, reduction: Reduction, degree: u32) -> u32 {
        factor_at(reduction, self.in_hand(), degree)
    }

    fn capacity_at(&self, degree: u32) -> u32 {
        capacity_of(self.in_hand(), degree)
    }
}

impl MillSheet {
    // Points without fault make a sound table.
    #[tactic(auto, using(crate::specs::Points::sheet_sound))]
    fn in_hand(&self) -> &[Point]
        ensures points { result.now ≡ points_of self.now }
        ensures sound { Sound (map row_of result.now) }
    {
        &self.points
    }
}
