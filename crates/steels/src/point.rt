// A point of a mill sheet: two reduction factors in ten-thousandths and a heat capacity in J/(kg K) at a degree.
ghost use Rattle.steels.specs.Mill.{row_of};

use crate::table::{Row, Tabled};

#[derive(Clone, Copy, Default)]
pub struct Point {
    pub degree: u32,
    pub strength: u32,
    pub stiffness: u32,
    pub capacity: u32,
}

impl Tabled for Point {
    ghost row = { row_of };

    fn to_row(&self) -> Row {
        Row {
            degree: self.degree,
            strength: self.strength,
            stiffness: self.stiffness,
        }
    }
}
