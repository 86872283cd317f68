// Why a mill sheet or a cap is refused.
ghost use Rattle.std.specs.Prelude.{◌≡◌};
ghost use Rattle.steels.specs.Refusal.{refused};

use thiserror::Error;

// A point is counted from 0.
#[derive(Clone, Copy, PartialEq, Eq, Debug, Error)]
pub enum Refusal {
    #[error("a mill sheet not of 2 to 64 points")]
    PointCount,
    #[error("point {point}: first degree not 20, a degree not above the one before, or final degree not 1,200")]
    PointDegree { point: usize },
    #[error("point {point}: Y, Z or C outside its range, or a factor above that of the point before")]
    PointFigure { point: usize },
    #[error("a cap outside 21 to 1,200")]
    CapDegree,
}

impl Refusal {
    // A variant with a value takes no number of its own, so a match gives them.
    pub fn number(&self) -> u32
        ensures { result ≡ (refused self.now).0 }
    {
        match self {
            Refusal::PointCount => 5,
            Refusal::PointDegree { .. } => 6,
            Refusal::PointFigure { .. } => 7,
            Refusal::CapDegree => 10,
        }
    }
}
