// Tables of reduction factors, read by linear interpolation rounded down.
ghost use Rattle.std.specs.Prelude.{◌≡◌, ◌<◌, ◌≤◌, map};
ghost use Rattle.steels.specs.Table.{Sound, between, cell, clamped, line, tabled};
ghost use Rattle.steels.specs.declared.table.Row.{Row};

// The two reduction factors at a degree, in ten-thousandths.
#[derive(Clone, Copy)]
pub struct Row {
    pub degree: u32,
    pub strength: u32,
    pub stiffness: u32,
}

// Which of the two reduction factors: that of the strength or that of the stiffness.
#[derive(Clone, Copy, PartialEq, Eq, Debug)]
pub enum Reduction {
    Strength,
    Stiffness,
}

impl Row {
    // A reduction is data that contracts name, so it is matched; a closure could not be named there.
    fn cell(&self, reduction: Reduction) -> u32
        ensures { result ≡ cell reduction self.now }
    {
        match reduction {
            Reduction::Strength => self.strength,
            Reduction::Stiffness => self.stiffness,
        }
    }
}

// An entry of a table: a row, alone or with more beside it.
// `Into<Row>` was tried and is no plainer: of std's `From` a contract has a relation, and here the contracts name the rows as one list, by a function.
pub trait Tabled {
    ghost row: { Self → Row };

    fn to_row(&self) -> Row
        ensures { result ≡ row self.now };
}

impl Tabled for Row {
    ghost row = { λ r. r };

    fn to_row(&self) -> Row {
        *self
    }
}

// The line from one row to a later one, rounded down. It is proved to fit as the factors do, so no `try_from`.
fn interpolated(reduction: Reduction, from: Row, to: Row, degree: u32) -> u32
    requires from { from.degree ≤ degree }
    requires to { degree < to.degree }
    ensures { result ≡ between reduction from to degree }
{
    let cold = u64::from(from.cell(reduction)) * u64::from(to.degree - degree);
    let hot = u64::from(to.cell(reduction)) * u64::from(degree - from.degree);
    ((cold + hot) / u64::from(to.degree - from.degree)) as u32
}

// The broken line from the first row on. A table read row by row is a form that the project keeps; it has 13 rows, or at most 64 points.
fn along<P: Tabled>(reduction: Reduction, first: Row, rest: &[P], degree: u32) -> u32
    requires { first.degree ≤ degree }
    ensures { result ≡ line reduction first (map P.Tabled.row rest.now) degree }
{
    let mut from = first;
    for next in rest {
        let to = next.to_row();
        if degree < to.degree {
            return interpolated(reduction, from, to, degree);
        }
        from = to;
    }
    from.cell(reduction)
}

// A factor of a table at any degree; outside the table that of the nearer end.
pub(crate) fn factor_at<P: Tabled>(reduction: Reduction, table: &[P], degree: u32) -> u32
    requires { Sound (map P.Tabled.row table.now) }
    ensures { result ≡ tabled reduction (map P.Tabled.row table.now) degree }
{
    // A sound table has rows; of none the definition says 0.
    let [first, rest @ ..] = table else {
        return 0;
    };
    along(reduction, first.to_row(), rest, clamp(degree))
}

// The degree between 20 and 1,200 that is nearest.
pub(crate) fn clamp(degree: u32) -> u32
    ensures { result ≡ clamped degree }
{
    degree.clamp(20, 1200)
}
