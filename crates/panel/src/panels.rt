// Numbers held together with the shape of a panel.
ghost use Rattle.std.specs.Prelude.{◌≡◌};
ghost use Rattle.panel.specs.Reader.{ElementOutcome};

use crate::file::Shape;
use element::real::Real;
use refusal::Refusal;

// The work of `element`, on the slice and the numbers.
pub fn element_at<R: Real>(
    numbers: &[R],
    rows: u16,
    columns: u16,
    row: usize,
    column: usize,
) -> Result<R, Refusal>
    ensures { ElementOutcome R.held.is (R.floats numbers.now) (record { rows = rows; columns = columns }) row column result }
{
    let m = rows as usize;
    let n = columns as usize;
    if row >= m || column >= n {
        return Err(Refusal::OutsidePanel);
    }
    let at = row * n + column;
    numbers.get(at).copied().ok_or(Refusal::OutsidePanel)
}

// The borrowed numbers together with their shape, row by row.
#[derive(Clone, Copy)]
pub struct Panel<'a, R> {
    pub numbers: &'a [R],
    pub rows: u16,
    pub columns: u16,
}

impl<'a, R: Real> Panel<'a, R> {
    // The shape alone.
    pub fn shape(self) -> Shape
        ensures { (result.rows ≡ self.entry.rows) × (result.columns ≡ self.entry.columns) }
    {
        Shape {
            rows: self.rows,
            columns: self.columns,
        }
    }

    // The element at a place.
    pub fn element(self, row: usize, column: usize) -> Result<R, Refusal>
        ensures { ElementOutcome R.held.is (R.floats self.entry.numbers.now)
            (record { rows = self.entry.rows; columns = self.entry.columns }) row column result }
    {
        element_at(self.numbers, self.rows, self.columns, row, column)
    }
}
