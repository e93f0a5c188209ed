// A matrix that may be read: its slice, where its elements lie in it, and its sizes.
ghost use Rattle.std.specs.Prelude.{◌≡◌, ◌+◌, ◌<◌, ◌≤◌, length, ⊤};
ghost use Rattle.element.specs.Kinds.{arith_of, view_of};
ghost use Rattle.layout.specs.Operands.{Readable, transposed};
ghost use Rattle.layout.specs.Place.{based_at, element_at};
ghost use Rattle.loops.specs.Panels.{padded};
ghost use Rattle.packing.specs.ReadableLaws.{readable_prop};

use element::elements::Element;
use layout::operand::Operand;
use std::alloc::AllocError;

pub struct Matrix<'a, T: Element> {
    pub reals: &'a [T::Real],
    pub at: Operand,
    pub rows: usize,
    pub columns: usize,
    pub ghost readable: { Readable rows columns at ((view_of T.kind).count (length (T.Real.floats reals.now))) } by { readable_prop },
}

impl<'a, T: Element> Copy for Matrix<'a, T> {}

impl<'a, T: Element> Clone for Matrix<'a, T> {
    ghost is_clone = { λ x y. y ≡ x };

    ghost is_infallible = { λ _. ⊤ };

    fn clone(&self) -> Result<Self, AllocError> {
        Ok(*self)
    }
}

impl<'a, T: Element> Matrix<'a, T> {
    // The element at (i,j).
    pub fn element(self, i: usize, j: usize) -> T
        requires { (i < self.rows) × (j < self.columns) }
        ensures { T.held.is result ≡ element_at T.kind (T.Real.floats self.entry.reals.now) self.entry.at i j }
    {
        T::read(self.reals, self.at.place(i, j))
    }

    // The element at (i,j), and +0 where row i is missing.
    pub(crate) fn padded(self, i: usize, j: usize) -> T
        requires { j < self.columns }
        ensures { T.held.is result
            ≡ padded (arith_of T.kind) self.entry.rows (element_at T.kind (T.Real.floats self.entry.reals.now) self.entry.at) i j }
    {
        if i < self.rows {
            return self.element(i, j);
        }
        T::zero()
    }

    // So many rows and columns from (i,j) on.
    pub fn part(self, i: usize, j: usize, rows: usize, columns: usize) -> Matrix<'a, T>
        requires rows_some { (0 < rows) × (i + rows ≤ self.rows) }
        requires columns_some { (0 < columns) × (j + columns ≤ self.columns) }
        ensures { (result.reals.now ≡ self.entry.reals.now) × (result.at ≡ based_at self.entry.at i j)
            × (result.rows ≡ rows) × (result.columns ≡ columns) }
    {
        Matrix {
            reals: self.reals,
            at: self.at.based_at(i, j),
            rows,
            columns,
        }
    }

    // The matrix with its rows as columns.
    pub fn transposed(self) -> Matrix<'a, T>
        ensures { (result.reals.now ≡ self.entry.reals.now) × (result.at ≡ transposed self.entry.at)
            × (result.rows ≡ self.entry.columns) × (result.columns ≡ self.entry.rows) }
    {
        Matrix {
            reals: self.reals,
            at: self.at.transpose(),
            rows: self.columns,
            columns: self.rows,
        }
    }
}
