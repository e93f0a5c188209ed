// The tests of one operand's layout, each exact: a place outside the slice, two places that meet, a stride that is too large. The crate has
// only debug assertions here.
ghost use Rattle.std.specs.Prelude.{◌<◌};
ghost use Rattle.layout.specs.Place.{SomeOutside, TwoMeet, LongStride, Long};
ghost use Rattle.layout.specs.Operands.{Tells, Modest};
ghost use Rattle.layout.specs.Splits.{LeastSteps};

use crate::operand::Operand;
use crate::strides::{reach, span_of};

// Is a stride along so many entries above 2,147,483,648 in magnitude? With fewer than two nobody steps along it, and any isize will do.
fn long_stride(entries: usize, stride: isize) -> bool
    ensures { Tells result (LongStride entries stride) }
{
    entries >= 2 && stride.unsigned_abs() > 2147483648
}

// The greatest common divisor, by Euclid's steps: a loop with no index to count.
fn gcd(a: usize, b: usize) -> usize
    requires { 0 < a }
    ensures { (0 < result) × LeastSteps a b result }
{
    let mut x = a;
    let mut y = b;
    while y != 0 {
        (x, y) = (y, x % y);
    }
    x
}

impl Operand {
    // Is either stride too large?
    pub fn too_long(self, rows: usize, columns: usize) -> bool
        ensures { Tells result (Long rows columns self) }
    {
        long_stride(rows, self.rs) || long_stride(columns, self.cs)
    }

    // Is some place (i,j), i below rows, j below columns, outside a slice of len elements? The lowest and the highest corner decide.
    pub fn outside(self, rows: usize, columns: usize, len: usize) -> bool
        requires { Modest rows columns self }
        ensures { Tells result (SomeOutside rows columns self len) }
    {
        if rows == 0 || columns == 0 {
            return false;
        }
        let down = span_of(rows, self.rs);
        let across = span_of(columns, self.cs);
        let low = down.below + across.below;
        let high = down.above + across.above;
        self.base < low || len.saturating_sub(self.base) <= high
    }

    // Are two different places the same element? Not where a row ends before the next one begins, or a column. Else, with g the strides'
    // greatest common divisor, |cs| / g rows lie where |rs| / g columns do. A case a test, since one condition of them all reads worse.
    pub fn collides(self, rows: usize, columns: usize) -> bool
        requires { Modest rows columns self }
        ensures { Tells result (TwoMeet rows columns self) }
    {
        if rows == 0 || columns == 0 {
            return false;
        }
        let a = self.rs.unsigned_abs();
        let b = self.cs.unsigned_abs();
        if rows < 2 {
            return columns >= 2 && b == 0;
        }
        if columns < 2 {
            return a == 0;
        }
        if a == 0 || b == 0 {
            return true;
        }
        if reach(columns, b) < a || reach(rows, a) < b {
            return false;
        }
        let g = gcd(a, b);
        b / g < rows && a / g < columns
    }
}
