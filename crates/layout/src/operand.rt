// An operand's layout, the index of a place, the operand based at a place, and the transposed one. Rust: `stride_offset`, ptr.rs.
ghost use Rattle.std.specs.Prelude.{◌≡◌};
ghost use Rattle.layout.specs.Place.{index_of, based_at};
ghost use Rattle.layout.specs.Operands.{Reachable, transposed};

// Where place (0,0) lies, and the row and column strides, in whole elements.
#[repr(C)]
#[derive(Clone, Copy, Debug, PartialEq, Eq)]
pub struct Operand {
    pub base: usize,
    pub rs: isize,
    pub cs: isize,
}

impl Operand {
    // The index of place (i,j).
    pub fn place(self, i: usize, j: usize) -> usize
        requires { Reachable self i j }
        ensures { result ≡ index_of self i j }
    {
        (self.base as isize + i as isize * self.rs + j as isize * self.cs) as usize
    }

    // The same matrix from place (i,j) on.
    pub fn based_at(self, i: usize, j: usize) -> Operand
        requires { Reachable self i j }
        ensures { result ≡ based_at self i j }
    {
        Operand {
            base: self.place(i, j),
            ..self
        }
    }

    // The matrix with its rows as columns.
    pub fn transpose(self) -> Operand
        ensures { result ≡ transposed self }
    {
        Operand {
            rs: self.cs,
            cs: self.rs,
            ..self
        }
    }
}
