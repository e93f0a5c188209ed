// One element of C by any entry point: what the examples share.
ghost use Rattle.std.specs.Prelude.{◌≤◌};
ghost use Rattle.std.proofs.Common.{rules};
ghost use Rattle.std.specs.Mem.{type_size};

use element::complex::{Complex32, Complex64};
use gemm::gemm::gemm;
use kernel::kernels::Kernel;
use layout::operand::Operand;
use packing::packs::Packs;
use refusal::{Refusal, answer_number};
use show::Bits;
use std::{fmt, io};

// One entry after the other.
pub const UNIT: Operand = Operand {
    base: 0,
    rs: 1,
    cs: 1,
};

// An element kind, by the name of its entry point.
pub trait Entry: Kernel + Packs {
    const NAME: &'static str;

    // A real takes at most 8 bytes, so that an array of them fits in memory.
    ghost small: { type_size Self.Real.row ≤ 8 };
}

impl Entry for f32 {
    const NAME: &'static str = "sgemm";

    ghost small = { Prim.search rules };
}

impl Entry for f64 {
    const NAME: &'static str = "dgemm";

    ghost small = { Prim.search rules };
}

impl Entry for Complex32 {
    const NAME: &'static str = "cgemm";

    ghost small = { Prim.search rules };
}

impl Entry for Complex64 {
    const NAME: &'static str = "zgemm";

    ghost small = { Prim.search rules };
}

// One element: k depth steps of a and b.
#[derive(Clone, Copy)]
pub struct Example<'a, T: Entry> {
    pub name: &'a str,
    pub k: usize,
    pub alpha: T,
    pub a: &'a [T::Real],
    pub b: &'a [T::Real],
    pub beta: T,
}

impl<'a, T: Entry> Example<'a, T>
where
    Bits<T::Real>: fmt::Display,
{
    // Over old C, with a pack buffer.
    pub fn run(&self, rt: &impl Print, c: &mut [T::Real], pack: &mut [T::Real]) -> io::Result<()> {
        let r = gemm(
            1, self.k, 1, self.alpha, self.a, UNIT, self.b, UNIT, self.beta, c, UNIT, pack,
        );
        report::<T>(rt, self.name, r, c)
    }
}

// The entry point, what was asked, the answer's number and C's reals by their bits.
pub fn report<T: Entry>(
    rt: &impl Print,
    name: &str,
    answer: Result<(), Refusal>,
    c: &[T::Real],
) -> io::Result<()>
where
    Bits<T::Real>: fmt::Display,
{
    print!(rt; "{} {name} {}", T::NAME, answer_number(answer))?;
    for x in c {
        print!(rt; " {}", Bits(*x))?;
    }
    println!(rt; "")
}
