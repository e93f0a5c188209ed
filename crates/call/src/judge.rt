// The refusals in their order, a function a stage; the last stage is one test. Rust: the debug assertions of `gemm_loop` and
// `ensure_kernel_params`, gemm.rs.
ghost use Rattle.refusal.specs.Numbers.{answer_number};
ghost use Rattle.refusal.specs.Order.{done};
ghost use Rattle.layout.specs.Operands.{Tells};
ghost use Rattle.call.specs.Verdict.{Far, SizesThen, CThen, ABThen, Judged};

use element::kind::Kind;
use layout::need::{too_large, too_short};
use layout::operand::Operand;
use refusal::Refusal;

// The sizes of a call and where its matrices lie: A is m by k, B is k by n, C is m by n.
#[derive(Clone, Copy, Debug, PartialEq, Eq)]
pub struct Matrices {
    pub m: usize,
    pub k: usize,
    pub n: usize,
    pub a: Operand,
    pub b: Operand,
    pub c: Operand,
}

// How many floats the slices of A, B and C have.
#[derive(Clone, Copy, Debug, PartialEq, Eq)]
pub struct Lengths {
    pub a: usize,
    pub b: usize,
    pub c: usize,
}

impl Matrices {
    // Is one of the six strides too large, of those along two or more entries?
    fn too_far(self) -> bool
        ensures { Tells result (Far self) }
    {
        self.a.too_long(self.m, self.k)
            || self.b.too_long(self.k, self.n)
            || self.c.too_long(self.m, self.n)
    }

    // Refusals 1 and 2.
    fn sizes(self) -> Result<(), Refusal>
        ensures { SizesThen self done (answer_number result) }
    {
        if too_large(self.m, self.k, self.n) {
            return Err(Refusal::TooLarge);
        }
        if self.too_far() {
            return Err(Refusal::TooFar);
        }
        Ok(())
    }

    // Refusals 3 and 4.
    fn c_alone(self, kind: Kind, floats: Lengths) -> Result<(), Refusal>
        requires { SizesThen self done 0 }
        ensures { CThen kind self floats done (answer_number result) }
    {
        if self.c.outside(self.m, self.n, kind.elements_in(floats.c)) {
            return Err(Refusal::OutsideC);
        }
        if self.c.collides(self.m, self.n) {
            return Err(Refusal::CollidesC);
        }
        Ok(())
    }

    // Refusals 5 and 6.
    fn a_and_b(self, kind: Kind, floats: Lengths) -> Result<(), Refusal>
        requires { SizesThen self done 0 }
        ensures { ABThen kind self floats done (answer_number result) }
    {
        if self.a.outside(self.m, self.k, kind.elements_in(floats.a)) {
            return Err(Refusal::OutsideA);
        }
        if self.b.outside(self.k, self.n, kind.elements_in(floats.b)) {
            return Err(Refusal::OutsideB);
        }
        Ok(())
    }

    // The first refusal that applies, or done; pack is the length of the pack buffer in floats.
    #[tactic(auto, unfolding(crate::specs::Verdict::Judged))]
    pub fn judge(self, kind: Kind, pack: usize, floats: Lengths) -> Result<(), Refusal>
        ensures { Judged kind pack self floats done (answer_number result) }
    {
        self.sizes()?;
        if self.m == 0 || self.n == 0 {
            return Ok(());
        }
        self.c_alone(kind, floats)?;
        if self.k == 0 {
            return Ok(());
        }
        self.a_and_b(kind, floats)?;
        if too_short(kind, self.m, self.k, self.n, kind.elements_in(pack)) {
            return Err(Refusal::PackShort);
        }
        Ok(())
    }
}
