// Derived from crates/hewnspandrel/src/real32.rt by tools/derive: edit that.
// The functions of the kind Real64, over slices of f64. The C interface needs a function of its own name for each kind.
ghost use Rattle.element.specs.declared.kind.Kind.TheVariants.{F64};
ghost use Rattle.call.specs.Call.{call_of};
ghost use Rattle.hewnspandrel.specs.Answers.{Answered, Asked};
ghost use Rattle.hewnspandrel.specs.Real64.{number};

use crate::length::Length;
use crate::numbers::Real64;
use element::kind::{self, Kind};
use gemm::gemm::gemm;
use layout::need::pack_length;
use layout::operand::Operand;
use refusal::answer_number;

// gemm, answered by its number.
#[unsafe(no_mangle)]
pub extern "C" fn hewn_dgemm(
    m: usize,
    k: usize,
    n: usize,
    alpha: Real64,
    a: &[f64],
    la: Operand,
    b: &[f64],
    lb: Operand,
    beta: Real64,
    c: &mut [f64],
    lc: Operand,
    pack: &mut [f64],
) -> u64
    ensures { Answered (call_of F64 m k n (number alpha) la lb (number beta) lc)
        a.now b.now c.old c.new pack.old pack.new result }
{
    answer_number(gemm::<kind::Real64>(
        m,
        k,
        n,
        alpha.into(),
        a,
        la,
        b,
        lb,
        beta.into(),
        c,
        lc,
        pack,
    ))
}

// How long must the pack buffer be?
#[unsafe(no_mangle)]
pub extern "C" fn hewn_dgemm_need(m: usize, k: usize, n: usize) -> Length
    ensures { Asked F64 m k n result }
{
    Length::from(pack_length(Kind::F64, m, k, n))
}
