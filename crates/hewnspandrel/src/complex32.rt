// Derived from crates/hewnspandrel/src/real32.rt by tools/derive: edit that.
// The functions of the kind Complex32, over slices of f32. The C interface needs a function of its own name for each kind.
ghost use Rattle.element.specs.declared.kind.Kind.TheVariants.{C32};
ghost use Rattle.call.specs.Call.{call_of};
ghost use Rattle.hewnspandrel.specs.Answers.{Answered, Asked};
ghost use Rattle.hewnspandrel.specs.Complex32.{number};

use crate::length::Length;
use crate::numbers::Complex32;
use element::kind::{self, Kind};
use gemm::gemm::gemm;
use layout::need::pack_length;
use layout::operand::Operand;
use refusal::answer_number;

// gemm, answered by its number.
#[unsafe(no_mangle)]
pub extern "C" fn hewn_cgemm(
    m: usize,
    k: usize,
    n: usize,
    alpha: Complex32,
    a: &[f32],
    la: Operand,
    b: &[f32],
    lb: Operand,
    beta: Complex32,
    c: &mut [f32],
    lc: Operand,
    pack: &mut [f32],
) -> u64
    ensures { Answered (call_of C32 m k n (number alpha) la lb (number beta) lc)
        a.now b.now c.old c.new pack.old pack.new result }
{
    answer_number(gemm::<kind::Complex32>(
        m,
        k,
        n,
        alpha.into(),
        a,
        la,
        b,
        lb,
        beta.into(),
        c,
        lc,
        pack,
    ))
}

// How long must the pack buffer be?
#[unsafe(no_mangle)]
pub extern "C" fn hewn_cgemm_need(m: usize, k: usize, n: usize) -> Length
    ensures { Asked C32 m k n result }
{
    Length::from(pack_length(Kind::C32, m, k, n))
}
