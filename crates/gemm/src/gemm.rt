// The entry point. Rust: `sgemm` and its siblings, gemm.rs.
ghost use Rattle.call.specs.Call.{call_of};
ghost use Rattle.call.specs.Outcome.{Outcome};

use crate::scale::c_to_beta_c;
use call::judge::{Lengths, Matrices};
use element::elements::Element;
use element::fate::Fate;
use element::real::Real;
use gemm_loops::outer::gemm_loop;
use kernel::kernels::Kernel;
use layout::operand::Operand;
use packing::matrix::Matrix;
use packing::packs::Packs;
use refusal::Refusal;

// C becomes alpha A B + beta C: A is m by k, B is k by n, C is m by n, each where its operand says in its slice, an element as
// T::REALS neighbouring reals. Done, or a refusal that leaves C and pack as they were. Done, pack holds anything in its first need
// elements.
pub fn gemm<T: Kernel + Packs>(
    m: usize,
    k: usize,
    n: usize,
    alpha: T,
    a: &[T::Real],
    la: Operand,
    b: &[T::Real],
    lb: Operand,
    beta: T,
    c: &mut [T::Real],
    lc: Operand,
    pack: &mut [T::Real],
) -> Result<(), Refusal>
    ensures { Outcome (call_of T.kind m k n (T.held.is alpha) la lb (T.held.is beta) lc)
        (T.Real.floats a.now) (T.Real.floats b.now) (T.Real.floats c.old) (T.Real.floats c.new)
        (T.Real.floats pack.old) (T.Real.floats pack.new) result }
{
    let over = Matrices {
        m,
        k,
        n,
        a: la,
        b: lb,
        c: lc,
    };
    let floats = Lengths {
        a: T::Real::count(a),
        b: T::Real::count(b),
        c: T::Real::count(c),
    };
    over.judge(T::kind(), pack.len(), floats)?;
    if m == 0 || n == 0 {
        return Ok(());
    }
    if k == 0 {
        c_to_beta_c(m, n, Fate::from_beta(beta), c, lc);
        return Ok(());
    }
    let a = Matrix {
        reals: a,
        at: la,
        rows: m,
        columns: k,
    };
    let b = Matrix {
        reals: b,
        at: lb,
        rows: k,
        columns: n,
    };
    gemm_loop(T::DEPTH_CHUNK, alpha, a, b, beta, c, lc, pack);
    Ok(())
}
