// Derived from crates/kernel/src/real32.rt by tools/derive: edit that.
// The tile of f64. The files of the four kinds are twins, since the gate takes no impl by a macro. Rust: `masked_kernel`, gemm.rs, and the
// tile's sides in sgemm_kernel.rs.
ghost use Rattle.std.specs.Prelude.{◌*◌, ◌≤◌, length};
ghost use Rattle.rules.specs.Held.{float};
ghost use Rattle.rules.specs.Slice.{Updated, Block};
ghost use Rattle.element.specs.Fates.{fate_of};
ghost use Rattle.element.specs.Kinds.{arith_of, view_of, tiling_of};
ghost use Rattle.element.specs.declared.kind.Kind.TheVariants.{F64};
ghost use Rattle.layout.specs.Operands.{Writable};
ghost use Rattle.layout.specs.Place.{index_of};
ghost use Rattle.loops.specs.Panels.{packing_of};
ghost use Rattle.loops.specs.Work.{settled};

use crate::kernels::Kernel;
use crate::masked::c_to_masked_ab_beta_c;
use crate::real::kernel;
use element::elements::Element;
use element::fate::Fate;
use layout::operand::Operand;

const MR: usize = <f64 as Element>::TILE_ROWS;

const NR: usize = <f64 as Element>::TILE_COLUMNS;

// The method's clauses are its trait's: the check cannot yet give it those that name a supertrait's type.
impl Kernel for f64 {
    fn masked_kernel(
        kc: usize,
        alpha: f64,
        a: &[f64],
        b: &[f64],
        fate: Fate<f64>,
        c: &mut [f64],
        lc: Operand,
        rows: usize,
        cols: usize,
    )
        requires writable { Writable rows cols lc ((view_of F64).count (length c.old)) }
        requires rows_le_mr { (rows ≤ (tiling_of F64).mr) × (cols ≤ (tiling_of F64).nr) }
        requires mr_in_bounds { (kc * (packing_of F64).floats (tiling_of F64).mr ≤ length a.now)
            × (kc * (packing_of F64).floats (tiling_of F64).nr ≤ length b.now) }
        ensures { Updated (view_of F64) (index_of lc) (Block rows cols)
            (settled (arith_of F64) (fate_of float.is fate) (float.is alpha)
            ((packing_of F64).lane a.now (tiling_of F64).mr) ((packing_of F64).lane b.now (tiling_of F64).nr) kc)
            c.old c.new }
    {
        c_to_masked_ab_beta_c(
            kernel::<f64, MR, NR>(kc, alpha, a, b, rows),
            fate,
            c,
            lc,
            rows,
            cols,
        );
    }
}
