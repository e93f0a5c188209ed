// The tile of f32. The files of the four kinds are twins, since the gate takes no impl by a macro. Rust: `masked_kernel`, gemm.rs, and the
// tile's sides in sgemm_kernel.rs.
ghost use Rattle.std.specs.Prelude.{◌*◌, ◌≤◌, length};
ghost use Rattle.rules.specs.Held.{float};
ghost use Rattle.rules.specs.Slice.{Updated, Block};
ghost use Rattle.element.specs.Fates.{fate_of};
ghost use Rattle.element.specs.Kinds.{arith_of, view_of, tiling_of};
ghost use Rattle.element.specs.declared.kind.Kind.TheVariants.{F32};
ghost use Rattle.layout.specs.Operands.{Writable};
ghost use Rattle.layout.specs.Place.{index_of};
ghost use Rattle.loops.specs.Panels.{packing_of};
ghost use Rattle.loops.specs.Work.{settled};

use crate::kernels::Kernel;
use crate::masked::c_to_masked_ab_beta_c;
use crate::real::kernel;
use element::elements::Element;
use element::fate::Fate;
use layout::operand::Operand;

const MR: usize = <f32 as Element>::TILE_ROWS;

const NR: usize = <f32 as Element>::TILE_COLUMNS;

// The method's clauses are its trait's: the check cannot yet give it those that name a supertrait's type.
impl Kernel for f32 {
    fn masked_kernel(
        kc: usize,
        alpha: f32,
        a: &[f32],
        b: &[f32],
        fate: Fate<f32>,
        c: &mut [f32],
        lc: Operand,
        rows: usize,
        cols: usize,
    )
        requires writable { Writable rows cols lc ((view_of F32).count (length c.old)) }
        requires rows_le_mr { (rows ≤ (tiling_of F32).mr) × (cols ≤ (tiling_of F32).nr) }
        requires mr_in_bounds { (kc * (packing_of F32).floats (tiling_of F32).mr ≤ length a.now)
            × (kc * (packing_of F32).floats (tiling_of F32).nr ≤ length b.now) }
        ensures { Updated (view_of F32) (index_of lc) (Block rows cols)
            (settled (arith_of F32) (fate_of float.is fate) (float.is alpha)
            ((packing_of F32).lane a.now (tiling_of F32).mr) ((packing_of F32).lane b.now (tiling_of F32).nr) kc)
            c.old c.new }
    {
        c_to_masked_ab_beta_c(
            kernel::<f32, MR, NR>(kc, alpha, a, b, rows),
            fate,
            c,
            lc,
            rows,
            cols,
        );
    }
}
