// Derived from crates/kernel/src/complex32.rt by tools/derive: edit that.
// The tile of complex f64. Its impl is its own, not one over any real, because a kind's arithmetic is found by its `Kind`. Rust:
// `masked_kernel`, gemm.rs, and the tile's sides in cgemm_kernel.rs.
ghost use Rattle.std.specs.Prelude.{◌*◌, ◌≤◌, length};
ghost use Rattle.rules.specs.Held.{float};
ghost use Rattle.rules.specs.Slice.{Updated, Block};
ghost use Rattle.element.specs.Fates.{fate_of};
ghost use Rattle.element.specs.Kinds.{arith_of, view_of, tiling_of};
ghost use Rattle.element.specs.Numbers.{complex_held};
ghost use Rattle.element.specs.declared.kind.Kind.TheVariants.{C64};
ghost use Rattle.layout.specs.Operands.{Writable};
ghost use Rattle.layout.specs.Place.{index_of};
ghost use Rattle.loops.specs.Panels.{packing_of};
ghost use Rattle.loops.specs.Work.{settled};

use crate::complex::kernel;
use crate::kernels::Kernel;
use crate::masked::c_to_masked_ab_beta_c;
use element::complex::Complex64;
use element::elements::Element;
use element::fate::Fate;
use layout::operand::Operand;

const MR: usize = <Complex64 as Element>::TILE_ROWS;

const NR: usize = <Complex64 as Element>::TILE_COLUMNS;

// The method's clauses are its trait's: the check cannot yet give it those that name a supertrait's type.
impl Kernel for Complex64 {
    fn masked_kernel(
        kc: usize,
        alpha: Complex64,
        a: &[f64],
        b: &[f64],
        fate: Fate<Complex64>,
        c: &mut [f64],
        lc: Operand,
        rows: usize,
        cols: usize,
    )
        requires writable { Writable rows cols lc ((view_of C64).count (length c.old)) }
        requires rows_le_mr { (rows ≤ (tiling_of C64).mr) × (cols ≤ (tiling_of C64).nr) }
        requires mr_in_bounds { (kc * (packing_of C64).floats (tiling_of C64).mr ≤ length a.now)
            × (kc * (packing_of C64).floats (tiling_of C64).nr ≤ length b.now) }
        ensures { Updated (view_of C64) (index_of lc) (Block rows cols)
            (settled (arith_of C64) (fate_of (complex_held float).is fate) ((complex_held float).is alpha)
            ((packing_of C64).lane a.now (tiling_of C64).mr) ((packing_of C64).lane b.now (tiling_of C64).nr) kc)
            c.old c.new }
    {
        let ab = kernel::<Complex64, MR, NR>(kc, alpha, a, b, rows);
        c_to_masked_ab_beta_c(ab, fate, c, lc.transpose(), cols, rows);
    }
}
