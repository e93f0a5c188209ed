// How a kind makes one tile of C. Rust: `GemmKernel`, kernel.rs, and `masked_kernel`, gemm.rs.
ghost use Rattle.std.specs.Prelude.{◌*◌, ◌≤◌, length};
ghost use Rattle.rules.specs.Slice.{Updated, Block};
ghost use Rattle.element.specs.Fates.{fate_of};
ghost use Rattle.element.specs.Kinds.{arith_of, view_of, tiling_of};
ghost use Rattle.layout.specs.Operands.{Writable};
ghost use Rattle.layout.specs.Place.{index_of};
ghost use Rattle.loops.specs.Panels.{packing_of};
ghost use Rattle.loops.specs.Work.{settled};

use element::elements::Element;
use element::fate::Fate;
use layout::operand::Operand;

pub trait Kernel: Element {
    // One tile of C, from two packed panels of depth kc: what is past its rows and columns is dropped. C comes as its slice and operand, here
    // and in the loops: where a trait's method takes a struct of both over Self, an impl gets no proof (`packing::packs`).
    fn masked_kernel(
        kc: usize,
        alpha: Self,
        a: &[Self::Real],
        b: &[Self::Real],
        fate: Fate<Self>,
        c: &mut [Self::Real],
        lc: Operand,
        rows: usize,
        cols: usize,
    )
        requires writable { Writable rows cols lc ((view_of Self.kind).count (length (Self.Real.floats c.old))) }
        requires rows_le_mr { (rows ≤ (tiling_of Self.kind).mr) × (cols ≤ (tiling_of Self.kind).nr) }
        requires mr_in_bounds { (kc * (packing_of Self.kind).floats (tiling_of Self.kind).mr ≤ length (Self.Real.floats a.now))
            × (kc * (packing_of Self.kind).floats (tiling_of Self.kind).nr ≤ length (Self.Real.floats b.now)) }
        ensures { Updated (view_of Self.kind) (index_of lc) (Block rows cols)
            (settled (arith_of Self.kind) (fate_of Self.held.is fate) (Self.held.is alpha)
            ((packing_of Self.kind).lane (Self.Real.floats a.now) (tiling_of Self.kind).mr)
            ((packing_of Self.kind).lane (Self.Real.floats b.now) (tiling_of Self.kind).nr) kc)
            (Self.Real.floats c.old) (Self.Real.floats c.new) };
}
