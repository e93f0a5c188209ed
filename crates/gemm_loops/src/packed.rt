// Packed panels into C. Rust: `gemm_packed`, gemm.rs.
ghost use Rattle.std.specs.Prelude.{◌*◌, ◌≤◌, length};
ghost use Rattle.rules.specs.Slice.{Updated, Block};
ghost use Rattle.element.specs.Fates.{fate_of};
ghost use Rattle.element.specs.Kinds.{arith_of, view_of, tiling_of};
ghost use Rattle.layout.specs.Place.{index_of};
ghost use Rattle.layout.specs.Operands.{Writable};
ghost use Rattle.loops.specs.Panels.{packing_of, unpacked};
ghost use Rattle.loops.specs.Work.{settled, panels};

use element::elements::Element;
use element::fate::Fate;
use kernel::kernels::Kernel;
use layout::operand::Operand;
use layout::util::{chunk_count, chunk_len};

// LOOP 1: one column of tiles of C, m rows in chunks of the tile's rows.
fn tile_column<T: Kernel>(
    kc: usize,
    m: usize,
    cols: usize,
    alpha: T,
    a: &[T::Real],
    b: &[T::Real],
    fate: Fate<T>,
    c: &mut [T::Real],
    lc: Operand,
)
    requires writable { Writable m cols lc ((view_of T.kind).count (length (T.Real.floats c.old))) }
    requires cols_le_nr { (cols ≤ (tiling_of T.kind).nr)
        × (panels T.kind (tiling_of T.kind).mr m kc ≤ length (T.Real.floats a.now))
        × (kc * (packing_of T.kind).floats (tiling_of T.kind).nr ≤ length (T.Real.floats b.now)) }
    ensures { Updated (view_of T.kind) (index_of lc) (Block m cols)
        (settled (arith_of T.kind) (fate_of T.held.is fate) (T.held.is alpha)
        (unpacked (packing_of T.kind) (T.Real.floats a.now) (tiling_of T.kind).mr kc)
        ((packing_of T.kind).lane (T.Real.floats b.now) (tiling_of T.kind).nr) kc)
        (T.Real.floats c.old) (T.Real.floats c.new) }
{
    let side = T::TILE_ROWS;
    let panel = kc * (side * T::REALS);
    for i in 0..chunk_count(m, side) {
        let rows = chunk_len(m, side, i);
        let here = lc.based_at(i * side, 0);
        T::masked_kernel(kc, alpha, &a[i * panel..], b, fate, c, here, rows, cols);
    }
}

// LOOP 2: m rows by n columns of C, n in chunks of the tile's columns.
pub fn gemm_packed<T: Kernel>(
    kc: usize,
    m: usize,
    n: usize,
    alpha: T,
    a: &[T::Real],
    b: &[T::Real],
    fate: Fate<T>,
    c: &mut [T::Real],
    lc: Operand,
)
    requires writable { Writable m n lc ((view_of T.kind).count (length (T.Real.floats c.old))) }
    requires kc_in_bounds { (panels T.kind (tiling_of T.kind).mr m kc ≤ length (T.Real.floats a.now))
        × (panels T.kind (tiling_of T.kind).nr n kc ≤ length (T.Real.floats b.now)) }
    ensures { Updated (view_of T.kind) (index_of lc) (Block m n)
        (settled (arith_of T.kind) (fate_of T.held.is fate) (T.held.is alpha)
        (unpacked (packing_of T.kind) (T.Real.floats a.now) (tiling_of T.kind).mr kc)
        (unpacked (packing_of T.kind) (T.Real.floats b.now) (tiling_of T.kind).nr kc) kc)
        (T.Real.floats c.old) (T.Real.floats c.new) }
{
    let side = T::TILE_COLUMNS;
    let panel = kc * (side * T::REALS);
    for j in 0..chunk_count(n, side) {
        let cols = chunk_len(n, side, j);
        let here = lc.based_at(0, j * side);
        tile_column(kc, m, cols, alpha, a, &b[j * panel..], fate, c, here);
    }
}
