// The three outer loops. Rust: `gemm_loop`, gemm.rs.
ghost use Rattle.std.specs.Prelude.{◌+◌, ◌*◌, ◌<◌, ◌≤◌, min, ◌≡◌, length};
ghost use Rattle.rules.specs.Element.{multiplier, chunks};
ghost use Rattle.element.specs.Fates.{fate_of};
ghost use Rattle.element.specs.Kinds.{arith_of, view_of, tiling_of, per_element};
ghost use Rattle.layout.specs.Need.{need_of};
ghost use Rattle.layout.specs.Operands.{Writable};
ghost use Rattle.loops.specs.Work.{deep, rows_make, panels, Shares, LoopLeaves};

use crate::packed::gemm_packed;
use element::elements::Element;
use element::fate::Fate;
use kernel::kernels::Kernel;
use layout::operand::Operand;
use layout::util::{chunk_count, chunk_len};
use packing::matrix::Matrix;
use packing::packs::Packs;
use packing::panels;

// LOOP 3: one depth chunk, a's rows in row chunks. B's panels stand in pack from asize on; A's go in front of it.
fn row_loop<T: Kernel + Packs>(
    n: usize,
    alpha: T,
    a: Matrix<T>,
    fate: Fate<T>,
    c: &mut [T::Real],
    lc: Operand,
    pack: &mut [T::Real],
    asize: usize,
)
    requires writable { Writable a.rows n lc ((view_of T.kind).count (length (T.Real.floats c.old))) }
    requires shares { Shares T.kind a.rows a.columns n asize (length (T.Real.floats pack.old)) }
    ensures { LoopLeaves T.kind lc a.entry.rows n
        (rows_make T.kind (fate_of T.held.is fate) (T.held.is alpha) (T.Real.floats a.entry.reals.now) a.entry.at
        (T.Real.floats pack.old) asize a.entry.columns)
        asize (T.Real.floats c.old) (T.Real.floats c.new) (T.Real.floats pack.old) (T.Real.floats pack.new) }
{
    let chunk = T::ROW_CHUNK;
    for i in 0..chunk_count(a.rows, chunk) {
        let mc = chunk_len(a.rows, chunk, i);
        let pa = a.part(i * chunk, 0, mc, a.columns);
        let pc = lc.based_at(i * chunk, 0);
        panels::pack(pack, T::TILE_ROWS, pa);
        let packed = &pack[..];
        gemm_packed(
            a.columns,
            mc,
            n,
            alpha,
            &packed[..asize],
            &packed[asize..],
            fate,
            c,
            pc,
        );
    }
}

// What multiplies old C in depth chunk t.
#[tactic(auto, unfolding(rules::specs::Element::multiplier))]
fn multiplier<T: Element>(beta: T, t: usize) -> T
    ensures { T.held.is result ≡ multiplier (arith_of T.kind) (T.held.is beta) t }
{
    if t == 0 {
        return beta;
    }
    T::one()
}

// LOOP 4: the depth in chunks of `chunk`. B's panels go behind A's; what becomes of old C is settled once for each chunk.
fn depth_loop<T: Kernel + Packs>(
    chunk: usize,
    alpha: T,
    a: Matrix<T>,
    b: Matrix<T>,
    beta: T,
    c: &mut [T::Real],
    lc: Operand,
    pack: &mut [T::Real],
    asize: usize,
)
    requires depth { (b.rows ≡ a.columns) × (0 < chunk) }
    requires writable { Writable a.rows b.columns lc ((view_of T.kind).count (length (T.Real.floats c.old))) }
    requires shares { Shares T.kind a.rows (min a.columns chunk) b.columns asize (length (T.Real.floats pack.old)) }
    ensures { LoopLeaves T.kind lc a.entry.rows b.entry.columns
        (deep T.kind chunk (T.held.is alpha) (T.held.is beta) (T.Real.floats a.entry.reals.now) a.entry.at
        (T.Real.floats b.entry.reals.now) b.entry.at a.entry.columns (chunks chunk a.entry.columns))
        (asize + panels T.kind (tiling_of T.kind).nr b.entry.columns (min a.entry.columns chunk))
        (T.Real.floats c.old) (T.Real.floats c.new) (T.Real.floats pack.old) (T.Real.floats pack.new) }
{
    for p in 0..chunk_count(a.columns, chunk) {
        let kc = chunk_len(a.columns, chunk, p);
        let pa = a.part(0, p * chunk, a.rows, kc);
        let pb = b.part(p * chunk, 0, kc, b.columns);
        panels::pack(&mut pack[asize..], T::TILE_COLUMNS, pb.transposed());
        let by = multiplier(beta, p);
        let fate = Fate::from_beta(by);
        row_loop(b.columns, alpha, pa, fate, c, lc, pack, asize);
    }
}

// LOOP 5: b's columns in chunks. The front of the pack buffer, asize reals, is for A's panels; `chunk` is the call's depth chunk.
pub fn gemm_loop<T: Kernel + Packs>(
    chunk: usize,
    alpha: T,
    a: Matrix<T>,
    b: Matrix<T>,
    beta: T,
    c: &mut [T::Real],
    lc: Operand,
    pack: &mut [T::Real],
)
    requires depth { (b.rows ≡ a.columns) × (0 < chunk) }
    requires writable { Writable a.rows b.columns lc ((view_of T.kind).count (length (T.Real.floats c.old))) }
    requires room { need_of (tiling_of T.kind) chunk a.rows a.columns b.columns
        ≤ (view_of T.kind).count (length (T.Real.floats pack.old)) }
    ensures { LoopLeaves T.kind lc a.entry.rows b.entry.columns
        (deep T.kind chunk (T.held.is alpha) (T.held.is beta) (T.Real.floats a.entry.reals.now) a.entry.at
        (T.Real.floats b.entry.reals.now) b.entry.at a.entry.columns (chunks chunk a.entry.columns))
        (need_of (tiling_of T.kind) chunk a.entry.rows a.entry.columns b.entry.columns * per_element T.kind)
        (T.Real.floats c.old) (T.Real.floats c.new) (T.Real.floats pack.old) (T.Real.floats pack.new) }
{
    let columns = T::COLUMN_CHUNK;
    let rows = a.rows.min(T::ROW_CHUNK).next_multiple_of(T::TILE_ROWS);
    let asize = a.columns.min(chunk) * (rows * T::REALS);
    for j in 0..chunk_count(b.columns, columns) {
        let nc = chunk_len(b.columns, columns, j);
        let pb = b.part(0, j * columns, b.rows, nc);
        let pc = lc.based_at(0, j * columns);
        depth_loop(chunk, alpha, a, pb, beta, c, pc, pack, asize);
    }
}
