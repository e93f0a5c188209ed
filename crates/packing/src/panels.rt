// Panels of tile width into the pack buffer. Rust: `pack_impl`, packing.rs, and `pack_complex`, cgemm_common.rs.
ghost use Rattle.std.specs.Prelude.{◌≡◌, ◌+◌, ◌*◌, ◌^◌, ◌<◌, ◌≤◌, length};
ghost use Rattle.rules.specs.Lists.{splice};
ghost use Rattle.element.specs.Kinds.{arith_of, tiling_of};
ghost use Rattle.layout.specs.Place.{element_at};
ghost use Rattle.loops.specs.Panels.{packing_of, padded, packed_panel};
ghost use Rattle.loops.specs.Work.{panels, PackedFrom};

use crate::matrix::Matrix;
use crate::packs::Packs;
use layout::util::chunk_count;

// One panel: a depth step for each of a's columns.
fn pack_panel<T: Packs>(pack: &mut [T::Real], start: usize, w: usize, a: Matrix<T>, first: usize)
    requires { (start + a.columns * (packing_of T.kind).floats w ≤ length (T.Real.floats pack.old))
        × (w ≤ (tiling_of T.kind).mr) × (first + w < 2 ^ 32) × (0 < w) }
    ensures { T.Real.floats pack.new ≡ splice (T.Real.floats pack.old) start
        (packed_panel (packing_of T.kind) w a.entry.columns
        (padded (arith_of T.kind) a.entry.rows (element_at T.kind (T.Real.floats a.entry.reals.now) a.entry.at)) first) }
{
    for p in 0..a.columns {
        let at = start + p * (w * T::REALS);
        T::pack_row(pack, at, w, a.reals, a.at, a.rows, a.columns, first, p);
    }
}

// All panels of a, w rows each, from the front of pack on; a ragged last panel is filled up with +0.
pub fn pack<T: Packs>(pack: &mut [T::Real], w: usize, a: Matrix<T>)
    requires room { panels T.kind w a.rows a.columns ≤ length (T.Real.floats pack.old) }
    requires w_in_bounds { (0 < w) × (w ≤ (tiling_of T.kind).mr) }
    ensures { PackedFrom T.kind w a.entry.columns a.entry.rows a.entry.at
        (T.Real.floats a.entry.reals.now) (T.Real.floats pack.old) (T.Real.floats pack.new) }
{
    for ir in 0..chunk_count(a.rows, w) {
        pack_panel(pack, ir * (a.columns * (w * T::REALS)), w, a, ir * w);
    }
}
