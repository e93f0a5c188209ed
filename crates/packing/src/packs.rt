// How a kind packs one depth step of a panel. Rust: `pack_impl`, packing.rs, and `pack_complex`, cgemm_common.rs.
ghost use Rattle.std.specs.Prelude.{◌≡◌, ◌+◌, ◌^◌, ◌<◌, ◌≤◌, length};
ghost use Rattle.rules.specs.Lists.{splice};
ghost use Rattle.element.specs.Kinds.{arith_of, view_of, tiling_of};
ghost use Rattle.layout.specs.Operands.{Readable};
ghost use Rattle.layout.specs.Place.{element_at};
ghost use Rattle.loops.specs.Panels.{packing_of, padded};

use element::elements::Element;
use layout::operand::Operand;

pub trait Packs: Element {
    // One depth step of a panel of w rows from row `first` on, into pack from `start` on; +0 where rows are missing. The matrix comes
    // in its parts: tried with a `Matrix`, the impls get no proof, since that type's bound has ghost members.
    fn pack_row(
        pack: &mut [Self::Real],
        start: usize,
        w: usize,
        a: &[Self::Real],
        la: Operand,
        m: usize,
        kc: usize,
        first: usize,
        p: usize,
    )
        requires readable { Readable m kc la ((view_of Self.kind).count (length (Self.Real.floats a.now))) }
        requires w_in_bounds { (start + (packing_of Self.kind).floats w ≤ length (Self.Real.floats pack.old))
            × (w ≤ (tiling_of Self.kind).mr) × (first + w < 2 ^ 32) × (p < kc) × (0 < w) }
        ensures { Self.Real.floats pack.new ≡ splice (Self.Real.floats pack.old) start ((packing_of Self.kind).row w
            (λ i. padded (arith_of Self.kind) m (element_at Self.kind (Self.Real.floats a.now) la) (first + i) p)) };
}
