// Derived from crates/packing/src/real32.rt by tools/derive: edit that.
// How f64 is packed. Rust: `pack_impl`, packing.rs.
use crate::lanes::lanes;
use crate::matrix::Matrix;
use crate::packs::Packs;
use crate::real::store;
use element::elements::Element;
use layout::operand::Operand;

// A panel is at most as wide as the tile has rows.
const LANES: usize = <f64 as Element>::TILE_ROWS;

// Written for each kind: the merge gate refuses an impl that a macro of the repository writes.
impl Packs for f64 {
    // It is read whole before it is stored, so that a row of lanes is stored at once.
    fn pack_row(
        pack: &mut [f64],
        start: usize,
        w: usize,
        a: &[f64],
        la: Operand,
        m: usize,
        kc: usize,
        first: usize,
        p: usize,
    ) {
        let a = Matrix {
            reals: a,
            at: la,
            rows: m,
            columns: kc,
        };
        let x: [f64; LANES] = lanes(w, a, first, p);
        store(pack, start, w, x);
    }
}
