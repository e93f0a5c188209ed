// Derived from crates/packing/src/complex32.rt by tools/derive: edit that.
// How complex f64 is packed. Rust: `pack_complex`, cgemm_common.rs.
use crate::complex::store;
use crate::lanes::ragged;
use crate::matrix::Matrix;
use crate::packs::Packs;
use element::complex::Complex64;
use element::elements::Element;
use layout::operand::Operand;

// A panel is at most as wide as the tile has rows.
const LANES: usize = <Complex64 as Element>::TILE_ROWS;

// Written for each kind: the merge gate refuses an impl that a macro of the repository writes.
impl Packs for Complex64 {
    // It is read whole before it is stored, so that a row of lanes is stored at once.
    fn pack_row(
        pack: &mut [f64],
        start: usize,
        w: usize,
        a: &[f64],
        la: Operand,
        m: usize,
        kc: usize,
        first: usize,
        p: usize,
    ) {
        let a = Matrix {
            reals: a,
            at: la,
            rows: m,
            columns: kc,
        };
        let x: [Complex64; LANES] = ragged(w, a, first, p);
        store(pack, start, w, x);
    }
}
