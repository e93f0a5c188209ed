// One depth step of a panel of complex numbers into the pack buffer. Rust: `pack_complex`, cgemm_common.rs.
ghost use Rattle.std.specs.Prelude.{◌≡◌, ◌+◌, ◌≤◌, length, Float};
ghost use Rattle.rules.specs.Element.{Complex as Pair};
ghost use Rattle.rules.specs.Lists.{splice};
ghost use Rattle.element.specs.Numbers.{complex_held};
ghost use Rattle.loops.specs.Panels.{complex_packing, singles};
ghost use Rattle.loops.specs.Tiles.{at};

use element::complex::Complex;
use element::real::Real;

// One half of the first w lanes into pack, from `start` on.
fn store_half<R: Real, F: Fn(Complex<R>) -> R, const N: usize>(
    pack: &mut [R],
    start: usize,
    w: usize,
    x: &[Complex<R>; N],
    half: F,
)
    requires w_le_n { (start + w ≤ length (R.floats pack.old)) × (w ≤ N) }
    requires callable { F.IsAlwaysCallable half }
    ensures { (g : Pair → Float) → ((z : Complex R) (r : R) → F.post half z r → R.held.is r ≡ g ((complex_held R.held).is z))
        → R.floats pack.new ≡ splice (R.floats pack.old) start (singles w (λ i. g (at (complex_held R.held) x.now i))) }
{
    for i in 0..w {
        pack[start + i] = half(x[i]);
    }
}

// The first w lanes into pack, from `start` on: a row of reals, then a row of imaginaries.
pub fn store<R: Real, const N: usize>(pack: &mut [R], start: usize, w: usize, x: [Complex<R>; N])
    requires { (start + (w + w) ≤ length (R.floats pack.old)) × (w ≤ N) }
    ensures { R.floats pack.new
        ≡ splice (R.floats pack.old) start (complex_packing.row w (at (complex_held R.held) x)) }
{
    store_half(pack, start, w, &x, |z| z.re);
    store_half(pack, start + w, w, &x, |z| z.im);
}
