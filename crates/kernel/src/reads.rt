// Reals of a packed panel, one after the other. They are read in place: an array of two f32 that is handed out is moved as one 64-bit
// integer, and complex f32 then takes an eighth longer.
ghost use Rattle.std.specs.Prelude.{◌≡◌, ◌+◌, ◌≤◌, length, get_or};
ghost use Rattle.std.specs.Float.{nan};
ghost use Rattle.loops.specs.Tiles.{line};

use element::real::Real;

// The N reals from `first` on, into x. It is a loop, since with `copy_from_slice` an f32 product takes more than twice as long.
pub fn reals_into<R: Real, const N: usize>(x: &mut [R; N], s: &[R], first: usize)
    requires { first + N ≤ length s.now }
    ensures { x.new ≡ line R.held N (λ i. get_or (R.floats s.now) (first + i) nan) }
{
    for i in 0..N {
        x[i] = s[first + i];
    }
}
