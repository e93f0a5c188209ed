// A complex number as a pair of reals, for the tile kernel. It is a trait, since the borrow checker covers arrays of arrays of a type
// parameter, and not those of a generic struct.
ghost use Rattle.std.specs.Prelude.{◌≡◌};
ghost use Rattle.rules.specs.Element.{Complex as Pair, complex};
ghost use Rattle.rules.specs.Held.{Held};
ghost use Rattle.element.specs.Numbers.{complex_held};

use element::complex::Complex;
use element::real::Real;

pub trait Paired: Copy {
    type Real: Real;

    // A number of the code as a complex one, and back.
    ghost held: { Held Pair Self };

    fn pair(re: Self::Real, im: Self::Real) -> Self
        ensures { held.is result ≡ record { re = Self.Real.held.is re; im = Self.Real.held.is im } };

    fn re(self) -> Self::Real
        ensures { Self.Real.held.is result ≡ (held.is self).re };

    fn im(self) -> Self::Real
        ensures { Self.Real.held.is result ≡ (held.is self).im };

    fn zero() -> Self
        ensures { held.is result ≡ (complex Self.Real.format).nought };

    fn mul(self, y: Self) -> Self
        ensures { held.is result ≡ (complex Self.Real.format).mul (held.is self) (held.is y) };

    // The sum after one depth step.
    fn step(self, a: Self, b: Self) -> Self
        ensures { held.is result ≡ (complex Self.Real.format).step (held.is self) (held.is a) (held.is b) };

    // Nothing is lost on the way to the complex number and back.
    ghost kept: { (x : Self) → held.of (held.is x) ≡ x };
}

impl<R: Real> Paired for Complex<R> {
    type Real = R;

    ghost held = { complex_held R.held };

    fn pair(re: R, im: R) -> Complex<R> {
        Complex { re, im }
    }

    fn re(self) -> R {
        self.re
    }

    fn im(self) -> R {
        self.im
    }

    fn zero() -> Complex<R> {
        Complex::zero()
    }

    fn mul(self, y: Complex<R>) -> Complex<R> {
        Complex::mul(self, y)
    }

    fn step(self, a: Complex<R>, b: Complex<R>) -> Complex<R> {
        Complex::step(self, a, b)
    }

    ghost kept = { λ z. λ k. record { re = R.kept z.re k; im = R.kept z.im k } };
}
