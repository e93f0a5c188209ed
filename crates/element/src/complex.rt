// Complex numbers over either real: their arithmetic, and how they lie in a slice, as two neighbouring reals. Rust: c32, c64, c32_mul and
// c64_mul in kernel.rs.
ghost use Rattle.std.specs.Prelude.{◌≡◌, ◌<◌, length};
ghost use Rattle.rules.specs.Element.{complex};
ghost use Rattle.rules.specs.Slice.{complex_view};
ghost use Rattle.rules.specs.Stores.{Stored};
ghost use Rattle.element.specs.Numbers.{complex_held};

use crate::real::Real;

#[repr(C)]
#[derive(Clone, Copy)]
pub struct Complex<R> {
    pub re: R,
    pub im: R,
}

pub type Complex32 = Complex<f32>;

pub type Complex64 = Complex<f64>;

impl<R: Real> Complex<R> {
    pub fn zero() -> Complex<R>
        ensures { (complex_held R.held).is result ≡ (complex R.format).nought }
    {
        Complex {
            re: R::zero(),
            im: R::zero(),
        }
    }

    pub fn one() -> Complex<R>
        ensures { (complex_held R.held).is result ≡ (complex R.format).one }
    {
        Complex {
            re: R::one(),
            im: R::zero(),
        }
    }

    // Zero where each of its parts compares equal to 0.
    pub fn is_zero(self) -> bool
        ensures { result ≡ (complex R.format).is_zero ((complex_held R.held).is self) }
    {
        self.re.is_zero() && self.im.is_zero()
    }

    pub fn mul(self, y: Complex<R>) -> Complex<R>
        ensures { (complex_held R.held).is result
            ≡ (complex R.format).mul ((complex_held R.held).is self) ((complex_held R.held).is y) }
    {
        Complex {
            re: self.re.times(y.re).minus(self.im.times(y.im)),
            im: self.im.times(y.re).plus(self.re.times(y.im)),
        }
    }

    pub fn add(self, y: Complex<R>) -> Complex<R>
        ensures { (complex_held R.held).is result
            ≡ (complex R.format).add ((complex_held R.held).is self) ((complex_held R.held).is y) }
    {
        Complex {
            re: self.re.plus(y.re),
            im: self.im.plus(y.im),
        }
    }

    // The sum after one depth step.
    pub fn step(self, a: Complex<R>, b: Complex<R>) -> Complex<R>
        ensures { (complex_held R.held).is result ≡ (complex R.format).step ((complex_held R.held).is self)
            ((complex_held R.held).is a) ((complex_held R.held).is b) }
    {
        let re = self.re.plus(a.re.times(b.re));
        let im = self.im.plus(a.re.times(b.im));
        Complex {
            re: re.plus(a.im.negated().times(b.im)),
            im: im.plus(a.im.times(b.re)),
        }
    }

    // The element at a place of a slice.
    pub fn read(s: &[R], at: usize) -> Complex<R>
        requires { at < complex_view.count (length (R.floats s.now)) }
        ensures { (complex_held R.held).is result ≡ complex_view.get (R.floats s.now) at }
    {
        Complex {
            re: s[at * 2],
            im: s[at * 2 + 1],
        }
    }

    // The number into a place of a slice.
    pub fn write(self, s: &mut [R], at: usize)
        requires { at < complex_view.count (length (R.floats s.old)) }
        ensures { Stored complex_view at ((complex_held R.held).is self) (R.floats s.old) (R.floats s.new) }
    {
        s[at * 2] = self.re;
        s[at * 2 + 1] = self.im;
    }
}
