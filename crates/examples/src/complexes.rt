// P11 and P12 in either complex kind. Each number's parts are f32s, which either holds.
use crate::example::{Entry, Example};
use element::complex::Complex;
use element::real::Real;
use show::Bits;
use std::{fmt, io};

// (1 + 2i) times (3 + 4i).
pub fn both<R: Real + From<f32>>(rt: &impl Print) -> io::Result<()>
where
    Complex<R>: Entry<Real = R>,
    Bits<R>: fmt::Display,
{
    let eleven = Example {
        name: "P11",
        k: 1,
        alpha: Complex {
            re: R::zero(),
            im: R::one(),
        },
        a: &[R::from(1.0), R::from(2.0)],
        b: &[R::from(3.0), R::from(4.0)],
        beta: Complex::zero(),
    };
    let twelve = Example {
        name: "P12",
        k: 0,
        alpha: Complex::one(),
        beta: Complex::one(),
        ..eleven
    };
    let mut pack = [R::zero(); 12];
    let nan = R::from(f32::NAN);
    eleven.run(rt, &mut [nan, nan], &mut pack)?;
    twelve.run(rt, &mut [R::from(0.0), R::from(f32::INFINITY)], &mut pack)
}
