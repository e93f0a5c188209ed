// Numbers as C gives them: a record that crosses to C has no type parameter.
ghost use Rattle.std.specs.Prelude.{◌≡◌};

use element::complex::Complex;

pub type Real32 = f32;

pub type Real64 = f64;

#[repr(C)]
#[derive(Clone, Copy, Debug, PartialEq)]
pub struct Complex32 {
    pub re: f32,
    pub im: f32,
}

#[repr(C)]
#[derive(Clone, Copy, Debug, PartialEq)]
pub struct Complex64 {
    pub re: f64,
    pub im: f64,
}

impl From<Complex32> for Complex<f32> {
    ghost from_gives = { λ z r. r ≡ record { re = z.re; im = z.im } };

    fn from(z: Complex32) -> Complex<f32> {
        Complex { re: z.re, im: z.im }
    }
}

impl From<Complex64> for Complex<f64> {
    ghost from_gives = { λ z r. r ≡ record { re = z.re; im = z.im } };

    fn from(z: Complex64) -> Complex<f64> {
        Complex { re: z.re, im: z.im }
    }
}
