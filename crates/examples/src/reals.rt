// What both real kinds share: P1 to P5, P10, and three elements that lie downwards. Each number is an f32, which either holds.
use crate::example::{Entry, Example, UNIT, report};
use gemm::gemm::gemm;
use layout::operand::Operand;
use show::Bits;
use std::{fmt, io};

// 3 times 5, over k depth steps.
pub fn one_to_five<R: Entry<Real = R> + From<f32>>(rt: &impl Print) -> io::Result<()>
where
    Bits<R>: fmt::Display,
{
    let mut pack = [R::from(0.0); 12];
    for (name, k, alpha, beta, old) in [
        ("P1", 1, 2.0, 0.0, f32::NAN),
        ("P2", 1, 2.0, -0.0, f32::INFINITY),
        ("P3", 1, 2.0, 1.0, 1.0),
        ("P4", 0, 1.0, 0.0, f32::NAN),
        ("P5", 0, 1.0, 2.0, 3.0),
    ] {
        let example = Example {
            name,
            k,
            alpha: R::from(alpha),
            a: &[R::from(3.0)],
            b: &[R::from(5.0)],
            beta: R::from(beta),
        };
        example.run(rt, &mut [R::from(old)], &mut pack)?;
    }
    Ok(())
}

pub fn ten<R: Entry<Real = R> + From<f32>>(rt: &impl Print) -> io::Result<()>
where
    Bits<R>: fmt::Display,
{
    let example = Example {
        name: "P10",
        k: 1,
        alpha: R::from(0.0),
        a: &[R::from(f32::INFINITY)],
        b: &[R::from(1.0)],
        beta: R::from(0.0),
    };
    example.run(rt, &mut [R::from(1.0)], &mut [R::from(0.0); 12])
}

// A = 1, 2, 3 times B = 1 into three elements that lie downwards from base.
pub fn downwards<R: Entry<Real = R> + From<f32>>(rt: &impl Print, base: usize) -> io::Result<()>
where
    Bits<R>: fmt::Display,
{
    let a = [R::from(1.0), R::from(2.0), R::from(3.0)];
    let zero = R::from(0.0);
    let one = R::from(1.0);
    let b = [one];
    let mut c = [R::from(7.0); 3];
    let mut pack = [zero; 16];
    let lc = Operand {
        base,
        rs: -1,
        ..UNIT
    };
    let r = gemm(
        3, 1, 1, one, &a, UNIT, &b, UNIT, zero, &mut c, lc, &mut pack,
    );
    report::<R>(rt, "downwards", r, &c)
}
