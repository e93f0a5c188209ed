// Where the depth chunk shows: P6 to P8 in f32, whose sums are rounded, and P9 in f64.
use crate::example::Example;
use std::io;

// Apart from its caller, on whose stack the pack buffer would lie under all that follows.
#[inline(never)]
pub fn six_to_eight(rt: &impl Print) -> io::Result<()> {
    let ones = [1.0f32; 258];
    let mut a = [0.0f32; 258];
    a[0] = 16777216.0;
    a[256] = 1.0;
    a[257] = 1.0;
    let mut earlier = [0.0f32; 257];
    earlier[0] = 16777216.0;
    earlier[255] = 1.0;
    earlier[256] = 1.0;
    let seven = Example {
        name: "P7",
        k: 258,
        alpha: 1.0f32,
        a: &a,
        b: &ones,
        beta: 0.0,
    };
    let six = Example {
        name: "P6",
        k: 3,
        a: &[16777216.0, 1.0, 1.0],
        ..seven
    };
    let eight = Example {
        name: "P8",
        k: 257,
        a: &earlier,
        ..seven
    };
    let mut pack = [0.0f32; 3072];
    six.run(rt, &mut [f32::NAN], &mut pack)?;
    seven.run(rt, &mut [f32::NAN], &mut pack)?;
    eight.run(rt, &mut [f32::NAN], &mut pack)
}

pub fn nine(rt: &impl Print) -> io::Result<()> {
    let ones = [1.0f64; 257];
    let nine = Example {
        name: "P9",
        k: 257,
        alpha: 1.0,
        a: &ones,
        b: &ones,
        beta: 2.0,
    };
    nine.run(rt, &mut [3.0], &mut [0.0; 3072])
}
