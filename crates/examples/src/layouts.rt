// The examples that are not marked P: places of C, collisions, the need, the largest size; in both real kinds where they name values. Last,
// strides that nobody steps along.
use crate::example::report;
use crate::reals;
use element::kind::Kind;
use gemm::gemm::gemm;
use layout::need::pack_length;
use layout::operand::Operand;
use std::io;

// Row by row from the first element, with this row stride.
fn rows_of(rs: isize) -> Operand {
    Operand { base: 0, rs, cs: 1 }
}

// An m by n C of so many elements, with these strides.
fn collides(rt: &impl Print, m: usize, n: usize, lc: Operand, c: &mut [f32]) -> io::Result<()> {
    let mut pack = [0.0f32; 16];
    let o = Operand {
        base: 0,
        rs: 0,
        cs: 0,
    };
    let one = [1.0f32];
    let r = gemm(m, 1, n, 1.0f32, &one, o, &one, o, 0.0, c, lc, &mut pack);
    report::<f32>(rt, "places", r, &[])
}

// What the need of an f32 call is, or that it is refused.
fn need(rt: &impl Print, m: usize, k: usize, n: usize) -> io::Result<()> {
    match pack_length(Kind::F32, m, k, n) {
        Err(x) => println!(rt; "sgemm need refused {}", x.number()),
        Ok(x) => println!(rt; "sgemm need {x}"),
    }
}

// m = 9, k = 300, n = 5 with a pack buffer of so many elements.
fn packed(rt: &impl Print, pack: &mut [f32]) -> io::Result<()> {
    let a = [1.0f32; 2700];
    let b = [1.0f32; 1500];
    let mut c = [0.0f32; 45];
    let la = rows_of(300);
    let lb = rows_of(5);
    let r = gemm(9, 300, 5, 1.0f32, &a, la, &b, lb, 0.0, &mut c, lb, pack);
    report::<f32>(rt, "pack", r, &c[44..])
}

pub fn all(rt: &impl Print) -> io::Result<()> {
    for base in [2, 1] {
        reals::downwards::<f32>(rt, base)?;
    }
    for base in [2, 1] {
        reals::downwards::<f64>(rt, base)?;
    }
    let near = Operand {
        base: 0,
        rs: 1,
        cs: 2,
    };
    let mirrored = Operand {
        base: 2,
        rs: 2,
        cs: -2,
    };
    let mut five = [0.0f32; 5];
    let mut four = [0.0f32; 4];
    collides(rt, 3, 2, near, &mut five)?;
    collides(rt, 3, 2, near, &mut four)?;
    collides(rt, 2, 2, near, &mut four)?;
    collides(rt, 2, 2, mirrored, &mut five)?;
    need(rt, 9, 300, 5)?;
    packed(rt, &mut [0.0; 6144])?;
    packed(rt, &mut [0.0; 6143])?;
    collides(rt, 65536, 2, near, &mut five)?;
    collides(rt, 65537, 2, near, &mut five)?;
    need(rt, 65536, 65536, 65536)?;
    need(rt, 65537, 0, 0)?;
    // one row, as from an array tool; two; and one row with the least isize
    let far = rows_of(1099511627776);
    collides(rt, 1, 5, far, &mut five)?;
    collides(rt, 2, 2, far, &mut five)?;
    let least = Operand {
        base: 4,
        rs: isize::MIN,
        cs: -1,
    };
    collides(rt, 1, 5, least, &mut five)
}
