// The tile kernel of the complex kinds: rules 1, 3 and 4. Rust: `kernel_fallback_impl_complex` in cgemm_common.rs.
ghost use Rattle.std.specs.Prelude.{◌≡◌, ◌+◌, ◌*◌, ◌^◌, ◌<◌, ◌≤◌, length};
ghost use Rattle.std.specs.Mem.{type_size};
ghost use Rattle.rules.specs.Element.{complex};
ghost use Rattle.loops.specs.Panels.{complex_packing, padded};
ghost use Rattle.loops.specs.Tiles.{up_to, at, line, cell, columns, stepped, summed};
ghost use Rattle.loops.specs.Work.{part};
ghost use Rattle.kernel.specs.Parts.{both};

use crate::pair::Paired;
use crate::reads::reals_into;
use element::real::Real;

// What one depth step reads: reals and imaginaries of A's lanes, then of B's. It is passed on by its fields, and not whole: a call owes
// that the struct is smaller than 2^63 bytes, its size is rounded up to how R is aligned, and no clause speaks of an alignment.
#[derive(Clone, Copy)]
struct Parts<R, const MR: usize, const NR: usize> {
    pp: [R; MR],
    qq: [R; MR],
    rr: [R; NR],
    ss: [R; NR],
}

// One column of the tile with one depth step's products added: b is its element of B.
fn column_step<Z: Paired, const MR: usize>(
    t: [Z; MR],
    pp: &[Z::Real; MR],
    qq: &[Z::Real; MR],
    b: Z,
) -> [Z; MR]
    ensures { result ≡ line Z.held MR (λ i. (complex Z.Real.format).step (at Z.held t i) (both Z.Real.held pp.now qq.now i) (Z.held.is b)) }
{
    let mut u = t;
    for i in 0..MR {
        u[i] = u[i].step(Z::pair(pp[i], qq[i]), b);
    }
    u
}

// The tile with one depth step's products added.
fn step<Z: Paired, const MR: usize, const NR: usize>(
    t: [[Z; MR]; NR],
    pp: &[Z::Real; MR],
    qq: &[Z::Real; MR],
    rr: &[Z::Real; NR],
    ss: &[Z::Real; NR],
) -> [[Z; MR]; NR]
    ensures { result ≡ stepped (complex Z.Real.format) Z.held MR NR t (both Z.Real.held pp.now qq.now) (both Z.Real.held rr.now ss.now) }
{
    let mut u = t;
    for j in 0..NR {
        u[j] = column_step(u[j], pp, qq, Z::pair(rr[j], ss[j]));
    }
    u
}

// The tile after depth step p of two packed panels.
fn next<Z: Paired, const MR: usize, const NR: usize>(
    t: [[Z; MR]; NR],
    a: &[Z::Real],
    b: &[Z::Real],
    p: usize,
) -> [[Z; MR]; NR]
    requires mr_in_bounds { (p * (MR + MR) + (MR + MR) ≤ length a.now) × (p * (NR + NR) + (NR + NR) ≤ length b.now) }
    requires t_value { t ≡ summed (complex Z.Real.format) Z.held MR NR
        (complex_packing.lane (Z.Real.floats a.now) MR) (complex_packing.lane (Z.Real.floats b.now) NR) p }
    ensures { result ≡ summed (complex Z.Real.format) Z.held MR NR
        (complex_packing.lane (Z.Real.floats a.now) MR) (complex_packing.lane (Z.Real.floats b.now) NR) (p + 1) }
{
    let zero = <Z::Real as Real>::zero();
    let mut x = Parts {
        pp: [zero; MR],
        qq: [zero; MR],
        rr: [zero; NR],
        ss: [zero; NR],
    };
    reals_into(&mut x.pp, a, p * (MR + MR));
    reals_into(&mut x.qq, a, p * (MR + MR) + MR);
    reals_into(&mut x.rr, b, p * (NR + NR));
    reals_into(&mut x.ss, b, p * (NR + NR) + NR);
    step(t, &x.pp, &x.qq, &x.rr, &x.ss)
}

// The sums of kc depth steps of two packed panels.
fn sums<Z: Paired, const MR: usize, const NR: usize>(
    kc: usize,
    a: &[Z::Real],
    b: &[Z::Real],
) -> [[Z; MR]; NR]
    requires { (kc * (MR + MR) ≤ length a.now) × (kc * (NR + NR) ≤ length b.now) }
    ensures { result ≡ summed (complex Z.Real.format) Z.held MR NR
        (complex_packing.lane (Z.Real.floats a.now) MR) (complex_packing.lane (Z.Real.floats b.now) NR) kc }
{
    let mut t = [[Z::zero(); MR]; NR];
    for p in 0..kc {
        t = next(t, a, b, p);
    }
    t
}

// The reals of a column.
fn reals_of<Z: Paired, const MR: usize>(t: [Z; MR]) -> [Z::Real; MR]
    requires { MR * type_size Z.Real.row < 2 ^ 63 }
    ensures { result ≡ line Z.Real.held MR (λ i. (at Z.held t i).re) }
{
    let mut re = [<Z::Real as Real>::zero(); MR];
    for i in 0..MR {
        re[i] = t[i].re();
    }
    re
}

// The imaginaries of a column.
fn imaginaries_of<Z: Paired, const MR: usize>(t: [Z; MR]) -> [Z::Real; MR]
    requires { MR * type_size Z.Real.row < 2 ^ 63 }
    ensures { result ≡ line Z.Real.held MR (λ i. (at Z.held t i).im) }
{
    let mut im = [<Z::Real as Real>::zero(); MR];
    for i in 0..MR {
        im[i] = t[i].im();
    }
    im
}

// The first rows of a column times alpha, alpha on the left, and +0 in the others. The sums are read apart, and by a count: where they are
// read as records, the compiler pairs each real with its imaginary in the depth loop too, and that takes nearly twice the time.
fn column_times<Z: Paired, const MR: usize>(alpha: Z, t: [Z; MR], rows: usize) -> [Z; MR]
    requires room { MR * type_size Z.Real.row < 2 ^ 63 }
    requires rows_le_mr { rows ≤ MR }
    ensures { result ≡ line Z.held MR (up_to (complex Z.Real.format) rows (
        λ i. (complex Z.Real.format).mul (Z.held.is alpha) (at Z.held t i))) }
{
    let re = reals_of(t);
    let im = imaginaries_of(t);
    let mut u = [Z::zero(); MR];
    for i in 0..rows {
        u[i] = alpha.mul(Z::pair(re[i], im[i]));
    }
    u
}

// The first rows of the tile times alpha, and +0 in the others.
fn times<Z: Paired, const MR: usize, const NR: usize>(
    alpha: Z,
    t: [[Z; MR]; NR],
    rows: usize,
) -> [[Z; MR]; NR]
    requires room { MR * type_size Z.Real.row < 2 ^ 63 }
    requires rows_le_mr { rows ≤ MR }
    ensures { result ≡ columns (complex Z.Real.format) Z.held MR NR (padded (complex Z.Real.format) rows (
        λ i j. (complex Z.Real.format).mul (Z.held.is alpha) (cell Z.held t j i))) }
{
    let mut u = t;
    for j in 0..NR {
        u[j] = column_times(alpha, u[j], rows);
    }
    u
}

// Alpha times the product of two packed panels of depth kc in the first rows of the tile, which is an array of columns as in the Rust, and
// +0 in the others.
pub fn kernel<Z: Paired, const MR: usize, const NR: usize>(
    kc: usize,
    alpha: Z,
    a: &[Z::Real],
    b: &[Z::Real],
    rows: usize,
) -> [[Z; MR]; NR]
    requires room { MR * type_size Z.Real.row < 2 ^ 63 }
    requires mr_in_bounds { (kc * (MR + MR) ≤ length a.now) × (kc * (NR + NR) ≤ length b.now) × (rows ≤ MR) }
    ensures { result ≡ columns (complex Z.Real.format) Z.held MR NR (padded (complex Z.Real.format) rows (
        part (complex Z.Real.format) (Z.held.is alpha)
        (complex_packing.lane (Z.Real.floats a.now) MR) (complex_packing.lane (Z.Real.floats b.now) NR) kc)) }
{
    times(alpha, sums(kc, a, b), rows)
}
