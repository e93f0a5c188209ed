// The tile kernel of the real kinds: rules 1, 2 and 4. It holds columns while it sums, as the Rust's does, and turns them at its end. Rust:
// `kernel_fallback_impl` in sgemm_kernel.rs.
ghost use Rattle.std.specs.Prelude.{◌≡◌, ◌+◌, ◌*◌, ◌^◌, ◌<◌, ◌≤◌, length};
ghost use Rattle.std.specs.Mem.{type_size};
ghost use Rattle.rules.specs.Element.{real};
ghost use Rattle.loops.specs.Panels.{real_packing, padded};
ghost use Rattle.loops.specs.Tiles.{at, line, lines, cell, stepped, summed};
ghost use Rattle.loops.specs.Work.{part};

use crate::reads::reals_into;
use element::real::Real;

// One column of the tile with one depth step's products added.
fn column_step<R: Real, const MR: usize>(t: [R; MR], x: [R; MR], y: R) -> [R; MR]
    ensures { result ≡ line R.held MR (λ i. (real R.format).step (at R.held t i) (at R.held x i) (R.held.is y)) }
{
    let mut u = t;
    for i in 0..MR {
        u[i] = u[i].plus(x[i].times(y));
    }
    u
}

// The columns with one depth step's products added.
fn step<R: Real, const MR: usize, const NR: usize>(
    t: [[R; MR]; NR],
    x: [R; MR],
    y: [R; NR],
) -> [[R; MR]; NR]
    ensures { result ≡ stepped (real R.format) R.held MR NR t (at R.held x) (at R.held y) }
{
    let mut u = t;
    for j in 0..NR {
        u[j] = column_step(u[j], x, y[j]);
    }
    u
}

// The columns after depth step p of two packed panels.
fn next<R: Real, const MR: usize, const NR: usize>(
    t: [[R; MR]; NR],
    a: &[R],
    b: &[R],
    p: usize,
) -> [[R; MR]; NR]
    requires mr_in_bounds { (p * MR + MR ≤ length a.now) × (p * NR + NR ≤ length b.now) }
    requires t_value { t ≡ summed (real R.format) R.held MR NR
        (real_packing.lane (R.floats a.now) MR) (real_packing.lane (R.floats b.now) NR) p }
    ensures { result ≡ summed (real R.format) R.held MR NR
        (real_packing.lane (R.floats a.now) MR) (real_packing.lane (R.floats b.now) NR) (p + 1) }
{
    let mut x = [R::zero(); MR];
    let mut y = [R::zero(); NR];
    reals_into(&mut x, a, p * MR);
    reals_into(&mut y, b, p * NR);
    step(t, x, y)
}

// The columns after the four depth steps from p on, one by one.
fn next_four<R: Real, const MR: usize, const NR: usize>(
    t: [[R; MR]; NR],
    a: &[R],
    b: &[R],
    p: usize,
) -> [[R; MR]; NR]
    requires p_max { p + 4 < 2 ^ 64 }
    requires mr_in_bounds { ((p + 4) * MR ≤ length a.now) × ((p + 4) * NR ≤ length b.now) }
    requires t_value { t ≡ summed (real R.format) R.held MR NR
        (real_packing.lane (R.floats a.now) MR) (real_packing.lane (R.floats b.now) NR) p }
    ensures { result ≡ summed (real R.format) R.held MR NR
        (real_packing.lane (R.floats a.now) MR) (real_packing.lane (R.floats b.now) NR) (p + 4) }
{
    let one = next(t, a, b, p);
    let two = next(one, a, b, p + 1);
    let three = next(two, a, b, p + 2);
    next(three, a, b, p + 3)
}

// The columns after all kc depth steps, from those after the first p: the remainder, singly.
fn rest<R: Real, const MR: usize, const NR: usize>(
    t: [[R; MR]; NR],
    p: usize,
    kc: usize,
    a: &[R],
    b: &[R],
) -> [[R; MR]; NR]
    requires p_le_kc { (p ≤ kc) × (kc * MR ≤ length a.now) × (kc * NR ≤ length b.now) }
    requires t_value { t ≡ summed (real R.format) R.held MR NR
        (real_packing.lane (R.floats a.now) MR) (real_packing.lane (R.floats b.now) NR) p }
    ensures { result ≡ summed (real R.format) R.held MR NR
        (real_packing.lane (R.floats a.now) MR) (real_packing.lane (R.floats b.now) NR) kc }
{
    let mut u = t;
    for q in p..kc {
        u = next(u, a, b, q);
    }
    u
}

// The sums of kc depth steps of two packed panels: four in each turn, the remainder last.
fn sums<R: Real, const MR: usize, const NR: usize>(kc: usize, a: &[R], b: &[R]) -> [[R; MR]; NR]
    requires { (kc * MR ≤ length a.now) × (kc * NR ≤ length b.now) }
    ensures { result ≡ summed (real R.format) R.held MR NR
        (real_packing.lane (R.floats a.now) MR) (real_packing.lane (R.floats b.now) NR) kc }
{
    let mut t = [[R::zero(); MR]; NR];
    for turn in 0..kc / 4 {
        t = next_four(t, a, b, turn * 4);
    }
    rest(t, kc / 4 * 4, kc, a, b)
}

// Row i of the columns times alpha, alpha on the left.
fn row_times<R: Real, const MR: usize, const NR: usize>(
    alpha: R,
    t: &[[R; MR]; NR],
    i: usize,
) -> [R; NR]
    requires { i < MR }
    ensures { result ≡ line R.held NR (λ j. (real R.format).mul (R.held.is alpha) (cell R.held t.now j i)) }
{
    let mut row = [R::zero(); NR];
    for j in 0..NR {
        row[j] = alpha.times(t[j][i]);
    }
    row
}

// The first rows of the columns times alpha, as rows, and +0 in the others. The count keeps the columns apart until here: with all of them
// the compiler sums by rows.
fn times<R: Real, const MR: usize, const NR: usize>(
    alpha: R,
    t: [[R; MR]; NR],
    rows: usize,
) -> [[R; NR]; MR]
    requires { rows ≤ MR }
    ensures { result ≡ lines R.held MR NR (padded (real R.format) rows (
        λ i j. (real R.format).mul (R.held.is alpha) (cell R.held t j i))) }
{
    let mut tile = [[R::zero(); NR]; MR];
    for i in 0..rows {
        tile[i] = row_times(alpha, &t, i);
    }
    tile
}

// Alpha times the product of two packed panels of depth kc in the first rows of the tile, which is an array of rows, and +0 in the others.
pub fn kernel<R: Real, const MR: usize, const NR: usize>(
    kc: usize,
    alpha: R,
    a: &[R],
    b: &[R],
    rows: usize,
) -> [[R; NR]; MR]
    requires room { MR * type_size R.row < 2 ^ 63 }
    requires mr_in_bounds { (kc * MR ≤ length a.now) × (kc * NR ≤ length b.now) }
    requires rows_le_mr { rows ≤ MR }
    ensures { result ≡ lines R.held MR NR (padded (real R.format) rows (part (real R.format) (R.held.is alpha)
        (real_packing.lane (R.floats a.now) MR) (real_packing.lane (R.floats b.now) NR) kc)) }
{
    times(alpha, sums(kc, a, b), rows)
}
