// One depth step of a panel as an array of lanes: which path reads it. Rust: `pack_impl`, packing.rs, and `pack_complex`, cgemm_common.rs.
ghost use Rattle.std.specs.Prelude.{◌≡◌, ℕ, ◌+◌, ◌^◌, ◌<◌, ◌≤◌, length};
ghost use Rattle.element.specs.Kinds.{arith_of, view_of};
ghost use Rattle.layout.specs.Place.{element_at};
ghost use Rattle.loops.specs.Panels.{padded};
ghost use Rattle.loops.specs.Tiles.{up_to, line};

use crate::matrix::Matrix;
use element::elements::Element;

// Lane i is f(i) below w, and +0 from w on.
fn lanes_of<T: Element, F: Fn(usize) -> T, const N: usize>(w: usize, f: F) -> [T; N]
    requires w_le_n { w ≤ N }
    requires callable { (i : ℕ) → i < w → F.pre f i }
    ensures { (g : ℕ → (arith_of T.kind).E) → ((i : ℕ) (r : T) → i < w → F.post f i r → T.held.is r ≡ g i)
        → result ≡ line T.held N (up_to (arith_of T.kind) w g) }
{
    let mut x = [T::zero(); N];
    for i in 0..w {
        x[i] = f(i);
    }
    x
}

// w elements from row `first` on, and +0 where rows are missing.
pub fn ragged<T: Element, const N: usize>(w: usize, a: Matrix<T>, first: usize, p: usize) -> [T; N]
    requires { (w ≤ N) × (first + w < 2 ^ 32) × (p < a.columns) }
    ensures { result ≡ line T.held N
        (up_to (arith_of T.kind) w (λ i. padded (arith_of T.kind) a.entry.rows
        (element_at T.kind (T.Real.floats a.entry.reals.now) a.entry.at) (first + i) p)) }
{
    lanes_of(w, |i| a.padded(first + i, p))
}

// w elements by places from row `first` on, none of them missing. Apart from `ragged`, whose test for missing rows makes packing f32 a
// tenth slower and f64 by more than a half.
fn general<T: Element, const N: usize>(w: usize, a: Matrix<T>, first: usize, p: usize) -> [T; N]
    requires { (w ≤ N) × (first + w ≤ a.rows) × (p < a.columns) }
    ensures { result ≡ line T.held N
        (up_to (arith_of T.kind) w (λ i. element_at T.kind (T.Real.floats a.entry.reals.now) a.entry.at (first + i) p)) }
{
    lanes_of(w, |i| a.element(first + i, p))
}

// w neighbours in the slice, from `from` on.
fn contiguous<T: Element, const N: usize>(w: usize, a: &[T::Real], from: usize) -> [T; N]
    requires { (w ≤ N) × (from + w ≤ (view_of T.kind).count (length (T.Real.floats a.now))) }
    ensures { result ≡ line T.held N
        (up_to (arith_of T.kind) w (λ i. (view_of T.kind).get (T.Real.floats a.now) (from + i))) }
{
    lanes_of(w, |i| T::read(a, from + i))
}

// w elements from row `first` on at depth p: where no row is missing, the contiguous path if they are neighbours, else the general one.
pub fn lanes<T: Element, const N: usize>(w: usize, a: Matrix<T>, first: usize, p: usize) -> [T; N]
    requires { (w ≤ N) × (first + w < 2 ^ 32) × (p < a.columns) × (0 < w) }
    ensures { result ≡ line T.held N
        (up_to (arith_of T.kind) w (λ i. padded (arith_of T.kind) a.entry.rows
        (element_at T.kind (T.Real.floats a.entry.reals.now) a.entry.at) (first + i) p)) }
{
    if first + w <= a.rows {
        if a.at.rs == 1 {
            return contiguous(w, a.reals, a.at.place(first, p));
        }
        return general(w, a, first, p);
    }
    ragged(w, a, first, p)
}
