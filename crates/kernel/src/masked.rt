// A tile into C: what is past its lines and their numbers is dropped. Rust: `c_to_masked_ab_beta_c`, gemm.rs.
ghost use Rattle.std.specs.Prelude.{◌≡◌, ◌<◌, ◌≤◌, length};
ghost use Rattle.rules.specs.Element.{put};
ghost use Rattle.rules.specs.Slice.{Updated, Block, Region};
ghost use Rattle.element.specs.Fates.{fate_of};
ghost use Rattle.element.specs.Kinds.{arith_of, view_of};
ghost use Rattle.layout.specs.Place.{index_of};
ghost use Rattle.layout.specs.Operands.{Writable};
ghost use Rattle.loops.specs.Tiles.{at, cell};

use element::elements::Element;
use element::fate::Fate;
use layout::operand::Operand;

// The element (i,j) of rows by cols of C, changed.
pub fn update<T: Element, F: Fn(T) -> T>(
    c: &mut [T::Real],
    lc: Operand,
    rows: usize,
    cols: usize,
    i: usize,
    j: usize,
    change: F,
)
    requires writable { Writable rows cols lc ((view_of T.kind).count (length (T.Real.floats c.old))) }
    requires i_lt_rows { (i < rows) × (j < cols) }
    requires changes { (x : T) → F.pre change x }
    ensures { (f : (arith_of T.kind).E → (arith_of T.kind).E)
        → ((x : T) (y : T) → F.post change x y → T.held.is y ≡ f (T.held.is x))
        → Updated (view_of T.kind) (index_of lc) (Region i 1 j 1) (λ i j. f) (T.Real.floats c.old) (T.Real.floats c.new) }
{
    let at = lc.place(i, j);
    let old = T::read(c, at);
    change(old).write(c, at);
}

// Row i of C: the first cols numbers of a line. The loop goes over the whole line: its length is then known, and it is unrolled.
fn put_row<T: Element, const N: usize>(
    ab: [T; N],
    fate: Fate<T>,
    c: &mut [T::Real],
    lc: Operand,
    rows: usize,
    cols: usize,
    i: usize,
)
    requires writable { Writable rows cols lc ((view_of T.kind).count (length (T.Real.floats c.old))) }
    requires i_lt_rows { (i < rows) × (cols ≤ N) }
    ensures { Updated (view_of T.kind) (index_of lc) (Region i 1 0 cols)
        (λ i j. put (arith_of T.kind) (fate_of T.held.is fate) (at T.held ab j))
        (T.Real.floats c.old) (T.Real.floats c.new) }
{
    for j in 0..N {
        if j < cols {
            let part = ab[j];
            update(c, lc, rows, cols, i, j, |old: T| fate.put(part, old));
        }
    }
}

// rows by cols of a tile that is an array of rows, over C; a tile of columns goes over C transposed.
pub fn c_to_masked_ab_beta_c<T: Element, const M: usize, const N: usize>(
    ab: [[T; N]; M],
    fate: Fate<T>,
    c: &mut [T::Real],
    lc: Operand,
    rows: usize,
    cols: usize,
)
    requires writable { Writable rows cols lc ((view_of T.kind).count (length (T.Real.floats c.old))) }
    requires rows_le_m { (rows ≤ M) × (cols ≤ N) }
    ensures { Updated (view_of T.kind) (index_of lc) (Block rows cols)
        (λ i j. put (arith_of T.kind) (fate_of T.held.is fate) (cell T.held ab i j))
        (T.Real.floats c.old) (T.Real.floats c.new) }
{
    for i in 0..rows {
        put_row(ab[i], fate, c, lc, rows, cols, i);
    }
}
