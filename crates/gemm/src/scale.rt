// C where the depth is zero: rule 7. Rust: `c_to_beta_c`, gemm.rs.
ghost use Rattle.std.specs.Prelude.{◌<◌, length};
ghost use Rattle.rules.specs.Element.{scaled};
ghost use Rattle.rules.specs.Slice.{Updated, Block, Region};
ghost use Rattle.element.specs.Fates.{fate_of};
ghost use Rattle.element.specs.Kinds.{arith_of, view_of};
ghost use Rattle.layout.specs.Place.{index_of};
ghost use Rattle.layout.specs.Operands.{Writable};

use element::elements::Element;
use element::fate::Fate;
use kernel::masked::update;
use layout::operand::Operand;

// Row i of C: beta times it, or +0 where beta is zero.
fn scale_row<T: Element>(
    m: usize,
    n: usize,
    fate: Fate<T>,
    c: &mut [T::Real],
    lc: Operand,
    i: usize,
)
    requires writable { Writable m n lc ((view_of T.kind).count (length (T.Real.floats c.old))) }
    requires i_lt_m { i < m }
    ensures { Updated (view_of T.kind) (index_of lc) (Region i 1 0 n)
        (λ i j. scaled (arith_of T.kind) (fate_of T.held.is fate)) (T.Real.floats c.old) (T.Real.floats c.new) }
{
    for j in 0..n {
        update(c, lc, m, n, i, j, |old: T| fate.scaled(old));
    }
}

// C becomes beta C, or +0 where beta is zero.
pub fn c_to_beta_c<T: Element>(m: usize, n: usize, fate: Fate<T>, c: &mut [T::Real], lc: Operand)
    requires { Writable m n lc ((view_of T.kind).count (length (T.Real.floats c.old))) }
    ensures { Updated (view_of T.kind) (index_of lc) (Block m n)
        (λ i j. scaled (arith_of T.kind) (fate_of T.held.is fate)) (T.Real.floats c.old) (T.Real.floats c.new) }
{
    for i in 0..m {
        scale_row(m, n, fate, c, lc, i);
    }
}
