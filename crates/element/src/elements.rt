// An element of a matrix, of any kind: its chunks and its tile, its arithmetic, how it is read and stored. Rust: `Element` in kernel.rs.
ghost use Rattle.std.specs.Prelude.{◌≡◌, ◌<◌, ℕ, length};
ghost use Rattle.rules.specs.Held.{Held};
ghost use Rattle.rules.specs.Stores.{Stored};
ghost use Rattle.element.specs.Kinds.{format_of, arith_of, view_of, Constants};
ghost use Rattle.element.specs.declared.kind.Kind.{Kind};

use crate::kind::Kind;
use crate::real::Real;

pub trait Element: Copy {
    // What its slices hold.
    type Real: Real;

    const ROW_CHUNK: usize;

    const DEPTH_CHUNK: usize;

    const COLUMN_CHUNK: usize;

    const TILE_ROWS: usize;

    const TILE_COLUMNS: usize;

    // How many reals an element is.
    const REALS: usize;

    ghost kind: { Kind };

    // A number of the code as one of the arithmetic, and back.
    ghost held: { Held (arith_of kind).E Self };

    ghost ROW_CHUNK: { ℕ };

    ghost DEPTH_CHUNK: { ℕ };

    ghost COLUMN_CHUNK: { ℕ };

    ghost TILE_ROWS: { ℕ };

    ghost TILE_COLUMNS: { ℕ };

    ghost REALS: { ℕ };

    fn kind() -> Kind
        ensures { result ≡ kind };

    fn zero() -> Self
        ensures { held.is result ≡ (arith_of kind).nought };

    fn one() -> Self
        ensures { held.is result ≡ (arith_of kind).one };

    fn is_zero(self) -> bool
        ensures { result ≡ (arith_of kind).is_zero (held.is self) };

    fn mul(self, y: Self) -> Self
        ensures { held.is result ≡ (arith_of kind).mul (held.is self) (held.is y) };

    fn add(self, y: Self) -> Self
        ensures { held.is result ≡ (arith_of kind).add (held.is self) (held.is y) };

    // The element at a place of a slice.
    fn read(s: &[Self::Real], at: usize) -> Self
        requires { at < (view_of kind).count (length (Self.Real.floats s.now)) }
        ensures { held.is result ≡ (view_of kind).get (Self.Real.floats s.now) at };

    // The number into a place of a slice.
    fn write(self, s: &mut [Self::Real], at: usize)
        requires { at < (view_of kind).count (length (Self.Real.floats s.old)) }
        ensures { Stored (view_of kind) at (held.is self) (Self.Real.floats s.old) (Self.Real.floats s.new) };

    // Nothing is lost on the way to the arithmetic and back, the kind's floats have its reals' format, and the constants are its own.
    ghost kept: { (x : Self) → held.of (held.is x) ≡ x };

    ghost width: { format_of kind ≡ Self.Real.format };

    ghost constants: { Constants kind ROW_CHUNK DEPTH_CHUNK COLUMN_CHUNK TILE_ROWS TILE_COLUMNS REALS };
}
