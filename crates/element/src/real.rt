// The reals: a number that is one float, f32 or f64, and the arithmetic of its format.
ghost use Rattle.std.specs.Prelude.{◌≡◌, ◌<◌, ◌^◌, List, Float, length, map};
ghost use Rattle.std.specs.Float.{Format};
ghost use Rattle.std.specs.Float.Ieee.{add, sub, mul, neg, eq};
ghost use Rattle.rules.specs.Element.{+0, +1};
ghost use Rattle.rules.specs.Held.{Held};

pub trait Real: Copy {
    ghost format: { Format };

    // A real as a float, and back.
    ghost held: { Held Float Self };

    // A slice of reals as floats.
    ghost floats: { List Self → List Float };

    // How long a slice is. The size of a type parameter is unknown, so nothing bounds `s.len()` there: the bound comes with this.
    fn count(s: &[Self]) -> usize
        ensures { (result ≡ length s.now) × (result < 2 ^ 62) };

    fn zero() -> Self
        ensures { held.is result ≡ +0 };

    fn one() -> Self
        ensures { held.is result ≡ +1 };

    // Does it compare equal to 0?
    fn is_zero(self) -> bool
        ensures { result ≡ eq (held.is self) +0 };

    // `plus` and `times` are named apart from `Element`'s `add` and `mul`, since f32 and f64 have both traits.
    fn plus(self, y: Self) -> Self
        ensures { held.is result ≡ add format (held.is self) (held.is y) };

    fn minus(self, y: Self) -> Self
        ensures { held.is result ≡ sub format (held.is self) (held.is y) };

    fn times(self, y: Self) -> Self
        ensures { held.is result ≡ mul format (held.is self) (held.is y) };

    fn negated(self) -> Self
        ensures { held.is result ≡ neg (held.is self) };

    // Nothing is lost on the way to a float and back, and a slice's floats are its reals'.
    ghost kept: { (x : Self) → held.of (held.is x) ≡ x };

    ghost each: { (s : List Self) → floats s ≡ map held.is s };
}
