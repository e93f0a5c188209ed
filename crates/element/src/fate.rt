// What becomes of old C in a depth chunk: it is overwritten, or multiplied by a number. Rust: the tests of beta in gemm.rs.
ghost use Rattle.std.specs.Prelude.{◌≡◌};
ghost use Rattle.rules.specs.Element.{fate, put, scaled};
ghost use Rattle.element.specs.Kinds.{arith_of};
ghost use Rattle.element.specs.Fates.{fate_of};

use crate::elements::Element;

#[derive(Clone, Copy)]
pub enum Fate<T> {
    Overwrite,
    Times(T),
}

impl<T: Element> Fate<T> {
    // The fate that a multiplier gives old C.
    #[tactic(auto, unfolding(rules::specs::Element::fate))]
    pub fn from_beta(beta: T) -> Fate<T>
        ensures { fate_of T.held.is result ≡ fate (arith_of T.kind) (T.held.is beta) }
    {
        if beta.is_zero() {
            return Fate::Overwrite;
        }
        Fate::Times(beta)
    }

    // The chunk's part over old C.
    #[tactic(auto, unfolding(rules::specs::Element::put))]
    pub fn put(self, part: T, old: T) -> T
        ensures { T.held.is result ≡ put (arith_of T.kind) (fate_of T.held.is self) (T.held.is part) (T.held.is old) }
    {
        match self {
            Fate::Overwrite => part,
            Fate::Times(x) => old.mul(x).add(part),
        }
    }

    // Old C where the depth is zero.
    #[tactic(auto, unfolding(rules::specs::Element::scaled))]
    pub fn scaled(self, old: T) -> T
        ensures { T.held.is result ≡ scaled (arith_of T.kind) (fate_of T.held.is self) (T.held.is old) }
    {
        match self {
            Fate::Overwrite => T::zero(),
            Fate::Times(x) => old.mul(x),
        }
    }
}
