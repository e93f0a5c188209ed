// The reals in words: a float is its pattern.
ghost use Rattle.std.specs.Prelude.{◌≡◌};
ghost use Rattle.std.specs.Float.Ieee.{of_bits, to_bits};
ghost use Rattle.floats.specs.Floats.{float_of};

use element::real::Real;
use std::num::{
    f32_from_bits_with_nan, f32_to_bits_with_nan, f64_from_bits_with_nan, f64_to_bits_with_nan,
};

pub trait Patterns: Real {
    // The float whose pattern a word is, a NaN where it is none.
    fn float_of(word: u64) -> Self
        ensures { Self.held.is result ≡ float_of Self.format word };

    // Its pattern, which no other float has: the NaNs have one.
    fn pattern(self) -> u64
        ensures { (result ≡ to_bits Self.format (Self.held.is self))
            × (of_bits Self.format result ≡ Self.held.is self) };
}

impl Patterns for f32 {
    #[tactic(auto, unfolding(crate::specs::Floats::float_of), using(crate::proofs::FloatLaws::large_word))]
    fn float_of(word: u64) -> f32 {
        match u32::try_from(word) {
            Ok(bits) => f32_from_bits_with_nan(bits),
            Err(_) => f32::NAN,
        }
    }

    fn pattern(self) -> u64 {
        u64::from(f32_to_bits_with_nan(self))
    }
}

impl Patterns for f64 {
    #[tactic(auto, unfolding(crate::specs::Floats::float_of))]
    fn float_of(word: u64) -> f64 {
        f64_from_bits_with_nan(word)
    }

    fn pattern(self) -> u64 {
        f64_to_bits_with_nan(self)
    }
}
