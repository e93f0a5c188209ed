// Floats by their bits, over either real: the patterns that words hold.
#![tactic(auto)]

ghost use Rattle.std.specs.Prelude.{◌≡◌, length, drop};
ghost use Rattle.element.specs.Numbers.{complex_held};
ghost use Rattle.layout.specs.Operands.{Tells};
ghost use Rattle.floats.specs.Floats.{float_of, floats_of, complex_of, FirstDifference};

use crate::patterns::Patterns;
use element::complex::Complex;
use words::{after, word_at};

pub mod patterns;

// Does a word hold the pattern of a float, or of any NaN where the float is one?
fn matches<R: Patterns>(x: R, word: u64) -> bool
    ensures { Tells result (R.held.is x ≡ float_of R.format word) }
{
    x.pattern() == R::float_of(word).pattern()
}

// Fills floats from as many words, and answers the words behind those.
pub fn fill<'a, R: Patterns>(words: &'a [u64], floats: &mut [R]) -> &'a [u64]
    ensures { (R.floats floats.new ≡ floats_of R.format (length floats.old) words.now)
        × (result.now ≡ drop (length floats.old) words.now) }
{
    for (i, x) in floats.iter_mut().enumerate() {
        *x = R::float_of(word_at(words, i));
    }
    after(words, floats.len())
}

// The first place whose float is not the word's, or how many floats there are.
pub fn first_difference<R: Patterns>(floats: &[R], words: &[u64]) -> usize
    ensures { FirstDifference R.format (R.floats floats.now) words.now result }
{
    for (place, x) in floats.iter().enumerate() {
        if !matches(*x, word_at(words, place)) {
            return place;
        }
    }
    floats.len()
}

// The complex number whose parts the first two words hold.
pub fn complex_of<R: Patterns>(parts: &[u64]) -> Complex<R>
    ensures { (complex_held R.held).is result ≡ complex_of R.format parts.now }
{
    Complex {
        re: R::float_of(word_at(parts, 0)),
        im: R::float_of(word_at(parts, 1)),
    }
}
