// How a call lies in its words: 21 words of numbers, the floats of A, B and C, the answer, and C's floats after the call.
ghost use Rattle.std.specs.Prelude.{◌≡◌, ◌≤◌, length, get_or, MatchOption};
ghost use Rattle.std.specs.Iterator.{at_most};
ghost use Rattle.layout.specs.Operands.{Tells};
ghost use Rattle.sample.specs.Calls.{word_of, operand_at, matrices_of, length_at, size_of};
ghost use Rattle.sample.specs.Calls.{Short, Patterns, HoldsFloats, IsCall, PassesCall};

use call::judge::Matrices;
use element::kind::Kind;
use layout::operand::Operand;
use std::fmt;
use words::{after, signed, word_at};

// Where each number stands.
pub const KIND: usize = 0;

pub const A_LENGTH: usize = 13;

pub const B_LENGTH: usize = 14;

pub const C_LENGTH: usize = 15;

pub const PACK_LENGTH: usize = 16;

pub const ALPHA: usize = 17;

pub const BETA: usize = 19;

pub const FLOATS: usize = 21;

const LONGEST: u64 = 4096;

// The largest pattern of an f32.
const LARGEST: u64 = 0xffff_ffff;

// Where a call differs from what is recorded: in the answer, or first in the float at a place of C's slice.
#[derive(Clone, Copy)]
pub enum Difference {
    Answer,
    Place(usize),
}

impl fmt::Display for Difference {
    fn fmt<W: fmt::Write>(&self, f: &mut fmt::Formatter<W>) -> fmt::Result {
        match self {
            Difference::Answer => f.write_str("answer"),
            Difference::Place(place) => write!(f, "place {place}"),
        }
    }
}

// The word of a kind: 0 to 3 for sgemm, dgemm, cgemm and zgemm. No `From<Kind> for u64`: both types are foreign to this crate.
pub fn word_of(kind: Kind) -> u64
    ensures { result ≡ word_of kind }
{
    match kind {
        Kind::F32 => 0,
        Kind::F64 => 1,
        Kind::C32 => 2,
        Kind::C64 => 3,
    }
}

// The kind of a call, where its first word is that of one. No `TryFrom`: a slice of words and `Kind` are both foreign to this crate.
pub fn kind_of(call: &[u64]) -> Option<Kind>
    ensures { MatchOption result (4 ≤ get_or call.now 0 0) (λ kind. get_or call.now 0 0 ≡ word_of kind) }
{
    match word_at(call, KIND) {
        0 => Some(Kind::F32),
        1 => Some(Kind::F64),
        2 => Some(Kind::C32),
        3 => Some(Kind::C64),
        _ => None,
    }
}

// The operand whose base stands at an index, with its strides behind it.
fn operand_at(call: &[u64], base: usize) -> Operand
    requires { base ≤ 10 }
    ensures { result ≡ operand_at call.now base }
{
    Operand {
        base: word_at(call, base) as usize,
        rs: signed(word_at(call, base + 1)),
        cs: signed(word_at(call, base + 2)),
    }
}

// The sizes of a call and where its matrices lie.
pub fn matrices_of(call: &[u64]) -> Matrices
    ensures { result ≡ matrices_of call.now }
{
    Matrices {
        m: word_at(call, 1) as usize,
        k: word_at(call, 2) as usize,
        n: word_at(call, 3) as usize,
        a: operand_at(call, 4),
        b: operand_at(call, 7),
        c: operand_at(call, 10),
    }
}

// The length at an index, cut to the longest that a call may have.
pub fn length_at(call: &[u64], i: usize) -> usize
    ensures { result ≡ length_at call.now i }
{
    word_at(call, i).min(LONGEST) as usize
}

// Is none of the four lengths longer than a call may have?
fn is_short(call: &[u64]) -> bool
    ensures { Tells result (Short call.now) }
{
    word_at(call, A_LENGTH) <= LONGEST
        && word_at(call, B_LENGTH) <= LONGEST
        && word_at(call, C_LENGTH) <= LONGEST
        && word_at(call, PACK_LENGTH) <= LONGEST
}

// Is each word a pattern of an f32?
fn are_patterns(words: &[u64]) -> bool
    ensures { Tells result (Patterns words.now) }
{
    words.iter().all(|&word| word <= LARGEST)
}

// Are the words from alpha on, the answer's among them, patterns of the call's kind?
fn holds_floats(kind: Kind, call: &[u64]) -> bool
    requires { get_or call.now 0 0 ≡ word_of kind }
    ensures { Tells result (HoldsFloats call.now) }
{
    match kind {
        Kind::F32 | Kind::C32 => are_patterns(after(call, ALPHA)),
        Kind::F64 | Kind::C64 => true,
    }
}

// How many words the first call takes, where they are all there and are one.
pub fn first_call(words: &[u64]) -> Option<usize>
    ensures { MatchOption result (IsCall words.now → ⊥) (λ size. IsCall words.now × (size ≡ size_of words.now)) }
{
    let kind = kind_of(words)?;
    if !is_short(words) {
        return None;
    }
    let c = length_at(words, C_LENGTH);
    let size = FLOATS + length_at(words, A_LENGTH) + length_at(words, B_LENGTH) + c + 1 + c;
    let call = words.get(..size)?;
    if holds_floats(kind, call) {
        Some(size)
    } else {
        None
    }
}

// The calls that words begin with, one behind the other: of each, the words from it on.
#[derive(Drop)]
pub struct Calls<'a> {
    pub rest: &'a [u64],
}

impl<'a> Iterator for Calls<'a> {
    type Item = &'a [u64];

    ghost next_gives = { PassesCall (λ s. s.rest.now) };

    ghost remaining = { λ s. at_most (length s.rest.now) };

    fn next(&mut self) -> Option<&'a [u64]> {
        let call = self.rest;
        self.rest = after(call, first_call(call)?);
        Some(call)
    }
}
