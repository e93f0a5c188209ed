// Every way to be refused, by the numbers of the C interface. No counterpart in the Rust, which trusts its caller.
#![tactic(auto)]

ghost use Rattle.std.specs.Prelude.{◌≡◌};
ghost use Rattle.refusal.specs.Numbers.{number_of, answer_number};

use std::error::Error;
use std::fmt;

#[derive(Clone, Copy, Debug, PartialEq, Eq)]
pub enum Refusal {
    TooLarge,
    TooFar,
    OutsideC,
    CollidesC,
    OutsideA,
    OutsideB,
    PackShort,
    FileShort,
    WrongMark,
    UnknownVersion,
    WrongKind,
    WrongLength,
    NoRoom,
    OutsidePanel,
}

impl Refusal {
    // By name, no `From`: the `u64::from` of a refusal would not say that it is the number of the C interface.
    pub fn number(self) -> u64
        ensures { result ≡ number_of self }
    {
        match self {
            Refusal::TooLarge => 1,
            Refusal::TooFar => 2,
            Refusal::OutsideC => 3,
            Refusal::CollidesC => 4,
            Refusal::OutsideA => 5,
            Refusal::OutsideB => 6,
            Refusal::PackShort => 7,
            Refusal::FileShort => 21,
            Refusal::WrongMark => 22,
            Refusal::UnknownVersion => 23,
            Refusal::WrongKind => 24,
            Refusal::WrongLength => 25,
            Refusal::NoRoom => 26,
            Refusal::OutsidePanel => 30,
        }
    }
}

// What a refusal means, in the words of the C header.
impl fmt::Display for Refusal {
    fn fmt<W: fmt::Write>(&self, f: &mut fmt::Formatter<W>) -> fmt::Result {
        f.write_str(match self {
            Refusal::TooLarge => "m, k or n is above 65,536",
            Refusal::TooFar => {
                "a stride of A, B or C along an axis of two or more entries is above 2,147,483,648 in magnitude"
            }
            Refusal::OutsideC => "a place of C is outside C's slice",
            Refusal::CollidesC => "two different places of C are the same element",
            Refusal::OutsideA => "a place of A is outside A's slice",
            Refusal::OutsideB => "a place of B is outside B's slice",
            Refusal::PackShort => "the pack buffer is shorter than the need",
            Refusal::FileShort => "the file has fewer than ten bytes",
            Refusal::WrongMark => "the file does not begin with the mark IVP",
            Refusal::UnknownVersion => "the file's version is not known",
            Refusal::WrongKind => "the file's kind is not the one asked for",
            Refusal::WrongLength => "the file's length is not what its rows and columns say",
            Refusal::NoRoom => "the destination is shorter than the panel",
            Refusal::OutsidePanel => "the place is outside the panel's shape or beyond its numbers",
        })
    }
}

impl Error for Refusal {}

// A call's answer as a number: 0 for done, or the refusal's. No `From`: both types, a number and a Result, are std's.
pub fn answer_number(answer: Result<(), Refusal>) -> u64
    ensures { result ≡ answer_number answer }
{
    match answer {
        Ok(()) => 0,
        Err(x) => x.number(),
    }
}
