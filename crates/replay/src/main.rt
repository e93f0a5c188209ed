// Replays the calls of the file sample.words through our entry points, and says which disagree with what the Rust crate did.
#![tactic(auto)]

ghost use Rattle.std.specs.Prelude.{◌≡◌};
ghost use Rattle.layout.specs.Operands.{Tells};
ghost use Rattle.replay.specs.File.{ContentsAre, Agreeing, Counted};

use element::kind::Kind;
use replayed::replay;
use sample::calls::{Calls, Difference, KIND, word_of};
use std::fs::File;
use std::io::Read;
use std::{fmt, io};
use words::{from_bytes, word_at};

const PATH: &str = "sample.words";

// The number of the call that is cut short or malformed.
#[derive(Clone, Copy)]
struct Malformed {
    number: u64,
}

impl fmt::Display for Malformed {
    fn fmt<W: fmt::Write>(&self, f: &mut fmt::Formatter<W>) -> fmt::Result {
        write!(f, "call {} is cut short or malformed", self.number)
    }
}

// How many calls the words hold.
#[tactic(auto, using(crate::specs::FileLaws::none_passed))]
fn count_of(words: &[u64]) -> Result<u64, Malformed>
    ensures { ContentsAre words.now result }
{
    let mut calls = Calls { rest: words };
    let mut number = 0;
    // After a `for` over `calls.by_ref()` a proof knows nothing of what is left.
    while calls.next().is_some() {
        number += 1;
    }
    if calls.rest.is_empty() {
        return Ok(number);
    }
    Err(Malformed { number })
}

// Does the call agree? Where it does not, says what disagrees; a line that cannot be written is lost, and the call disagrees all the same.
fn report(rt: &impl Print, number: usize, found: Result<(), Difference>) -> bool
    ensures { Tells result (found ≡ Ok tt) }
{
    let Err(difference) = found else {
        return true;
    };
    let _written = println!(rt; "call {number} disagrees: {difference}");
    false
}

// Is a call of the kind, and does it agree? Where it disagrees, it is reported under its number.
fn agrees(rt: &impl Print, call: &[u64], kind: Kind, number: usize) -> bool
    ensures { Tells result (Agreeing kind call.now) }
{
    word_at(call, KIND) == word_of(kind) && report(rt, number, replay(kind, call))
}

// Replays the calls of a kind, and answers how many agree.
#[tactic(auto, using(crate::specs::FileLaws::none_tallied))]
fn agreeing(rt: &impl Print, words: &[u64], kind: Kind) -> u64
    ensures { Counted kind words.now result }
{
    let mut agreed = 0;
    for (number, call) in (Calls { rest: words }).enumerate() {
        if agrees(rt, call, kind, number) {
            agreed += 1;
        }
    }
    agreed
}

fn summarise(rt: &impl Print, words: &[u64]) -> io::Result<()> {
    match count_of(words) {
        Ok(calls) => {
            for (kind, name) in [
                (Kind::F32, "sgemm"),
                (Kind::F64, "dgemm"),
                (Kind::C32, "cgemm"),
                (Kind::C64, "zgemm"),
            ] {
                let agreed = agreeing(rt, words, kind);
                println!(rt; "{name}: {agreed} calls agree")?;
            }
            println!(rt; "{calls} calls in all")
        }
        Err(malformed) => println!(rt; "{malformed}"),
    }
}

fn replay_words(rt: &impl Print, words: &[u64], bytes: usize) -> io::Result<()> {
    if bytes % 8 != 0 {
        return println!(rt; "the file is cut short within a word");
    }
    let count = bytes / 8;
    if count >= words.len() {
        return println!(rt; "the file is too long");
    }
    summarise(rt, &words[..count])
}

// Reads a file into words, 512 at a time, and answers how many bytes it has, or how many were read where it is longer: the last where
// the number of words is a multiple of 512, as that of `replay_file` is.
fn read_words(file: &mut impl Read, words: &mut [u64]) -> io::Result<usize> {
    let mut bytes = [0u8; 4096];
    for (i, block) in words.chunks_exact_mut(512).enumerate() {
        let got = show::read_full(file, &mut bytes)?;
        from_bytes(&bytes, block);
        if got < bytes.len() {
            return Ok(4096 * i + got);
        }
    }
    Ok(8 * words.len())
}

// There is no heap: a file's words stand in an array, whose first ones they are.
fn replay_file(rt: &impl Print, file: &mut impl Read) -> io::Result<()> {
    let mut words = [0u64; 32768];
    let bytes = read_words(file, &mut words)?;
    replay_words(rt, &words, bytes)
}

fn main(rt: HostRuntime) -> io::Result<()> {
    match File::open(&rt, PATH) {
        Ok(mut file) => replay_file(&rt, &mut file),
        Err(e) => eprintln!(rt; "{PATH}: {e}"),
    }
}
