// How the programs read and write: a file's bytes; floats by their bits or with two decimals; what a refusal means.
#![tactic(auto)]

ghost use Rattle.std.specs.Prelude.{ℕ, ◌<◌, ◌≤◌, IfOk, OnErr, length, take};
ghost use Rattle.std.specs.Io.KnownBytes.{Consumes, IsAtEnd};

use refusal::Refusal;
use std::io::Read;
use std::num::saturating_f64_to_u64;
use std::{fmt, io};

// Reads until the buffer is full or the file ends, and answers how many bytes it has put at the buffer's start. Where a read fails, what
// the file gave before stands there too.
pub fn read_full<R: Read>(file: &mut R, buffer: &mut [u8]) -> io::Result<usize>
    ensures within { IfOk result (λ n. n ≤ length buffer.new) }
    ensures bytes { IfOk result (λ n. Consumes (R.remaining file.old) (R.remaining file.new) (take n buffer.new)) }
    ensures end { IfOk result (λ n. n < length buffer.new → IsAtEnd (R.remaining file.new)) }
    ensures failed { OnErr result ((n : ℕ) × (n ≤ length buffer.new)
        × Consumes (R.remaining file.old) (R.remaining file.new) (take n buffer.new)) }
{
    let mut done = 0;
    // The step is what a read gives: `read_exact` answers no count, and says nothing of the bytes before a failure.
    while done < buffer.len() {
        let got = file.read(&mut buffer[done..])?;
        if got == 0 {
            return Ok(done);
        }
        done += got;
    }
    Ok(done)
}

// A float by its bits, or nan. Each real has an impl of its own: a trait of bits and digits, met twice, would be longer than both.
#[derive(Clone, Copy)]
pub struct Bits<F>(pub F);

impl fmt::Display for Bits<f32> {
    fn fmt<W: fmt::Write>(&self, f: &mut fmt::Formatter<W>) -> fmt::Result {
        if self.0.is_nan() {
            return f.write_str("nan");
        }
        write!(f, "{:08x}", self.0.to_bits())
    }
}

impl fmt::Display for Bits<f64> {
    fn fmt<W: fmt::Write>(&self, f: &mut fmt::Formatter<W>) -> fmt::Result {
        if self.0.is_nan() {
            return f.write_str("nan");
        }
        write!(f, "{:016x}", self.0.to_bits())
    }
}

// x in hundredths, rounded half up; 0 for what is too large, below 0 or NaN.
fn in_hundredths(x: f64) -> u64 {
    let y = x * 100.0 + 0.5;
    if y < 18446744073709551616.0 {
        return saturating_f64_to_u64(y);
    }
    0
}

// A float with two decimals; a gap where it is NaN.
#[derive(Clone, Copy)]
pub struct Hundredths(pub f64);

impl fmt::Display for Hundredths {
    fn fmt<W: fmt::Write>(&self, f: &mut fmt::Formatter<W>) -> fmt::Result {
        if self.0.is_nan() {
            return f.write_str("gap");
        }
        if self.0 < 0.0 {
            f.write_str("-")?;
        }
        let n = in_hundredths(self.0.abs());
        write!(f, "{}.{:02}", n / 100, n % 100)
    }
}

// A refusal by its number, and what it means.
#[derive(Clone, Copy)]
pub struct Refused(pub Refusal);

impl fmt::Display for Refused {
    fn fmt<W: fmt::Write>(&self, f: &mut fmt::Formatter<W>) -> fmt::Result {
        write!(f, "refused with {}: {}", self.0.number(), self.0)
    }
}
