// A recorded call, run again through our entry point and compared with what the Rust crate did.
#![tactic(auto)]

ghost use Rattle.std.specs.Prelude.{◌≡◌, ◌*◌, ◌^◌, ◌<◌, length};
ghost use Rattle.std.specs.Mem.{type_size};
ghost use Rattle.replayed.specs.Replayed.{scalar_at, lengths_of, pack_of, Ran, Compared, Replayed};

use element::complex::{Complex32, Complex64};
use element::elements::Element;
use element::kind::Kind;
use element::real::Real;
use floats::patterns::Patterns;
use floats::{fill, first_difference};
use gemm::gemm::gemm;
use kernel::kernels::Kernel;
use packing::packs::Packs;
use refusal::{Refusal, answer_number};
use sample::calls::{
    A_LENGTH, ALPHA, B_LENGTH, BETA, C_LENGTH, Difference, FLOATS, PACK_LENGTH, length_at,
    matrices_of,
};
use words::{after, word_at};

// The number whose parts stand at an index and behind it; a real one is the first of them.
fn scalar_at<T: Element>(call: &[u64], at: usize) -> T
where
    T::Real: Patterns,
    requires { 2 * type_size T.Real.row < 2 ^ 63 }
    ensures { T.held.is result ≡ scalar_at T.kind call.now at }
{
    let mut parts = [T::Real::zero(); 2];
    fill(after(call, at), &mut parts);
    T::read(&parts, 0)
}

// Our answer to a call.
fn answer<T: Kernel + Packs>(
    call: &[u64],
    a: &[T::Real],
    b: &[T::Real],
    c: &mut [T::Real],
    pack: &mut [T::Real],
) -> Result<(), Refusal>
where
    T::Real: Patterns,
    requires { 2 * type_size T.Real.row < 2 ^ 63 }
    ensures { Ran T.kind call.now (T.Real.floats a.now) (T.Real.floats b.now)
        (T.Real.floats c.old) (T.Real.floats c.new) (T.Real.floats pack.old) (T.Real.floats pack.new) result }
{
    let q = matrices_of(call);
    let alpha = scalar_at::<T>(call, ALPHA);
    let beta = scalar_at::<T>(call, BETA);
    gemm(q.m, q.k, q.n, alpha, a, q.a, b, q.b, beta, c, q.c, pack)
}

// How the number of our answer and C's slice after the call compare with what is recorded.
fn compared<R: Patterns>(number: u64, c: &[R], recorded: &[u64]) -> Result<(), Difference>
    ensures { Compared R.format recorded.now number (R.floats c.now) result }
{
    let expected = word_at(recorded, 0);
    if number != expected {
        return Err(Difference::Answer);
    }
    let place = first_difference(c, after(recorded, 1));
    if place < c.len() {
        return Err(Difference::Place(place));
    }
    Ok(())
}

// What a call comes to, with room for its slices.
fn replay_in<T: Kernel + Packs>(
    call: &[u64],
    a: &mut [T::Real],
    b: &mut [T::Real],
    c: &mut [T::Real],
    pack: &mut [T::Real],
) -> Result<(), Difference>
where
    T::Real: Patterns,
    requires { 2 * type_size T.Real.row < 2 ^ 63 }
    ensures { Replayed T.kind call.now (length pack.old)
        (record { a = length a.old; b = length b.old; c = length c.old }) result }
{
    let b_words = fill(after(call, FLOATS), a);
    let c_words = fill(b_words, b);
    let recorded = fill(c_words, c);
    let r = answer::<T>(call, a, b, c, pack);
    compared(answer_number(r), c, recorded)
}

// What a call comes to, as one of the kind of T. There is no heap: an array is as long as a call's slices may be.
fn replay_as<T: Kernel + Packs>(call: &[u64]) -> Result<(), Difference>
where
    T::Real: Patterns,
    requires { 4096 * type_size T.Real.row < 2 ^ 63 }
    ensures { Replayed T.kind call.now (pack_of call.now) (lengths_of call.now) result }
{
    let mut a = [T::Real::zero(); 4096];
    let mut b = [T::Real::zero(); 4096];
    let mut c = [T::Real::zero(); 4096];
    let mut pack = [T::Real::zero(); 4096];
    let la = length_at(call, A_LENGTH);
    let lb = length_at(call, B_LENGTH);
    let lc = length_at(call, C_LENGTH);
    let lp = length_at(call, PACK_LENGTH);
    replay_in::<T>(
        call,
        &mut a[..la],
        &mut b[..lb],
        &mut c[..lc],
        &mut pack[..lp],
    )
}

// What a call comes to, as one of a kind.
pub fn replay(kind: Kind, call: &[u64]) -> Result<(), Difference>
    ensures { Replayed kind call.now (pack_of call.now) (lengths_of call.now) result }
{
    match kind {
        Kind::F32 => replay_as::<f32>(call),
        Kind::F64 => replay_as::<f64>(call),
        Kind::C32 => replay_as::<Complex32>(call),
        Kind::C64 => replay_as::<Complex64>(call),
    }
}
