// Bytes as numbers, the lowest first; as words, eight bytes each; a word by its index, the words behind some, a word as a signed number.
#![tactic(auto)]

ghost use Rattle.std.specs.Prelude.{◌≡◌, ◌≤◌, ◌<◌, ◌^◌, length, get_or, drop};
ghost use Rattle.std.specs.Int.{w64};
ghost use Rattle.std.proofs.Common.{to_z};
ghost use Rattle.rules.specs.Lists.{tab};
ghost use Rattle.words.specs.Words.{number_at, word_of};

// The byte at an index, 0 past the end.
fn byte_at(bytes: &[u8], i: usize) -> u64
    ensures { (result ≡ get_or bytes.now i 0) × (result < 256) }
{
    u64::from(bytes.get(i).copied().unwrap_or(0))
}

// The number that `width` bytes make from an index on, read from the highest down.
#[tactic(auto, using(crate::proofs::ByteLaws::none_read, crate::proofs::ByteLaws::room_for_byte))]
pub fn number_at(bytes: &[u8], width: usize, first: usize) -> u64
    requires { (width ≤ 8) × (first < 2 ^ 63) }
    ensures { (result ≡ number_at width bytes.now first) × (result < 256 ^ width) }
{
    let mut number = 0;
    for i in (0..width).rev() {
        let byte = byte_at(bytes, first + i);
        number = byte + 256 * number;
    }
    number
}

// Fills words from bytes.
pub fn from_bytes(bytes: &[u8], words: &mut [u64])
    ensures { words.new ≡ tab (length words.old) (word_of bytes.now) }
{
    for (i, word) in words.iter_mut().enumerate() {
        *word = number_at(bytes, 8, 8 * i);
    }
}

// The word at an index, 0 past the end.
pub fn word_at(words: &[u64], i: usize) -> u64
    ensures { result ≡ get_or words.now i 0 }
{
    words.get(i).copied().unwrap_or(0)
}

// The words after the first n, none where there are fewer.
pub fn after(words: &[u64], n: usize) -> &[u64]
    ensures { result.now ≡ drop n words.now }
{
    words.get(n..).unwrap_or(&[])
}

// The whole number that a word stands for in two's complement. No `From`: both types are std's.
pub fn signed(word: u64) -> isize
    ensures { result ≡ to_z w64 word }
{
    word.cast_signed() as isize
}
