// Words that stand for values.
ghost use Rattle.std.specs.Prelude.{◌≡◌, ◌-◌, ◌^◌, ◌≤◌, min, pos, MatchOption, MatchResult};
ghost use Rattle.desk.specs.Digits.{Digits, said};

use crate::fault::{Fault, Mistake};
use layouts::RowNo;
use std::alloc::Global;

// Not `FromStr`: a number of any length is taken, and `u16` and `u8` read themselves otherwise.
pub trait FromWord: Drop {
    fn from_word(word: &str) -> Result<Self, Mistake>
    where
        Self: Sized;
}

pub fn values<T: FromWord>(heap: Global, words: &[&str]) -> Result<Vec<T>, Fault> {
    words
        .iter()
        .map(|word| T::from_word(word).map_err(Fault::from))
        .try_collect(heap)
}

// What decimal digits say, and u64::MAX where that is more.
fn digits(bytes: &[u8]) -> Option<u64>
    ensures { MatchOption result (Digits bytes.now → ⊥) (λ n. Digits bytes.now × (n ≡ min (said bytes.now) (2 ^ 64 - 1))) }
{
    if bytes.is_empty() {
        return None;
    }
    let mut value: u64 = 0;
    for byte in bytes {
        if !byte.is_ascii_digit() {
            return None;
        }
        value = value
            .saturating_mul(10)
            .saturating_add(u64::from(*byte - b'0'));
    }
    Some(value)
}

// The same as an i64, and i64::MAX where that is more.
fn size(bytes: &[u8]) -> Option<i64>
    ensures { MatchOption result (Digits bytes.now → ⊥) (λ z. Digits bytes.now × (z ≡ pos (min (said bytes.now) (2 ^ 63 - 1)))) }
{
    Some(i64::try_from(digits(bytes)?).unwrap_or(i64::MAX))
}

// A number with or without a minus sign.
pub fn number(word: &str) -> Option<i64> {
    match word.strip_prefix('-') {
        Some(rest) => Some(-size(rest.as_bytes())?),
        None => size(word.as_bytes()),
    }
}

// A count has no sign, and one above 65,535 is taken as 65,535.
impl FromWord for u16 {
    fn from_word(word: &str) -> Result<u16, Mistake>
        ensures { MatchResult result (λ n. Digits word.now × (n ≡ min (said word.now) 65535)) (λ _. Digits word.now → ⊥) }
    {
        let value = digits(word.as_bytes()).ok_or(Mistake::Count)?;
        Ok(u16::try_from(value).unwrap_or(u16::MAX))
    }
}

impl FromWord for RowNo {
    fn from_word(word: &str) -> Result<RowNo, Mistake>
        ensures { MatchResult result (λ row. Digits word.now × (row.0 ≡ min (said word.now) 65535)) (λ _. Digits word.now → ⊥) }
    {
        Ok(RowNo(u16::from_word(word)?))
    }
}

// A byte is a grey.
impl FromWord for u8 {
    fn from_word(word: &str) -> Result<u8, Mistake>
        ensures { MatchResult result (λ n. Digits word.now × (n ≡ said word.now)) (λ _. Digits word.now → 256 ≤ said word.now) }
    {
        let value = digits(word.as_bytes()).ok_or(Mistake::Grey)?;
        u8::try_from(value).map_err(|_| Mistake::Grey)
    }
}

// The cells of words, one behind the other.
pub fn joined_cells(heap: Global, words: &[&str]) -> Result<Vec<u8>, Fault> {
    let mut joined = Vec::new(heap);
    for word in words {
        joined.extend_from_slice(&cells(heap, word)?)?;
    }
    Ok(joined)
}

// The cells of a word, a digit each.
pub fn cells(heap: Global, word: &str) -> Result<Vec<u8>, Fault> {
    word.bytes()
        .map(|byte| match byte {
            b'0'..=b'9' => Ok(byte - b'0'),
            _ => Err(Fault::from(Mistake::Word)),
        })
        .try_collect(heap)
}

// The bytes that pairs of hexadecimal digits say. All digits are looked at first, so that a word with anything else takes no
// memory, however long it is.
pub fn hex_bytes(heap: Global, word: &str) -> Result<Vec<u8>, Fault> {
    if !word.bytes().all(|byte| byte.is_ascii_hexdigit()) {
        return Err(Fault::from(Mistake::Hex));
    }
    Ok(hex::decode(heap, word)?)
}
