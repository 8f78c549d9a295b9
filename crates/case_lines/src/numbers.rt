ghost use Rattle.std.specs.Prelude.{◌≡◌, ◌≤◌, IfOk};
ghost use Rattle.case_lines.specs.Words.{texts, number_of, numbers_of, digit_of, byte_of, bytes_of};
ghost use Rattle.case_lines.specs.Outcomes.{Gives};

use crate::fault::{Fault, ReadError};
use std::alloc::Global;

// The largest value of a field that names no other.
pub(crate) const LARGEST: u32 = u32::MAX;

// A decimal number up to the largest value of its field.
pub(crate) fn number(word: &[u8], largest: u32) -> Result<u32, ReadError>
    ensures number { Gives (λ n. n) result (number_of largest word.now) }
    ensures small { IfOk result (λ n. n ≤ largest) }
{
    let mut value = 0;
    for byte in word {
        if !byte.is_ascii_digit() {
            return Err(ReadError::Fault(Fault::NotANumber));
        }
        let next = u64::from(value) * 10 + u64::from(*byte - b'0');
        if next > u64::from(largest) {
            return Err(ReadError::Fault(Fault::TooLarge));
        }
        value = next as u32;
    }
    Ok(value)
}

// Decimal numbers, as many as there are words.
pub(crate) fn numbers(alloc: Global, words: &[&[u8]]) -> Result<Vec<u32>, ReadError>
    ensures { Gives (λ v. v.items) result (numbers_of (texts words.now)) }
{
    let mut numbers = Vec::new(alloc);
    for word in words {
        numbers.push(number(word, LARGEST)?)?;
    }
    Ok(numbers)
}

// The value of a hexadecimal digit, small or capital.
fn digit(byte: u8) -> Result<u8, ReadError>
    ensures { Gives (λ n. n) result (digit_of byte) }
{
    match byte {
        b'0'..=b'9' => Ok(byte - b'0'),
        b'a'..=b'f' => Ok(byte - b'a' + 10),
        b'A'..=b'F' => Ok(byte - b'A' + 10),
        _ => Err(ReadError::Fault(Fault::NotAByte)),
    }
}

// A byte as one or two hexadecimal digits.
fn byte(word: &[u8]) -> Result<u8, ReadError>
    ensures { Gives (λ n. n) result (byte_of word.now) }
{
    match word {
        [low] => digit(*low),
        [high, low] => Ok(digit(*high)? * 16 + digit(*low)?),
        _ => Err(ReadError::Fault(Fault::NotAByte)),
    }
}

// Bytes, as many as there are words.
pub(crate) fn bytes(alloc: Global, words: &[&[u8]]) -> Result<Vec<u8>, ReadError>
    ensures { Gives (λ v. v.items) result (bytes_of (texts words.now)) }
{
    let mut bytes = Vec::new(alloc);
    for word in words {
        bytes.push(byte(word)?)?;
    }
    Ok(bytes)
}
