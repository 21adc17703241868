// The bytes that a word stands for.
ghost use Rattle.std.specs.Prelude.{◌≡◌, ◌<◌, IfSome};
ghost use Rattle.script.specs.Words.{hex_digit, hex_byte, hex_of, bytes_of};
ghost use Rattle.script.specs.Parsed.{BytesOr};

use crate::call::LineFault;
use std::alloc::Global;

// A digit of base sixteen, in letters of either case.
fn hex_digit(b: u8) -> Option<u8>
    ensures value { result ≡ hex_digit b }
    ensures below { IfSome result (λ d. d < 16) }
{
    // No `to_digit`, which tests the letters up to `z` first: reading long `raw` lines took a quarter more time with it.
    match b {
        b'0'..=b'9' => Some(b - b'0'),
        b'a'..=b'f' => Some(b - b'a' + 10),
        b'A'..=b'F' => Some(b - b'A' + 10),
        _ => None,
    }
}

fn hex_byte(high: u8, low: u8) -> Option<u8>
    ensures { result ≡ hex_byte high low }
{
    Some(hex_digit(high)? * 16 + hex_digit(low)?)
}

// Bytes in base sixteen, two digits each.
pub(crate) fn hex_of(heap: Global, word: &[u8]) -> Result<Vec<u8>, LineFault>
    ensures { BytesOr result (hex_of word.now) }
{
    let (pairs, odd) = word.as_chunks::<2>();
    if !odd.is_empty() {
        return Err(LineFault::NotBytes);
    }
    let mut bytes = Vec::new(heap);
    for [high, low] in pairs {
        bytes.push(hex_byte(*high, *low).ok_or(LineFault::NotBytes)?)?;
    }
    Ok(bytes)
}

// The bytes of a word: those in base sixteen between `x'` and a last quote, else its own.
pub(crate) fn bytes_of(heap: Global, word: &[u8]) -> Result<Vec<u8>, LineFault>
    ensures { BytesOr result (bytes_of word.now) }
{
    let Some(quoted) = word.strip_prefix(b"x'") else {
        return Ok(Vec::from_slice(heap, word)?);
    };
    let digits = quoted.strip_suffix(b"'").ok_or(LineFault::NotBytes)?;
    hex_of(heap, digits)
}
