// The numbers that a word stands for.
ghost use Rattle.std.specs.Prelude.{◌≡◌};
ghost use Rattle.std.specs.Option.{ok_or};
ghost use Rattle.script.specs.declared.call.LineFault.TheVariants.{NotANumber};
ghost use Rattle.script.specs.Words.{pushed, number_of, short_of};

use crate::call::LineFault;

// One digit more, while the number stays below 2^64.
fn push_digit(n: u64, b: u8) -> Option<u64>
    ensures { result ≡ pushed n b }
{
    let digit = char::from(b).to_digit(10)?;
    n.checked_mul(10)?.checked_add(u64::from(digit))
}

// A number in base ten.
pub(crate) fn number_of(word: &[u8]) -> Result<u64, LineFault>
    ensures { result ≡ ok_or (number_of word.now) NotANumber }
{
    if word.is_empty() {
        return Err(LineFault::NotANumber);
    }
    word.iter()
        .try_fold(0, |n, b| push_digit(n, *b))
        .ok_or(LineFault::NotANumber)
}

// A number of at most 16 bits.
pub(crate) fn short_of(word: &[u8]) -> Result<u16, LineFault>
    ensures { result ≡ ok_or (short_of word.now) NotANumber }
{
    u16::try_from(number_of(word)?).map_err(|_| LineFault::NotANumber)
}
