//! Blanks, words and numbers in front of a text. Each function gives what it reads and what is left, as the definitions do.
ghost use Rattle.std.specs.Prelude.{◌≡◌};
ghost use Rattle.std.specs.Option.{option_map};
ghost use Rattle.pgsolver.specs.Form.{blank, skip, behind, digits, numeral, number};
ghost use Rattle.pgsolver.specs.Read.{Read, ref_now};

use crate::refusal::{Fault, Slip};

/// Blanks, tabs and line ends separate.
fn is_blank(b: u8) -> bool
    ensures { result ≡ blank b }
{
    matches!(b, b' ' | b'\n' | b'\r' | b'\t')
}

/// The text behind the blanks in front of it.
pub(crate) fn skip(text: &[u8]) -> &[u8]
    ensures { result.now ≡ skip text.now }
{
    let blanks = text.iter().take_while(|b| is_blank(**b)).count();
    &text[blanks..]
}

/// What stands behind a word, if it comes next.
pub(crate) fn behind<'a>(word: &[u8], text: &'a [u8]) -> Option<&'a [u8]>
    ensures { option_map ref_now result ≡ behind word.now text.now }
{
    skip(text).strip_prefix(word)
}

/// The number of the digits in front.
pub(crate) fn digits(text: &[u8]) -> Result<(u32, &[u8]), Slip>
    ensures { Read (digits 0 text.now) result }
{
    // No `parse`: it does not tell at which digit the number becomes too large.
    let mut value = 0u32;
    for (n, b) in text.iter().enumerate() {
        if !b.is_ascii_digit() {
            return Ok((value, &text[n..]));
        }
        let Ok(more) = u32::try_from(10 * u64::from(value) + u64::from(*b - b'0')) else {
            return Err(Slip::at(Fault::Large, &text[n..]));
        };
        value = more;
    }
    Ok((value, &text[text.len()..]))
}

/// The number that comes next; `missing` is the fault where there is none.
pub(crate) fn number(missing: Fault, text: &[u8]) -> Result<(u32, &[u8]), Slip>
    ensures { Read (number missing text.now) result }
{
    let rest = skip(text);
    match rest.first() {
        Some(b) if b.is_ascii_digit() => digits(rest),
        _ => Err(Slip::at(missing, rest)),
    }
}
