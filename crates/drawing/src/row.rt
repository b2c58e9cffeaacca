//! A line that holds a place: NAME SIDE WEIGHT: NAME NAME ..
ghost use Rattle.std.specs.Prelude.{◌≡◌, ◌<◌, ◌^◌, length};
ghost use Rattle.std.specs.Option.{option_map};
ghost use Rattle.endless.specs.Sides.{number};
ghost use Rattle.drawing.specs.Form.{digits, side_of, weight_of, pieces, names_of, some_names};
ghost use Rattle.drawing.specs.Lexed.{is_quoted, meant, left};
ghost use Rattle.drawing.specs.Reading.{bared};
ghost use Rattle.drawing.specs.Rows.{lengths, ReadRow};

use crate::kind::Kind;
use crate::line;
use crate::refusal::Fault;
use crate::token::{Spelt, Token, Tokens};
use endless::side::Side;

// A number of its own, as this crate reads texts and takes no more from `endless` than a `Side`.
/// Weights are below this.
const WEIGHTS: u32 = 256;

/// A place as its line has it; `moves` is what stands behind the colon, with `count` names.
#[derive(Clone, Copy)]
pub(crate) struct Row<'a> {
    pub(crate) name: Spelt<'a>,
    pub(crate) side: Side,
    pub(crate) weight: u32,
    pub(crate) count: usize,
    pub(crate) moves: Tokens<'a>,
}

pub(crate) fn side_of(word: Spelt<'_>) -> Option<Side>
    ensures { option_map number result ≡ side_of (is_quoted word.entry) (meant word.entry) }
{
    // No `parse`: tried, and that its words are those of the form was not found.
    match word {
        Spelt::Bare("0") => Some(Side::Even),
        Spelt::Bare("1") => Some(Side::Odd),
        Spelt::Bare(_) | Spelt::Quoted(_) => None,
    }
}

/// The number in digits, if it is a weight.
fn number(bytes: &[u8]) -> Option<u32>
    ensures { result ≡ digits 0 bytes.now }
{
    // No `parse`: it would take a `+` in front, which is no part of a weight, and the definition (`digits`) goes digit by digit.
    let mut n = 0;
    for b in bytes {
        if !b.is_ascii_digit() {
            return None;
        }
        n = 10 * n + u32::from(*b - b'0');
        if n >= WEIGHTS {
            return None;
        }
    }
    Some(n)
}

fn weight(word: Spelt<'_>) -> Option<u32>
    ensures { result ≡ weight_of (is_quoted word.entry) (meant word.entry) }
{
    match word {
        Spelt::Bare(raw) => number(raw.as_bytes()),
        Spelt::Quoted(_) => None,
    }
}

/// How many moves the rest of a line names.
fn count_moves(moves: Tokens<'_>, kind: Kind) -> Result<usize, Fault>
    requires { length (left moves) < 2 ^ 63 }
    ensures { result ≡ lengths (some_names kind (names_of (left moves.entry))) }
{
    // A loop: tried with `try_fold`, where that the count fits and what is answered stay
    // to be proved by hand, which the loop's invariant answers.
    let mut count = 0;
    for token in moves {
        match token? {
            Token::Word(_) => count += 1,
            Token::Colon => return Err(Fault::Form),
        }
    }
    if count == 0 && kind == Kind::Endless {
        return Err(Fault::NoMoves);
    }
    Ok(count)
}

/// The place that the line holds in a drawing of this kind, if it holds one.
fn read_row(line: &str, kind: Kind) -> Result<Option<Row<'_>>, Fault>
    ensures { ReadRow kind (pieces line.now) result }
{
    let mut tokens = Tokens::of(line);
    let Some(first) = tokens.next() else {
        return Ok(None);
    };
    let Token::Word(name) = first? else {
        return Err(Fault::Form);
    };
    let side = side_of(tokens.word()?).ok_or(Fault::Side)?;
    let weight = weight(tokens.word()?).ok_or(Fault::Weight)?;
    tokens.colon()?;
    let count = count_moves(tokens, kind)?;
    Ok(Some(Row {
        name,
        side,
        weight,
        count,
        moves: tokens,
    }))
}

/// The same of a line that may end in a carriage return.
pub(crate) fn read_line(line: &str, kind: Kind) -> Result<Option<Row<'_>>, Fault>
    ensures { ReadRow kind (pieces (bared line.now)) result }
{
    read_row(line::strip_return(line), kind)
}
