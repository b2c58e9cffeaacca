//! A line of an answer: NAME SIDE MOVE, with a bare `-` where there is no move.
ghost use Rattle.std.specs.Prelude.{◌≡◌};
ghost use Rattle.std.specs.Option.{option_map};
ghost use Rattle.endless.specs.Sides.{number};
ghost use Rattle.drawing.specs.Form.{next_piece};
ghost use Rattle.drawing.specs.Lexed.{meant};
ghost use Rattle.drawing.specs.Reading.{bared};
ghost use Rattle.drawing.specs.Telling.{word_next, side_next, behind_dash, goal_next, end_next, telling};
ghost use Rattle.drawing.specs.Heard.{text_now, spelt, ReadBy, Ended, Heard};

use crate::refusal::Fault;
use crate::row::side_of;
use crate::token::{Spelt, Token, is_apart, next_token};
use crate::{line, scan};
use endless::side::Side;

/// What a line of an answer tells: the place, the side that wins it, and the name of its move, if it has one.
#[derive(Clone, Copy)]
pub(crate) struct Told<'a> {
    pub(crate) name: Spelt<'a>,
    pub(crate) side: Side,
    pub(crate) goal: Option<Spelt<'a>>,
}

/// The next word, and what is left of the line.
fn word(text: &str) -> Result<(Spelt<'_>, &str), Fault>
    ensures { ReadBy spelt (word_next (next_piece text.now)) result }
{
    match next_token(text)? {
        Some((Token::Word(word), rest)) => Ok((word, rest)),
        Some((Token::Colon, _)) | None => Err(Fault::Form),
    }
}

fn side(text: &str) -> Result<(Side, &str), Fault>
    ensures { ReadBy number (side_next text.now) result }
{
    let (word, rest) = word(text)?;
    let side = side_of(word).ok_or(Fault::Side)?;
    Ok((side, rest))
}

/// What is left behind a bare `-`, if that comes next.
fn behind_dash(text: &str) -> Option<&str>
    ensures { option_map text_now result ≡ behind_dash text.now }
{
    let (_, text) = text.split_at(scan::blank_len(text.as_bytes()));
    let rest = text.strip_prefix('-')?;
    is_apart(rest).then_some(rest)
}

/// The name of the move, or a bare `-`.
fn goal(text: &str) -> Result<(Option<Spelt<'_>>, &str), Fault>
    ensures { ReadBy (option_map meant) (goal_next text.now) result }
{
    if let Some(rest) = behind_dash(text) {
        return Ok((None, rest));
    }
    let (word, rest) = word(text)?;
    Ok((Some(word), rest))
}

/// Nothing may be left of the line.
fn ended(text: &str) -> Result<(), Fault>
    ensures { Ended (end_next (next_piece text.now)) result }
{
    match next_token(text)? {
        None => Ok(()),
        Some(_) => Err(Fault::Form),
    }
}

/// What the line tells, if it tells anything.
fn read_told(line: &str) -> Result<Option<Told<'_>>, Fault>
    ensures { Heard (telling line.now) result }
{
    let Some((first, rest)) = next_token(line)? else {
        return Ok(None);
    };
    let Token::Word(name) = first else {
        return Err(Fault::Form);
    };
    let (side, rest) = side(rest)?;
    let (goal, rest) = goal(rest)?;
    ended(rest)?;
    Ok(Some(Told { name, side, goal }))
}

/// The same of a line that may end in a carriage return.
pub(crate) fn read_line(line: &str) -> Result<Option<Told<'_>>, Fault>
    ensures { Heard (telling (bared line.now)) result }
{
    read_told(line::strip_return(line))
}
