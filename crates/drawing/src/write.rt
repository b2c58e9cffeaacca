//! The second pass: the words of the game.
ghost use Rattle.std.specs.Prelude.{◌≡◌, ℕ, ◌≤◌, List, Ok};
ghost use Rattle.drawing.specs.Form.{names_of};
ghost use Rattle.drawing.specs.Lexed.{meant, left};
ghost use Rattle.drawing.specs.Passes.{Found, Moved, Worded, Written};

use crate::kind::Kind;
use crate::names::Names;
use crate::refusal::{Fault, Refusal};
use crate::row;
use crate::token::{Spelt, Token, Tokens};
use std::alloc::Global;

// Each form of text has this number of its own, as neither crate knows of the other.
/// The most moves of a drawing, those of all places together.
pub const MOST_MOVES: usize = 64_000;

/// A line by its number, and the names that its moves are looked up among, in a drawing of this kind.
#[derive(Clone, Copy)]
struct Line<'a> {
    heap: Global,
    kind: Kind,
    names: &'a Names,
    number: usize,
}

impl<'a> Line<'a> {
    /// The index of the place that the word names.
    fn find(self, word: Spelt<'_>) -> Result<u32, Refusal>
        ensures { Found self.entry.number self.entry.names.now (meant word.entry) result }
    {
        let name = word.to_name(self.heap)?;
        self.names.find(name.as_str()).ok_or(Refusal::Unknown {
            line: self.number,
            name,
        })
    }

    /// Adds the places that the rest of the line names.
    fn write_moves(self, moves: Tokens<'_>, words: &mut Vec<u32>) -> Result<(), Refusal>
        ensures { (ms : List (List ℕ)) → names_of (left moves.entry) ≡ Ok ms → Moved self.entry.number self.entry.names.now words.old.items ms words.new.items result }
    {
        for token in moves {
            match token.map_err(|fault| fault.on(self.number))? {
                Token::Word(word) => words.push(self.find(word)?)?,
                Token::Colon => return Err(Fault::Form.on(self.number)),
            }
        }
        Ok(())
    }

    /// Adds the words of the place that the line holds, if it holds one, and its moves to those used.
    fn write(self, line: &str, used: usize, words: &mut Vec<u32>) -> Result<usize, Refusal>
        requires { used ≤ 64000 }
        ensures { Worded self.entry.kind self.entry.number self.entry.names.now used line.now words.old.items words.new.items result }
    {
        let Some(row) = row::read_line(line, self.kind).map_err(|fault| fault.on(self.number))?
        else {
            return Ok(used);
        };
        if row.count > MOST_MOVES - used {
            return Err(Refusal::TooManyMoves { line: self.number });
        }
        let side = u32::from(row.side);
        words.push(side)?;
        words.push(row.weight)?;
        words.push(row.count as u32)?;
        self.write_moves(row.moves, words)?;
        Ok(used + row.count)
    }
}

/// The words of the whole game.
pub(crate) fn write_words(
    heap: Global,
    names: &Names,
    text: &str,
    kind: Kind,
) -> Result<Vec<u32>, Refusal>
    ensures { Written kind names.now text.now result }
{
    let mut words = Vec::new(heap);
    words.push(names.len())?;
    let mut used = 0;
    for (number, line) in (1..).zip(text.split('\n')) {
        used = Line {
            heap,
            kind,
            names,
            number,
        }
        .write(line, used, &mut words)?;
    }
    Ok(words)
}
