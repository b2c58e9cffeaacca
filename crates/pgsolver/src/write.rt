//! A game written in PGSolver's form.
ghost use Rattle.std.specs.Prelude.{◌≡◌, ◌<◌, ◌≤◌, Some, [], ◌∷◌, ◌++◌, All, cond, map, length, slice_index, IfOk, vec_items, string_bytes};
ghost use Rattle.std.specs.Fmt.{WritesOnOk};
ghost use Rattle.std.specs.Str.{is_utf8};
ghost use Rattle.pgsolver.specs.Ids.{ids_of, names_of};
ghost use Rattle.pgsolver.specs.Written.{single, written_name, name_text, successors_text, place_text, game_text, ReadsBack};
ghost use Rattle.endless.specs.Graph.{edges};

use crate::Named;
use crate::highest::highest;
use endless::graph::Places;
use std::alloc::{AllocError, Global};
use std::fmt::Write;
use std::{fmt, str};

/// A character of a name as it is written: a double quote would end the name, so a single one stands for it.
fn single(c: char) -> char
    ensures { result ≡ single c }
{
    if c == '"' { '\'' } else { c }
}

/// The name in double quotes.
fn write_quoted<W: fmt::Write>(f: &mut fmt::Formatter<W>, name: &str) -> fmt::Result
    ensures { WritesOnOk W.write_str_gives f.old result (34 ∷ (map single name.now ++ (34 ∷ []))) f.new }
{
    f.write_char('"')?;
    for c in name.chars() {
        f.write_char(single(c))?;
    }
    f.write_char('"')
}

/// The name as text; empty where it is none.
fn text(name: &[u8]) -> &str
    ensures { result.now ≡ cond (is_utf8 name.now) name.now [] }
{
    str::from_utf8(name).unwrap_or("")
}

/// The name in double quotes behind a blank, or nothing where it is empty or no text.
fn write_name<W: fmt::Write>(f: &mut fmt::Formatter<W>, name: &[u8]) -> fmt::Result
    ensures { WritesOnOk W.write_str_gives f.old result (name_text (written_name name.now)) f.new }
{
    let name = text(name);
    if name.is_empty() {
        return Ok(());
    }
    f.write_char(' ')?;
    write_quoted(f, name)
}

/// The ids of the places that the moves lead to, with a comma between them.
fn write_successors<W: fmt::Write>(
    f: &mut fmt::Formatter<W>,
    named: &[Named],
    moves: &[u32],
) -> fmt::Result
    requires { All (λ m. m < length named.now) moves.now }
    ensures { WritesOnOk W.write_str_gives f.old result (successors_text (map (slice_index (ids_of named.now)) moves.now)) f.new }
{
    if let [first, rest @ ..] = moves {
        let id = named[*first as usize].id;
        write!(f, "{id}")?;
        for to in rest {
            let id = named[*to as usize].id;
            write!(f, ",{id}")?;
        }
    }
    Ok(())
}

/// A game with the ids and names of its places, which is printed in PGSolver's form: `parity N;`, where N is the highest id, and ID PRIORITY OWNER SUCC,SUCC,.. "NAME"; for each place. A name that is empty or no text is left out, and a double quote in a name becomes a single one.
// A lifetime for each reference, as in `Solution`.
#[derive(Clone, Copy)]
pub struct GameText<'g, 'w, 'n> {
    pub game: &'g Places<'w>,
    pub named: &'n [Named],
    pub ghost each: { length named.now ≡ length game.now },
}

impl<'g, 'w, 'n> GameText<'g, 'w, 'n> {
    fn write_place<W: fmt::Write>(self, f: &mut fmt::Formatter<W>, n: u32) -> fmt::Result
        requires { n < length self.game.now }
        ensures { WritesOnOk W.write_str_gives f.old result (place_text (ids_of self.entry.named.now) (names_of self.entry.named.now) self.entry.game.now n) f.new }
    {
        let place = &self.named[n as usize];
        let id = place.id;
        let head = self.game.head(n);
        let (priority, owner) = (head.weight, head.whose);
        write!(f, "{id} {priority} {owner} ")?;
        write_successors(f, self.named, self.game.moves(n))?;
        write_name(f, place.name.as_slice())?;
        f.write_str(";\n")
    }

    /// The text. It reads as the same nodes again, where there are no more successors than a text may have.
    pub fn written(self, heap: Global) -> Result<String, AllocError>
        ensures is { IfOk result (λ s. string_bytes s ≡ game_text (ids_of self.entry.named.now) (names_of self.entry.named.now) self.entry.game.now) }
        ensures back { edges self.entry.game.now ≤ 64000 → IfOk result (λ s. ReadsBack (string_bytes s) (ids_of self.entry.named.now) (names_of self.entry.named.now) self.entry.game.now) }
    {
        // What `back` rests on and no field tells: that each id is a word, and
        // that some words read as the game.
        let _highest = highest(self.named);
        let _len = self.game.len();
        self.to_string(heap)
    }
}

impl<'g, 'w, 'n> fmt::Display for GameText<'g, 'w, 'n> {
    ghost output = { λ t. Some (game_text (ids_of t.named.now) (names_of t.named.now) t.game.now) };

    fn fmt<W: fmt::Write>(&self, f: &mut fmt::Formatter<W>) -> fmt::Result {
        let highest = highest(self.named);
        writeln!(f, "parity {highest};")?;
        for n in 0..self.game.len() {
            self.write_place(f, n)?;
        }
        Ok(())
    }
}

#[cfg(test)]
mod tests {
    use super::*;
    use crate::{Listing, read};
    use endless::words::GameWords;
    use std::test::Fail;

    // 0 is side 0's, weight 1, to 1 or 2; 1 is side 1's, weight 2, to 0; 2 is
    // side 1's, weight 3, to 0 or itself.
    const THREE: [u32; 15] = [3, 0, 1, 2, 1, 2, 1, 2, 1, 0, 1, 3, 2, 0, 2];

    // This game as it is written, with these ids and names.
    fn text_of(heap: Global, ids: &[u32], names: &[&[u8]]) -> Result<String, Fail> {
        let mut named = Vec::new(heap);
        for (id, name) in ids.iter().zip(names) {
            named.push(Named {
                id: *id,
                name: Vec::from_slice(heap, *name)?,
            })?;
        }
        let Some(words) = GameWords::read(&THREE) else {
            return Err(Fail::new("no game"));
        };
        if words.len() != 3 || named.len() != 3 {
            return Err(Fail::new("not three places"));
        }
        let mut starts = vec![in heap; [0, 0]; 3]?;
        let game = Places::new(words, starts.as_mut_slice());
        let text = GameText {
            game: &game,
            named: named.as_slice(),
        };
        let written = text.written(heap)?;
        if text.to_string(heap)?.as_str() != written.as_str() {
            return Err(Fail::new("it is printed otherwise than it is written"));
        }
        Ok(written)
    }

    #[test]
    fn writes_games(rt: HostRuntime) -> Result<(), Fail> {
        let text = text_of(rt.alloc(), &[7, 30, 4], &[b"a \"b\"", b"", b"\xff"])?;
        assert_eq!(rt;
            text.as_str(),
            "parity 30;\n7 1 0 30,4 \"a 'b'\";\n30 2 1 7;\n4 3 1 7,4;\n"
        );
        Ok(())
    }

    #[test]
    fn reads_what_is_written(rt: HostRuntime) -> Result<(), Fail> {
        let heap = rt.alloc();
        let names: [&[u8]; 3] = ["ä;\n1 0".as_bytes(), b"", b" "];
        let text = text_of(heap, &[7, 4294967295, 0], &names)?;
        let listing = read(heap, text.as_bytes()).map_err(|_| Fail::new("refused"))?;
        let Listing { words, places } = listing;
        assert_eq!(rt; words.as_slice(), THREE.as_slice());
        assert_eq!(rt; places.len(), 3);
        for (place, name) in places.iter().zip(names) {
            assert_eq!(rt; place.name.as_slice(), name);
        }
        assert_eq!(rt; places[1].id, 4294967295);
        Ok(())
    }
}
