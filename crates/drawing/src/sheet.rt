//! The drawing of a game: a line for each place, NAME SIDE WEIGHT: NAME NAME ..
ghost use Rattle.std.specs.Prelude.{◌≡◌, ◌<◌, [], length, map, IfOk, Some, string_bytes, slice_index_or};
ghost use Rattle.std.specs.List.{flat_map};
ghost use Rattle.std.specs.Fmt.{WritesOnOk};
ghost use Rattle.endless.specs.Graph.{moves};
ghost use Rattle.drawing.specs.Sheets.{named, move_text, line_text, sheet, NamesOf, Draws};

use crate::spell::Name;
use endless::graph::Places;
use std::alloc::{AllocError, Global};
use std::fmt;
use std::fmt::Write;

/// A game and what its places are called, which are printed as a drawing.
#[derive(Clone, Copy)]
pub struct Sheet<'a> {
    pub places: &'a Places<'a>,
    pub names: &'a [String],
}

impl<'a> Sheet<'a> {
    /// What a place is called: nothing, where there are too few names.
    fn name(self, n: u32) -> Name<'a>
        ensures { result.0.now ≡ named (map string_bytes self.entry.names.now) n }
    {
        match self.names.get(n as usize) {
            Some(name) => Name(name.as_str()),
            None => Name(""),
        }
    }

    /// The names of the moves of a place, each behind a blank.
    fn write_moves<W: fmt::Write>(self, f: &mut fmt::Formatter<W>, n: u32) -> fmt::Result
        requires { n < length self.places.now }
        ensures { WritesOnOk W.write_str_gives f.old result (flat_map (move_text (map string_bytes self.entry.names.now)) (moves self.entry.places.now n)) f.new }
    {
        for m in self.places.moves(n) {
            let name = self.name(*m);
            write!(f, " {name}")?;
        }
        Ok(())
    }

    fn write_line<W: fmt::Write>(self, f: &mut fmt::Formatter<W>, n: u32) -> fmt::Result
        requires { n < length self.places.now }
        ensures { WritesOnOk W.write_str_gives f.old result (line_text self.entry.places.now (map string_bytes self.entry.names.now) n) f.new }
    {
        let head = self.places.head(n);
        let name = self.name(n);
        let side = u32::from(head.whose);
        let weight = head.weight;
        write!(f, "{name} {side} {weight}:")?;
        self.write_moves(f, n)?;
        f.write_char('\n')
    }
}

impl fmt::Display for Sheet<'_> {
    ghost output = { λ s. Some (sheet s.places.now (map string_bytes s.names.now)) };

    fn fmt<W: fmt::Write>(&self, f: &mut fmt::Formatter<W>) -> fmt::Result {
        for n in 0..self.places.len() {
            self.write_line(f, n)?;
        }
        Ok(())
    }
}

/// The drawing of a game whose places have these names. Where a drawing may
/// have the names and they all differ, it is read back as the same game with
/// the same names.
pub fn draw(heap: Global, places: &Places, names: &[String]) -> Result<String, AllocError>
    ensures is { IfOk result (λ s. string_bytes s ≡ sheet places.now (map string_bytes names.now)) }
    ensures back { NamesOf places.now (map string_bytes names.now) → IfOk result (λ s. Draws (string_bytes s) places.now (map string_bytes names.now)) }
{
    Sheet { places, names }.to_string(heap)
}
