//! The picture of a game and its answer.
ghost use Rattle.std.specs.Prelude.{◌≡◌, ◌+◌, ◌<◌, [], length, map, drop, Some, string_bytes, slice_index_or};
ghost use Rattle.std.specs.Fmt.{WritesOnOk};
ghost use Rattle.endless.specs.Sides.{number};
ghost use Rattle.endless.specs.Says.{side};
ghost use Rattle.moves.specs.Marking.{before};
ghost use Rattle.dot.specs.Pictures.{head, shape, look, stroke, planned, told, mark_words, is_bold, bold, edge_line, node_line, place_lines, picture};

use crate::bold::Bold;
use crate::label::Label;
use endless::answer::{PlaceId, Winner, goes_to, won_by};
use endless::graph::Places;
use endless::side::Side;
use std::fmt;
use std::fmt::Write;

/// What stands before the places, up to what bold moves are: what the forms
/// and colours say.
const HEAD: &str = "strict digraph game {
  graph [fontname=\"Helvetica\", fontsize=12, nodesep=0.3, ranksep=0.45, labelloc=t, label=\"Diamonds: side 0 moves; boxes: side 1 moves. A name, and below it the weight.\\nBlue, solid: side 0 wins; orange, dashed: side 1 wins. Bold: ";

/// What stands behind that: how all places and moves look.
const STYLES: &str = ".\"];
  node [fontname=\"Helvetica\", fontsize=14, margin=\"0.06,0.04\", penwidth=1.5];
  edge [arrowsize=0.8];
";

/// Whose move it is by the shape.
fn shape(side: Side) -> &'static str
    ensures { result.now ≡ shape (number side) }
{
    match side {
        Side::Even => "diamond",
        Side::Odd => "box",
    }
}

/// How bold a move is.
fn stroke(is_bold: bool) -> &'static str
    ensures { result.now ≡ stroke is_bold }
{
    if is_bold { " [penwidth=3]" } else { "" }
}

/// The words behind so many.
fn behind(words: &[u32], many: usize) -> &[u32]
    ensures { result.now ≡ drop many words.now }
{
    words.get(many..).unwrap_or(&[])
}

/// A game, what its places are called, an answer, and which moves are bold,
/// which are printed as a text for Graphviz. A place behind the last name has
/// none.
#[derive(Clone, Copy)]
pub struct Picture<'a, 'b> {
    pub places: &'a Places<'a>,
    pub names: &'a [String],
    pub answer: &'a [u32],
    pub bold: Bold<'b>,
}

impl<'a> Picture<'a, '_> {
    /// What a place is called.
    fn name(self, n: u32) -> &'a str
        ensures { result.now ≡ slice_index_or (map string_bytes self.entry.names.now) n [] }
    {
        match self.names.get(n as usize) {
            Some(name) => name.as_str(),
            None => "",
        }
    }

    /// Who wins a place by colour and line.
    fn look(self, n: u32) -> &'static str
        ensures { result.now ≡ look (side self.entry.answer.now n) }
    {
        match won_by(self.answer, PlaceId(n)) {
            Some(winner) => match winner.0 {
                Side::Even => ", style=filled, fillcolor=\"#c6dbef\"",
                Side::Odd => ", style=\"filled,dashed\", fillcolor=\"#fdd0a2\"",
            },
            None => "",
        }
    }

    /// Whether the winner of place `n` is to move there, and its plan goes to
    /// `m`.
    fn is_planned(self, n: u32, m: u32) -> bool
        requires { n < length self.places.now }
        ensures { result ≡ planned self.entry.places.now self.entry.answer.now n m }
    {
        let whose = self.places.head(n).whose;
        won_by(self.answer, PlaceId(n)) == Some(Winner(whose))
            && goes_to(self.answer, PlaceId(n)) == Some(PlaceId(m))
    }

    /// Whether the move from place `n` to `m` is bold, where this is its mark.
    fn is_bold(self, n: u32, m: u32, mark: u32) -> bool
        requires { n < length self.places.now }
        ensures { result ≡ is_bold self.entry.bold self.entry.places.now self.entry.answer.now n m mark }
    {
        match self.bold {
            Bold::Plan => self.is_planned(n, m),
            Bold::Marks(_) => mark == 1,
        }
    }

    /// A move, as an edge.
    fn write_edge<W: fmt::Write>(
        self,
        f: &mut fmt::Formatter<W>,
        n: u32,
        m: u32,
        mark: u32,
    ) -> fmt::Result
        requires { n < length self.places.now }
        ensures { WritesOnOk W.write_str_gives f.old result (edge_line n m (is_bold self.entry.bold self.entry.places.now self.entry.answer.now n m mark)) f.new }
    {
        let stroke = stroke(self.is_bold(n, m, mark));
        writeln!(f, "  n{n} -> n{m}{stroke};")
    }

    /// A place without its moves, as a node.
    fn write_node<W: fmt::Write>(self, f: &mut fmt::Formatter<W>, n: u32) -> fmt::Result
        requires { n < length self.places.now }
        ensures { WritesOnOk W.write_str_gives f.old result (node_line self.entry.places.now (map string_bytes self.entry.names.now) self.entry.answer.now n) f.new }
    {
        let shape = shape(self.places.head(n).whose);
        let name = Label(self.name(n));
        let weight = self.places.weight(n);
        let look = self.look(n);
        writeln!(
            f,
            "  n{n} [shape={shape}, label=\"{name}\\n{weight}\"{look}];"
        )
    }

    /// A place, and behind it its moves, whose marks stand in front of `marks`.
    fn write_place<W: fmt::Write>(
        self,
        f: &mut fmt::Formatter<W>,
        n: u32,
        marks: &[u32],
    ) -> fmt::Result
        requires place { n < length self.places.now }
        requires marks { marks.now ≡ drop (length self.places.now + before self.places.now n) (mark_words self.bold) }
        ensures { WritesOnOk W.write_str_gives f.old result (place_lines (bold self.entry.bold self.entry.places.now self.entry.answer.now) self.entry.places.now (map string_bytes self.entry.names.now) self.entry.answer.now n) f.new }
    {
        self.write_node(f, n)?;
        for (i, m) in self.places.moves(n).iter().enumerate() {
            let mark = marks.get(i).copied().unwrap_or(0);
            self.write_edge(f, n, *m, mark)?;
        }
        Ok(())
    }

    /// What stands before the places.
    fn write_head<W: fmt::Write>(self, f: &mut fmt::Formatter<W>) -> fmt::Result
        ensures { WritesOnOk W.write_str_gives f.old result (head (told self.entry.bold)) f.new }
    {
        let told = self.bold.told();
        write!(f, "{HEAD}{told}{STYLES}")
    }
}

impl fmt::Display for Picture<'_, '_> {
    ghost output = { λ p. Some (picture (told p.bold) (bold p.bold p.places.now p.answer.now) p.places.now (map string_bytes p.names.now) p.answer.now) };

    fn fmt<W: fmt::Write>(&self, f: &mut fmt::Formatter<W>) -> fmt::Result {
        self.write_head(f)?;
        let mut marks = behind(self.bold.marks(), self.places.len() as usize);
        for n in 0..self.places.len() {
            self.write_place(f, n, marks)?;
            marks = behind(marks, self.places.moves(n).len());
        }
        f.write_str("}\n")
    }
}

#[cfg(test)]
mod tests {
    use super::*;
    use endless::words::GameWords;
    use std::alloc::Global;
    use std::test::Fail;

    // 0 is side 0's, weight 1, to 1 or 2; 1 is side 1's, weight 2, to 0; 2 is
    // side 1's, weight 3, to 0 or itself. Side 0 wins 0 and 1, by going from
    // 0 to 1; side 1 wins 2, by staying there.
    const THREE: [u32; 15] = [3, 0, 1, 2, 1, 2, 1, 2, 1, 0, 1, 3, 2, 0, 2];

    // 0 is side 0's, weight 1, to 1, 2, 1 again or itself; 1 is side 1's, weight
    // 2, to 0; 2 is side 1's, weight 4, to 0; 3 is side 1's, weight 3, to itself
    // or 0. Side 0 wins 0, 1 and 2, by going from 0 to 1 or to 2; side 1 wins 3,
    // by staying there.
    const FOUR: [u32; 21] = [
        4, 0, 1, 4, 1, 2, 1, 0, 1, 2, 1, 0, 1, 4, 1, 0, 1, 3, 2, 3, 0,
    ];

    // The lines behind the head.
    fn lines(
        heap: Global,
        words: &[u32],
        names: &[&str],
        answer: &[u32],
        bold: Bold,
    ) -> Result<String, Fail> {
        let mut owned = Vec::new(heap);
        for name in names {
            owned.push(String::from_str(heap, *name)?)?;
        }
        let Some(game) = GameWords::read(words) else {
            return Err(Fail::new("no game"));
        };
        let mut starts = vec![in heap; [0, 0]; game.len() as usize]?;
        let places = Places::new(game, starts.as_mut_slice());
        let picture = Picture {
            places: &places,
            names: owned.as_slice(),
            answer,
            bold,
        };
        let text = picture.to_string(heap)?;
        match behind_head(text.as_str(), bold) {
            Some(rest) => Ok(String::from_str(heap, rest)?),
            None => Err(Fail::new("another head")),
        }
    }

    fn behind_head<'a>(text: &'a str, bold: Bold) -> Option<&'a str> {
        text.strip_prefix(HEAD)?
            .strip_prefix(bold.told())?
            .strip_prefix(STYLES)
    }

    #[test]
    fn three_places(rt: HostRuntime) -> Result<(), Fail> {
        let text = lines(
            rt.alloc(),
            &THREE,
            &["p0", "p1", "p2"],
            &[0, 1, 0, 0, 1, 2],
            Bold::Plan,
        )?;
        assert_eq!(rt;
            text.as_str(),
            "  n0 [shape=diamond, label=\"p0\\n1\", style=filled, fillcolor=\"#c6dbef\"];
  n0 -> n1 [penwidth=3];
  n0 -> n2;
  n1 [shape=box, label=\"p1\\n2\", style=filled, fillcolor=\"#c6dbef\"];
  n1 -> n0;
  n2 [shape=box, label=\"p2\\n3\", style=\"filled,dashed\", fillcolor=\"#fdd0a2\"];
  n2 -> n0;
  n2 -> n2 [penwidth=3];
}
"
        );
        Ok(())
    }

    // A name with what Graphviz would read otherwise, a place with no name,
    // and a place that the answer gives to neither side.
    #[test]
    fn unusual_places(rt: HostRuntime) -> Result<(), Fail> {
        let text = lines(
            rt.alloc(),
            &[2, 0, 0, 2, 1, 1, 1, 255, 1, 0],
            &["ä \"\\N\" &lt;"],
            &[0, 1, 2, 0],
            Bold::Plan,
        )?;
        assert_eq!(rt;
            text.as_str(),
            "  n0 [shape=diamond, label=\"ä \\\"\\\\N\\\" &amp;lt;\\n0\", style=filled, fillcolor=\"#c6dbef\"];
  n0 -> n1 [penwidth=3];
  n0 -> n1 [penwidth=3];
  n1 [shape=box, label=\"\\n255\"];
  n1 -> n0;
}
"
        );
        Ok(())
    }

    // By the plan one move is bold at 0; by the marks each that wins, and so as
    // often as it stands there.
    #[test]
    fn two_winning_moves(rt: HostRuntime) -> Result<(), Fail> {
        let (names, answer) = (["a", "b", "c", "d"], [0, 2, 0, 0, 0, 0, 1, 3]);
        let text = lines(rt.alloc(), &FOUR, &names, &answer, Bold::Plan)?;
        assert_eq!(rt;
            text.as_str(),
            "  n0 [shape=diamond, label=\"a\\n1\", style=filled, fillcolor=\"#c6dbef\"];
  n0 -> n1;
  n0 -> n2 [penwidth=3];
  n0 -> n1;
  n0 -> n0;
  n1 [shape=box, label=\"b\\n2\", style=filled, fillcolor=\"#c6dbef\"];
  n1 -> n0;
  n2 [shape=box, label=\"c\\n4\", style=filled, fillcolor=\"#c6dbef\"];
  n2 -> n0;
  n3 [shape=box, label=\"d\\n3\", style=\"filled,dashed\", fillcolor=\"#fdd0a2\"];
  n3 -> n3 [penwidth=3];
  n3 -> n0;
}
"
        );
        let marks = [0, 0, 0, 1, 1, 1, 1, 0, 0, 0, 1, 0];
        let text = lines(rt.alloc(), &FOUR, &names, &answer, Bold::Marks(&marks))?;
        assert_eq!(rt;
            text.as_str(),
            "  n0 [shape=diamond, label=\"a\\n1\", style=filled, fillcolor=\"#c6dbef\"];
  n0 -> n1 [penwidth=3];
  n0 -> n2 [penwidth=3];
  n0 -> n1 [penwidth=3];
  n0 -> n0;
  n1 [shape=box, label=\"b\\n2\", style=filled, fillcolor=\"#c6dbef\"];
  n1 -> n0;
  n2 [shape=box, label=\"c\\n4\", style=filled, fillcolor=\"#c6dbef\"];
  n2 -> n0;
  n3 [shape=box, label=\"d\\n3\", style=\"filled,dashed\", fillcolor=\"#fdd0a2\"];
  n3 -> n3 [penwidth=3];
  n3 -> n0;
}
"
        );
        Ok(())
    }
}
