//! Texts in Graphviz's double quotes.
ghost use Rattle.std.specs.Prelude.{Some};
ghost use Rattle.std.specs.Fmt.{WritesOnOk};
ghost use Rattle.dot.specs.Labels.{marked, escaped};

use std::fmt;
use std::fmt::Write;

/// A text as it stands between double quotes in a label, so that it is shown
/// as it is.
#[derive(Clone, Copy)]
pub(crate) struct Label<'a>(pub &'a str);

impl fmt::Display for Label<'_> {
    ghost output = { λ l. Some (escaped l.0.now) };

    fn fmt<W: fmt::Write>(&self, f: &mut fmt::Formatter<W>) -> fmt::Result {
        for c in self.0.chars() {
            write_marked(f, c)?;
        }
        Ok(())
    }
}

/// A character as a label has it. An `&` would begin the name of a character,
/// as in `&lt;`, so it is written by its own name.
fn write_marked<W: fmt::Write>(f: &mut fmt::Formatter<W>, c: char) -> fmt::Result
    ensures { WritesOnOk W.write_str_gives f.old result (marked c) f.new }
{
    match c {
        '"' => f.write_str("\\\""),
        '\\' => f.write_str("\\\\"),
        '&' => f.write_str("&amp;"),
        _ => f.write_char(c),
    }
}
