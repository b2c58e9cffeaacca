//! Names and how they are written.
ghost use Rattle.std.specs.Prelude.{◌≡◌, false, Some, IfOk, string_bytes};
ghost use Rattle.std.specs.Fmt.{WritesOnOk};
ghost use Rattle.drawing.specs.Form.{plain};
ghost use Rattle.drawing.specs.Lexed.{meant};
ghost use Rattle.drawing.specs.Spelling.{special, marked, plainly, in_quotes, spelling, IsName, Means};

use crate::scan;
use crate::token::Spelt;
use std::alloc::{AllocError, Global};
use std::fmt;
use std::fmt::Write;

/// The text without the backslashes that take another character.
fn unescaped(heap: Global, raw: &str) -> Result<String, AllocError>
    ensures { IfOk result (λ s. string_bytes s ≡ plain false raw.now) }
{
    let mut name = String::new(heap);
    let mut escaped = false;
    for c in raw.chars() {
        escaped = scan::is_escape(escaped, c);
        if !escaped {
            name.push(c)?;
        }
    }
    Ok(name)
}

impl<'a> Spelt<'a> {
    /// The name that the word means.
    pub(crate) fn to_name(self, heap: Global) -> Result<String, AllocError>
        ensures { IfOk result (λ s. string_bytes s ≡ meant self.entry) }
    {
        match self {
            Spelt::Bare(raw) => String::from_str(heap, raw),
            Spelt::Quoted(raw) => unescaped(heap, raw),
        }
    }
}

fn is_special(c: char) -> bool
    ensures { result ≡ special c }
{
    c == '"' || c == '\\'
}

/// The character as it stands in quotes.
fn write_marked<W: fmt::Write>(f: &mut fmt::Formatter<W>, c: char) -> fmt::Result
    ensures { WritesOnOk W.write_str_gives f.old result (marked c) f.new }
{
    if is_special(c) {
        f.write_char('\\')?;
    }
    f.write_char(c)
}

/// Whether the name may stand bare.
fn is_plain(name: &str) -> bool
    ensures { result ≡ plainly name.now }
{
    !name.is_empty() && scan::word_len(name.as_bytes()) == name.len() && name != "-"
}

/// A name that is printed in double quotes.
#[derive(Clone, Copy)]
pub struct Quoted<'a>(pub &'a str);

impl<'a> fmt::Display for Quoted<'a> {
    ghost output = { λ q. Some (in_quotes q.0.now) };

    fn fmt<W: fmt::Write>(&self, f: &mut fmt::Formatter<W>) -> fmt::Result {
        f.write_char('"')?;
        for c in self.0.chars() {
            write_marked(f, c)?;
        }
        f.write_char('"')
    }
}

/// A name that is printed as a drawing has it: bare where it may be, else in double quotes.
#[derive(Clone, Copy)]
pub struct Name<'a>(pub &'a str);

impl<'a> fmt::Display for Name<'a> {
    ghost output = { λ n. Some (spelling n.0.now) };

    fn fmt<W: fmt::Write>(&self, f: &mut fmt::Formatter<W>) -> fmt::Result {
        if is_plain(self.0) {
            f.write_str(self.0)
        } else {
            Quoted(self.0).fmt(f)
        }
    }
}

/// The name as a drawing has it: bare where it may be, else in double quotes.
pub fn written(heap: Global, name: &str) -> Result<String, AllocError>
    ensures is { IfOk result (λ s. string_bytes s ≡ spelling name.now) }
    ensures back { IsName name.now → IfOk result (λ s. Means name.now (string_bytes s)) }
{
    Name(name).to_string(heap)
}
