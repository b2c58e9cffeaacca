//! What a person's line asks for.
ghost use Rattle.std.specs.Prelude.{◌<◌, length, IfSome, IfOk};
ghost use Rattle.endless_play.specs.Wishes.{InList};

use std::fmt;

/// What the person wants.
#[derive(Clone, Copy)]
pub enum Wish {
    /// The move with this index in the list, counted from 0.
    Move(usize),
    Help,
    Status,
    Back,
    Quit,
}

/// Why a line is nothing that can be wanted.
#[derive(Clone, Copy)]
pub enum NoWish {
    /// There is no such command.
    Command,
    /// The list has no such number; it goes from 1 to this one.
    Number(usize),
    /// It is no name and no number of the list.
    Move,
    /// The line is not UTF-8.
    NotText,
    /// The line is too long.
    TooLong,
}

impl fmt::Display for NoWish {
    fn fmt<W: fmt::Write>(&self, f: &mut fmt::Formatter<W>) -> fmt::Result {
        match self {
            NoWish::Command => f.write_str("there is no such command; :help lists them"),
            NoWish::Number(many) => {
                write!(f, "there is no such number; the list goes from 1 to {many}")
            }
            NoWish::Move => f.write_str(
                "that is neither a name nor a number of the list; :help says what you can type",
            ),
            NoWish::NotText => f.write_str("that line is not UTF-8"),
            NoWish::TooLong => f.write_str("that line is longer than 256 bytes"),
        }
    }
}

/// What the line asks for at a place with these moves: a command where it
/// begins with a colon, else a name, else a number of the list.
pub(crate) fn understand(names: &[String], moves: &[u32], line: &str) -> Result<Wish, NoWish>
    ensures { IfOk result (InList (length moves.now)) }
{
    let text = line.trim_ascii();
    if text.starts_with(":") {
        return command(text);
    }
    match named(names, moves, text) {
        Some(index) => Ok(Wish::Move(index)),
        None => numbered(moves.len(), text),
    }
}

fn command(text: &str) -> Result<Wish, NoWish>
    ensures { IfOk result (InList 0) }
{
    match text {
        ":help" => Ok(Wish::Help),
        ":status" => Ok(Wish::Status),
        ":back" => Ok(Wish::Back),
        ":quit" => Ok(Wish::Quit),
        _ => Err(NoWish::Command),
    }
}

/// The first move to a place of this name, bare or in double quotes.
fn named(names: &[String], moves: &[u32], text: &str) -> Option<usize>
    ensures { IfSome result (λ i. i < length moves.now) }
{
    moves.iter().position(|&to| is_named(name(names, to), text))
}

/// Whether the text is this name, bare or in double quotes.
pub(crate) fn is_named(name: &str, text: &str) -> bool {
    name == text || is_quoted(name, text)
}

/// Whether the text is this name in double quotes, with a backslash before
/// each quote and each backslash in it.
fn is_quoted(name: &str, text: &str) -> bool {
    let mut rest = text.chars();
    if rest.next() != Some('"') {
        return false;
    }
    for c in name.chars() {
        if (c == '"' || c == '\\') && rest.next() != Some('\\') {
            return false;
        }
        if rest.next() != Some(c) {
            return false;
        }
    }
    rest.next() == Some('"') && rest.next().is_none()
}

/// The number of a list of so many moves, which counts from 1.
fn numbered(many: usize, text: &str) -> Result<Wish, NoWish>
    ensures { IfOk result (InList many) }
{
    match text.parse::<usize>() {
        Err(_) => Err(NoWish::Move),
        Ok(number) if (1..=many).contains(&number) => Ok(Wish::Move(number - 1)),
        Ok(_) => Err(NoWish::Number(many)),
    }
}

/// The name of a place.
pub(crate) fn name(names: &[String], place: u32) -> &str {
    names.get(place as usize).map_or("?", |name| name.as_str())
}
