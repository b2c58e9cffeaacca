//! The tokens of a line: colons, and words bare or in quotes.
ghost use Rattle.std.specs.Prelude.{◌≡◌};
ghost use Rattle.std.specs.Iterator.{YieldsFirstBy, item_count};
ghost use Rattle.drawing.specs.Form.{pieces, apart, bare, quoted, next_piece};
ghost use Rattle.drawing.specs.Lexed.{shown, left, LexedWord, Lexed};
ghost use Rattle.drawing.specs.Rows.{Worded, Followed};

use crate::refusal::Fault;
use crate::scan;

/// The most bytes of a name.
pub const MOST_NAME: usize = 64;

/// A word as it is spelt: bare, or what stands in its quotes.
#[derive(Clone, Copy)]
pub(crate) enum Spelt<'a> {
    Bare(&'a str),
    Quoted(&'a str),
}

#[derive(Clone, Copy)]
pub(crate) enum Token<'a> {
    Colon,
    Word(Spelt<'a>),
}

/// The tokens of a line, one after the other. A fault is the last.
#[derive(Clone, Copy)]
pub(crate) struct Tokens<'a> {
    rest: &'a str,
}

impl<'a> Iterator for Tokens<'a> {
    type Item = Result<Token<'a>, Fault>;

    ghost next_gives = { YieldsFirstBy shown left };

    ghost remaining = { item_count left };

    fn next(&mut self) -> Option<Result<Token<'a>, Fault>> {
        match next_token(self.rest) {
            Ok(None) => None,
            Ok(Some((token, rest))) => {
                self.rest = rest;
                Some(Ok(token))
            }
            Err(fault) => {
                self.rest = "";
                Some(Err(fault))
            }
        }
    }
}

impl<'a> Tokens<'a> {
    pub(crate) fn of(line: &'a str) -> Tokens<'a>
        ensures { left result ≡ pieces line.now }
    {
        Tokens { rest: line }
    }

    /// The next token, which has to be a word.
    pub(crate) fn word(&mut self) -> Result<Spelt<'a>, Fault>
        ensures { Worded (left self.old) result (left self.new) }
    {
        match self.next() {
            Some(Ok(Token::Word(word))) => Ok(word),
            Some(Ok(Token::Colon)) | None => Err(Fault::Form),
            Some(Err(fault)) => Err(fault),
        }
    }

    /// The next token has to be a colon.
    pub(crate) fn colon(&mut self) -> Result<(), Fault>
        ensures { Followed (left self.old) result (left self.new) }
    {
        match self.next() {
            Some(Ok(Token::Colon)) => Ok(()),
            Some(Ok(Token::Word(_))) | None => Err(Fault::Form),
            Some(Err(fault)) => Err(fault),
        }
    }
}

/// Whether a word may end here.
pub(crate) fn is_apart(rest: &str) -> bool
    ensures { result ≡ apart rest.now }
{
    match rest.as_bytes() {
        [] => true,
        [b, ..] => scan::is_end(*b),
    }
}

/// The bare word in front.
fn bare_word(text: &str) -> Result<(Spelt<'_>, &str), Fault>
    ensures { LexedWord (bare text.now) result }
{
    let (raw, rest) = text.split_at(scan::word_len(text.as_bytes()));
    if raw.is_empty() {
        return Err(Fault::Quote);
    }
    if !is_apart(rest) {
        return Err(Fault::Quote);
    }
    if scan::has_control(raw.as_bytes()) {
        return Err(Fault::Control);
    }
    if raw == "-" {
        return Err(Fault::Dash);
    }
    if raw.len() > MOST_NAME {
        return Err(Fault::LongName);
    }
    Ok((Spelt::Bare(raw), rest))
}

/// The word in quotes, from behind the opening quote.
fn quoted_word(text: &str) -> Result<(Spelt<'_>, &str), Fault>
    ensures { LexedWord (quoted text.now) result }
{
    let n = scan::closing_quote(text.as_bytes()).ok_or(Fault::Quote)?;
    let (raw, _) = text.split_at(n);
    let (_, rest) = text.split_at(n + 1);
    if !is_apart(rest) {
        return Err(Fault::Quote);
    }
    if scan::has_control(raw.as_bytes()) {
        return Err(Fault::Control);
    }
    let len = scan::plain_len(raw.as_bytes());
    if len == 0 {
        return Err(Fault::EmptyName);
    }
    if len > MOST_NAME {
        return Err(Fault::LongName);
    }
    Ok((Spelt::Quoted(raw), rest))
}

/// The next token of a line, and what is left of the line.
pub(crate) fn next_token(line: &str) -> Result<Option<(Token<'_>, &str)>, Fault>
    ensures { Lexed (next_piece line.now) result }
{
    let (_, text) = line.split_at(scan::blank_len(line.as_bytes()));
    if text.is_empty() || text.starts_with('#') {
        return Ok(None);
    }
    if let Some(rest) = text.strip_prefix(':') {
        return Ok(Some((Token::Colon, rest)));
    }
    let (word, rest) = match text.strip_prefix('"') {
        Some(rest) => quoted_word(rest)?,
        None => bare_word(text)?,
    };
    Ok(Some((Token::Word(word), rest)))
}
