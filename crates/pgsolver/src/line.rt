//! The line in which something stands.
ghost use Rattle.std.specs.Prelude.{◌≡◌};
ghost use Rattle.pgsolver.specs.Listed.{line_at};

/// The line, from 1, of what has so many bytes of the text from there on.
pub(crate) fn line_at(text: &[u8], left: usize) -> usize
    ensures { result ≡ line_at text.now left }
{
    let before = &text[..text.len().saturating_sub(left)];
    before.iter().filter(|b| **b == b'\n').count() + 1
}
