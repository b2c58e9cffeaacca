//! The lines of a text.
ghost use Rattle.std.specs.Prelude.{◌≡◌};
ghost use Rattle.drawing.specs.Reading.{bared};

/// The line without a carriage return at its end.
pub(crate) fn strip_return(line: &str) -> &str
    ensures { result.now ≡ bared line.now }
{
    line.strip_suffix('\r').unwrap_or(line)
}
