//! The line that a refusal is about, to be shown under it.
ghost use Rattle.std.specs.Prelude.{◌≡◌, ◌-◌, [], slice_index_or};
ghost use Rattle.drawing.specs.Reading.{lines};

use crate::line;
use std::alloc::{AllocError, Global};

/// The most characters of a line that are shown.
pub const MOST_SHOWN: usize = 100;

/// The line of this number, which counts from 1; empty where there is none.
pub fn line_at(text: &str, number: usize) -> &str
    ensures { result.now ≡ slice_index_or (lines text.now) (number - 1) [] }
{
    text.split('\n').nth(number.saturating_sub(1)).unwrap_or("")
}

/// The line of this number as it is shown: no more than 100 characters of it,
/// with `..` behind where it is longer, and `?` for control characters.
pub fn shown_line(heap: Global, text: &str, number: usize) -> Result<String, AllocError> {
    let mut shown = String::new(heap);
    let line = line::strip_return(line_at(text, number));
    for (many, c) in line.chars().enumerate() {
        if many >= MOST_SHOWN {
            shown.push_str(" ..")?;
            break;
        }
        shown.push(visible(c))?;
    }
    Ok(shown)
}

/// The character, or `?` where it is a control character other than a tab.
fn visible(c: char) -> char {
    if c.is_control() && c != '\t' { '?' } else { c }
}
