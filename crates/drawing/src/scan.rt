//! How far some bytes go.
ghost use Rattle.std.specs.Prelude.{◌≡◌, false, length};
ghost use Rattle.std.specs.List.{prefix_len, position_or_len};
ghost use Rattle.drawing.specs.Form.{blank, ends, stops, control, control_within, escapes, astray, closes, closing, plain};

pub(crate) fn is_blank(b: u8) -> bool
    ensures { result ≡ blank b }
{
    b == b' ' || b == b'\t'
}

/// Whether the byte ends a word.
pub(crate) fn is_end(b: u8) -> bool
    ensures { result ≡ ends b }
{
    is_blank(b) || b == b':' || b == b'#'
}

/// Whether a bare word stops at the byte.
fn is_stop(b: u8) -> bool
    ensures { result ≡ stops b }
{
    is_end(b) || b == b'"' || b == b'\\'
}

/// How many blanks and tabs stand in front.
pub(crate) fn blank_len(bytes: &[u8]) -> usize
    ensures { result ≡ prefix_len blank bytes.now }
{
    bytes.iter().take_while(|b| is_blank(**b)).count()
}

/// How long the bare word in front is.
pub(crate) fn word_len(bytes: &[u8]) -> usize
    ensures { result ≡ position_or_len stops bytes.now }
{
    bytes.iter().take_while(|b| !is_stop(**b)).count()
}

/// Whether the byte is of a control character: below 32, 127, or below 160 after C2.
fn is_control(wide: bool, b: u8) -> bool
    ensures { result ≡ control wide b }
{
    b < 32 || b == 127 || (wide && b < 160)
}

pub(crate) fn has_control(bytes: &[u8]) -> bool
    ensures { result ≡ control_within false bytes.now }
{
    let mut wide = false;
    for b in bytes {
        if is_control(wide, *b) {
            return true;
        }
        wide = *b == 0xC2;
    }
    false
}

/// Whether the character is a backslash that takes the next one with it.
pub(crate) fn is_escape(escaped: bool, c: char) -> bool
    ensures { result ≡ escapes escaped c }
{
    !escaped && c == '\\'
}

/// Whether a backslash may not take the byte.
fn is_astray(escaped: bool, b: u8) -> bool
    ensures { result ≡ astray escaped b }
{
    escaped && b != b'"' && b != b'\\'
}

/// Whether the byte is a quote that no backslash takes.
fn is_closing(escaped: bool, b: u8) -> bool
    ensures { result ≡ closes escaped b }
{
    !escaped && b == b'"'
}

/// Where the closing quote stands, if no backslash before it stands wrong.
pub(crate) fn closing_quote(bytes: &[u8]) -> Option<usize>
    ensures { result ≡ closing false bytes.now }
{
    let mut escaped = false;
    for (n, b) in bytes.iter().enumerate() {
        if is_astray(escaped, *b) {
            return None;
        }
        if is_closing(escaped, *b) {
            return Some(n);
        }
        escaped = is_escape(escaped, char::from(*b));
    }
    None
}

/// How many bytes are left when each backslash gives its place to the next byte.
pub(crate) fn plain_len(bytes: &[u8]) -> usize
    ensures { result ≡ length (plain false bytes.now) }
{
    // No `filter` and `count`: its closure would change `escaped`, and a proof knows nothing of what such a closure returned.
    let mut escaped = false;
    let mut n = 0;
    for b in bytes {
        escaped = is_escape(escaped, char::from(*b));
        if !escaped {
            n += 1;
        }
    }
    n
}
