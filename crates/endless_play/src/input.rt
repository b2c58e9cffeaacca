//! What is read: a game from a file, and the person's lines.
use crate::fault::Fault;
use crate::wish::NoWish;
use forms::{Form, Kind, Source, Unread, read_path};
use std::alloc::{AllocError, Global};
use std::io;
use std::io::{BufRead, Read};

/// The most bytes of a line that the person types.
const MOST_LINE: usize = 256;

/// The game that stands in `file`: in the form that is asked for, or else in
/// the one that the file's name tells. Where it is drawn, it is of this kind.
// In both programs that read what is named on the command line: each has its own
// `Fault`, and reading itself stands in `forms`.
pub(crate) fn source(
    rt: &HostRuntime,
    file: &str,
    form: Option<Form>,
    kind: Kind,
) -> Result<Source, Fault> {
    let heap = rt.alloc();
    match read_path(rt, file, form.unwrap_or(Form::of_path(file)), kind) {
        Ok(source) => Ok(source),
        Err(Unread::Memory) => Err(Fault::Memory),
        Err(why) => Err(Fault::Unread {
            file: String::from_str(heap, file)?,
            why,
        }),
    }
}

/// The next line, without its end, or why it is none; `None` where the input
/// has ended. Of one that is too long no more is held than a line may have.
pub(crate) fn next_line<R: BufRead>(
    heap: Global,
    input: &mut R,
) -> Result<Option<Result<String, NoWish>>, Fault> {
    let mut bytes = Vec::new(heap);
    let most = MOST_LINE as u64 + 1;
    if input.by_ref().take(most).read_until(b'\n', &mut bytes)? == 0 {
        return Ok(None);
    }
    if bytes.last() == Some(&b'\n') {
        let _ = bytes.pop();
    } else if bytes.len() > MOST_LINE {
        input.skip_until(b'\n')?;
        return Ok(Some(Err(NoWish::TooLong)));
    }
    Ok(Some(String::from_utf8(bytes).map_err(|_| NoWish::NotText)))
}
