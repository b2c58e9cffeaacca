//! Games from files and from standard input.
use crate::fault::Fault;
use forms::{Form, Kind, Source, Unread, read_from, read_path};
use std::alloc::AllocError;

/// The game that stands in `file`, or on standard input where that is `-`: in
/// the form that is asked for, or else in the one that the file's name tells.
/// Where it is drawn, it is of this kind.
// In both programs that read what is named on the command line: each has its own
// `Fault`, and reading itself stands in `forms`.
pub(crate) fn source(
    rt: &HostRuntime,
    file: &str,
    form: Option<Form>,
    kind: Kind,
) -> Result<Source, Fault> {
    let heap = rt.alloc();
    match read(rt, file, form.unwrap_or(Form::of_path(file)), kind) {
        Ok(source) => Ok(source),
        Err(Unread::Memory) => Err(Fault::Memory),
        Err(why) => Err(Fault::Unread {
            file: String::from_str(heap, shown(file))?,
            why,
        }),
    }
}

/// How a file is named in what is printed.
pub(crate) fn shown(file: &str) -> &str {
    if file == "-" { "standard input" } else { file }
}

fn read(rt: &HostRuntime, file: &str, form: Form, kind: Kind) -> Result<Source, Unread> {
    if file == "-" {
        read_from(rt.alloc(), rt.stdin(), form, kind)
    } else {
        read_path(rt, file, form, kind)
    }
}
