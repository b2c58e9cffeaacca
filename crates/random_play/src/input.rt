//! The game from its file.
use crate::fault::Fault;
use forms::{Form, Kind, Source, read_path};

/// The game that stands in `file`, in the form that its name tells.
pub(crate) fn source(rt: &HostRuntime, file: &str) -> Result<Source, Fault> {
    Ok(read_path(rt, file, Form::of_path(file), Kind::Endless)?)
}
