//! A game that is read from a file, in one of the two forms in which games are
//! written: as a drawing, or as PGSolver has it.
#![tactic(auto)]

mod form;
mod read;
mod source;
mod unread;

pub use drawing::Kind;
pub use form::Form;
pub use read::{read_from, read_path, read_text_from, read_text_path};
pub use source::{Labels, Source};
pub use unread::{Refused, Unread};
