//! Reading a game from a file, or from anything else that gives bytes.
ghost use Rattle.std.specs.Prelude.{◌≡◌, ℕ, ◌+◌, ◌≤◌, List, length, take, IfSome, IfOk, IfErr, string_bytes};
ghost use Rattle.forms.specs.Forms.{limit};
ghost use Rattle.forms.specs.Shown.{Shows, LabelledAs, Says, Tells, TellsNoText};

use crate::form::Form;
use crate::source::{Labels, Source};
use crate::unread::{Refused, Unread};
use drawing::shown::shown_line;
use drawing::{Drawing, Kind};
use pgsolver::Listing;
use std::alloc::{AllocError, Global};
use std::fs::File;
use std::io::Read;

/// The bytes that a reader still has, up to one more than `most`, as text. Where
/// as many stand there as can be told, it is want of memory.
pub fn read_text_from<R: Read + Drop>(
    heap: Global,
    reader: R,
    most: usize,
) -> Result<String, Unread>
    ensures text { IfOk result (λ s. IfSome (R.remaining reader) (λ bytes. string_bytes s ≡ take (most + 1) bytes)) }
    ensures wrong { IfErr result (λ e. IfSome (R.remaining reader) (λ bytes. TellsNoText (take (most + 1) bytes) e)) }
{
    let most = most.checked_add(1).ok_or(Unread::Memory)?;
    let mut bytes = Vec::with_capacity(heap, most)?;
    reader.take(most as u64).read_to_end(&mut bytes)?;
    String::from_utf8(bytes).map_err(|_| Unread::NotText)
}

/// The line that a refusal is about, as it is shown under it.
fn refused_line(heap: Global, text: &str, why: &Refused) -> Result<Option<String>, AllocError> {
    match why.line() {
        Some(number) => Ok(Some(shown_line(heap, text, number)?)),
        None => Ok(None),
    }
}

/// The game that a text shows, and what it calls the places.
fn source_of(heap: Global, text: &str, form: Form, kind: Kind) -> Result<Source, Refused>
    ensures shows { IfOk result (λ s. Shows kind text.now s) }
    ensures form { IfOk result (λ s. LabelledAs form s.labels) }
    ensures short { IfOk result (λ s. length text.now ≤ limit form) }
    ensures says { IfErr result (λ e. Says kind text.now e) }
{
    match form {
        Form::Drawing => {
            let Drawing { words, names } = drawing::read_as(heap, text, kind)?;
            let labels = Labels::Names(names);
            Ok(Source { words, labels })
        }
        Form::Pgsolver => {
            let Listing { words, places } = pgsolver::read(heap, text.as_bytes())?;
            let labels = Labels::Nodes(places);
            Ok(Source { words, labels })
        }
    }
}

/// The game that a text shows, or why it shows none, with the refused line.
fn read_shown(heap: Global, text: &str, form: Form, kind: Kind) -> Result<Source, Unread>
    ensures shows { IfOk result (λ s. Shows kind text.now s) }
    ensures form { IfOk result (λ s. LabelledAs form s.labels) }
    ensures short { IfOk result (λ s. length text.now ≤ limit form) }
    ensures tells { IfErr result (λ e. Tells kind text.now e) }
{
    match source_of(heap, text, form, kind) {
        Ok(source) => Ok(source),
        Err(why) => {
            let line = refused_line(heap, text, &why)?;
            Err(Unread::Refused { why, line })
        }
    }
}

/// Reads a game from a file or the like: the bytes that it still has, up to one more than a text of the form may have. Where it is drawn, it is a game of this kind; in PGSolver's form each place has a move.
pub fn read_from<R: Read + Drop>(
    heap: Global,
    reader: R,
    form: Form,
    kind: Kind,
) -> Result<Source, Unread>
    // What is read is a game that some text shows.
    ensures game { IfOk result (λ s. (text : List ℕ) × Shows kind text s) }
    ensures form { IfOk result (λ s. LabelledAs form s.labels) }
    // Of a reader whose bytes are known, it is the game that these show, or the error tells of them.
    ensures shows { IfOk result (λ s. IfSome (R.remaining reader) (λ bytes. Shows kind bytes s)) }
    ensures tells { IfErr result (λ e. IfSome (R.remaining reader) (λ bytes. Tells kind (take (limit form + 1) bytes) e)) }
{
    let text = read_text_from(heap, reader, form.most())?;
    read_shown(heap, text.as_str(), form, kind)
}

/// The text that stands in the file of this path, up to one byte more than `most`.
pub fn read_text_path(rt: &HostRuntime, path: &str, most: usize) -> Result<String, Unread> {
    read_text_from(rt.alloc(), File::open(rt, path)?, most)
}

/// Reads the game that stands in the file of this path.
pub fn read_path(rt: &HostRuntime, path: &str, form: Form, kind: Kind) -> Result<Source, Unread>
    // What is read is a game that some text shows.
    ensures game { IfOk result (λ s. (text : List ℕ) × Shows kind text s) }
    ensures form { IfOk result (λ s. LabelledAs form s.labels) }
{
    read_from(rt.alloc(), File::open(rt, path)?, form, kind)
}

#[cfg(test)]
mod tests {
    use super::*;
    use std::test::Fail;

    // What stands in a text: its words, and what its places are called.
    fn names(heap: Global, text: &str) -> Result<(Vec<u32>, Vec<String>), Fail> {
        let Ok(Source { words, labels }) = read_from(
            heap,
            text.as_bytes(),
            Form::Drawing,
            Kind::Endless,
        ) else {
            return Err(Fail::new("no drawing"));
        };
        match labels {
            Labels::Names(names) => Ok((words, names)),
            Labels::Nodes(_) => Err(Fail::new("nodes")),
        }
    }

    #[test]
    fn a_drawing_is_read_from_bytes(rt: HostRuntime) -> Result<(), Fail> {
        let (words, names) = names(rt.alloc(), "a 0 1: b\nb 1 2: a")?;
        assert_eq!(rt; names.len(), 2);
        assert_eq!(rt; words.as_slice(), [2, 0, 1, 1, 1, 1, 2, 1, 0].as_slice());
        assert_eq!(rt; names[1].as_str(), "b");
        Ok(())
    }

    // What is said of bytes that are no game in the form.
    fn unread(heap: Global, bytes: &[u8], form: Form) -> Result<String, Fail> {
        match read_from(heap, bytes, form, Kind::Endless) {
            Ok(_) => Err(Fail::new("read")),
            Err(why) => Ok(why.to_string(heap)?),
        }
    }

    #[test]
    fn bytes_that_are_no_drawing_are_told(rt: HostRuntime) -> Result<(), Fail> {
        let heap = rt.alloc();
        let drawing = Form::Drawing;
        assert_eq!(rt;
            unread(heap, b"a 0 1: a\xff", drawing)?.as_str(),
            "not UTF-8"
        );
        assert_eq!(rt;
            unread(heap, b"# one\r\na 0 256: a\r\n", drawing)?.as_str(),
            "line 2: the weight is not a number below 256\n  a 0 256: a"
        );
        assert_eq!(rt;
            unread(heap, b"", drawing)?.as_str(),
            "the drawing has no places; write a line NAME SIDE WEIGHT: NAME NAME .. for each"
        );
        let Err(why) = read_from(heap, b"a 0 1: b".as_slice(), drawing, Kind::Endless) else {
            return Err(Fail::new("read"));
        };
        let Unread::Refused { why, line } = why else {
            return Err(Fail::new("another answer"));
        };
        let Some(line) = line else {
            return Err(Fail::new("no line"));
        };
        assert_eq!(rt; line.as_str(), "a 0 1: b");
        let Refused::Drawing(refusal) = why else {
            return Err(Fail::new("another form"));
        };
        match refusal {
            drawing::Refusal::Unknown { line: 1, name } => assert_eq!(rt; name.as_str(), "b"),
            _ => return Err(Fail::new("another refusal")),
        }
        Ok(())
    }

    #[test]
    fn nodes_are_read_from_bytes(rt: HostRuntime) -> Result<(), Fail> {
        let text = "parity 7;\r\n7 3 1 7,2 \"up\";\r\n2 0 0 7;";
        let Ok(source) = read_from(rt.alloc(), text.as_bytes(), Form::Pgsolver, Kind::Endless)
        else {
            return Err(Fail::new("no game"));
        };
        assert_eq!(rt;
            source.words.as_slice(),
            [2, 1, 3, 2, 0, 1, 0, 0, 1, 0].as_slice()
        );
        let nodes = source.labels.into_nodes(rt.alloc())?;
        assert_eq!(rt; nodes.len(), 2);
        assert_eq!(rt; (nodes[0].id, nodes[1].id), (7, 2));
        assert_eq!(rt; nodes[0].name.as_slice(), b"up".as_slice());
        assert!(rt; nodes[1].name.is_empty());
        Ok(())
    }

    #[test]
    fn bytes_that_are_no_nodes_are_told(rt: HostRuntime) -> Result<(), Fail> {
        let heap = rt.alloc();
        let form = Form::Pgsolver;
        assert_eq!(rt;
            unread(heap, b"0 0 0 0 \"\xff\";", form)?.as_str(),
            "not UTF-8"
        );
        assert_eq!(rt;
            unread(heap, b"0 0 0 0;\n1 0 2 0;", form)?.as_str(),
            "line 2: the owner is neither 0 nor 1; write ID PRIORITY OWNER SUCC,SUCC,.. \"NAME\";\n  1 0 2 0;"
        );
        assert_eq!(rt;
            unread(heap, b"", form)?.as_str(),
            "there are no nodes; write ID PRIORITY OWNER SUCC,SUCC,.. \"NAME\"; for each"
        );
        Ok(())
    }

    #[test]
    fn names_of_a_drawing_become_nodes(rt: HostRuntime) -> Result<(), Fail> {
        let heap = rt.alloc();
        let (_, names) = names(heap, "a 0 1: b\nb 1 2: a")?;
        let nodes = Labels::Names(names).into_nodes(heap)?;
        assert_eq!(rt; nodes.len(), 2);
        assert_eq!(rt; (nodes[0].id, nodes[1].id), (0, 1));
        assert_eq!(rt; nodes[1].name.as_slice(), b"b".as_slice());
        Ok(())
    }

    #[test]
    fn the_ending_tells_the_form(rt: HostRuntime) -> Result<(), Fail> {
        assert_eq!(rt; Form::of_path("games/three.pg"), Form::Pgsolver);
        assert_eq!(rt; Form::of_path("games/three.draw"), Form::Drawing);
        assert_eq!(rt; Form::of_path("pg"), Form::Drawing);
        Ok(())
    }
}
