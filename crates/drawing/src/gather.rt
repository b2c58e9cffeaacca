//! The first pass: the names of the places, in the order of their lines.
ghost use Rattle.drawing.specs.Passes.{Named, Gathered};

use crate::kind::Kind;
use crate::names::Names;
use crate::refusal::Refusal;
use crate::row;
use std::alloc::Global;

/// Adds the name of the place that the line holds, if it holds one.
fn name_line(
    heap: Global,
    names: &mut Names,
    number: usize,
    line: &str,
    kind: Kind,
) -> Result<(), Refusal>
    ensures { Named kind number line.now names.old names.new result }
{
    let Some(row) = row::read_line(line, kind).map_err(|fault| fault.on(number))? else {
        return Ok(());
    };
    names.add(number, row.name.to_name(heap)?)
}

/// The names of all places.
pub(crate) fn gather_names(heap: Global, text: &str, kind: Kind) -> Result<Names, Refusal>
    ensures { Gathered kind text.now result }
{
    let mut names = Names::new(heap, text);
    for (number, line) in (1..).zip(text.split('\n')) {
        name_line(heap, &mut names, number, line, kind)?;
    }
    Ok(names)
}
