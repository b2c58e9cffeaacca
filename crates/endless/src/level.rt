//! The recursion over weights without closed parts: who wins each place of a subgame, and with which moves.
ghost use Rattle.std.specs.Prelude.{ℕ};
ghost use Rattle.endless.specs.Says.{side, goes};
ghost use Rattle.endless.specs.Sets.{Out};
ghost use Rattle.endless.specs.Subgames.{Subgame, Solves};
ghost use Rattle.endless.specs.Bits.{members};
ghost use Rattle.endless.specs.Pulling.{Unchanged};
ghost use Rattle.endless.specs.Desks.{SameDesk};
ghost use Rattle.endless.specs.Levels.{Room};

use crate::bits;
use crate::by_parts::level_by_parts;
use crate::desk::Desk;
use crate::escapes::count_ways;
use crate::graph::Graph;
use crate::order::Effort;

/// Solves a subgame in which all weights are below `bound`: writes for each
/// place who wins it, and a move. The smaller games stand in `rest`, one set
/// for each weight that is left. It is the recursion by closed parts where no
/// words are spare for lists, so that each part is all of its subgame: for
/// callers with a subgame of their own, who keep no lists of its places, do not
/// know how many it has, and have no words to lend but its sets.
pub fn level(graph: &Graph, bound: u32, own: &mut [u32], rest: &mut [u32], desk: &mut Desk)
    requires room { Room graph.now bound own.old rest.old desk.old }
    ensures same { SameDesk desk.old desk.new }
    ensures frame { (n : ℕ) → Out (members own.old) n → Unchanged desk.old.out.now desk.new.out.now n }
    ensures solves { Subgame graph.now (members own.old) → Solves graph.now (members own.old) (side desk.new.out.now) (goes desk.new.out.now) }
{
    let many = bits::count(own) as usize;
    let (spare, sets) = rest.split_at_mut(0);
    count_ways(graph, None, own, desk.escapes);
    let mut effort = Effort::new(graph.len());
    level_by_parts(
        graph,
        bound,
        many,
        own,
        None,
        sets,
        spare,
        desk,
        &mut effort,
    );
}
