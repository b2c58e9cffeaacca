//! The components of a view: the largest sets of places among which one can
//! go from each to each.
ghost use Rattle.std.specs.Prelude.{◌≡◌, ◌+◌, ◌≤◌, IfSome, IsTrue, OnOk, vec_len};
ghost use Rattle.allplans.specs.Walks.{unmet, IsNewAt, unmet_one};

use crate::fault::Fault;
use crate::view::View;
use std::alloc::Global;

/// The number of the component of each place, from 1; 0 outside the view. A
/// move never goes to a component of a greater number.
pub fn components(heap: Global, view: View) -> Result<Vec<u32>, Fault> {
    let places = view.claimed.places.len();
    let mut walk = Walk {
        view,
        marks: vec![in heap; Mark::New; places]?,
        waiting: Vec::new(heap),
        path: Vec::new(heap),
        met: 0,
        closed: 0,
    };
    for start in 0..places {
        if view.has(start) && walk.is_new(start) {
            walk.go(start)?;
        }
    }
    let marks = walk.into_marks();
    let components = marks.iter().map(|mark| mark.component()).collect(heap)?;
    Ok(components)
}

/// What a walk knows of a place.
#[derive(Clone, Copy, PartialEq, Eq, Debug)]
enum Mark {
    /// It was not met.
    New,
    /// It was met, as the `order`-th, and its component is not known; an open
    /// place that was met as the `low`-th is known to be reached from it.
    Open { order: u32, low: u32 },
    /// It is of this component.
    Closed(u32),
}

impl Mark {
    fn component(self) -> u32 {
        match self {
            Mark::Closed(component) => component,
            Mark::New | Mark::Open { .. } => 0,
        }
    }
}

/// Where a walk stands on its way: at a place, behind so many of its moves.
// A number and no iterator, which takes 8 bytes more, for each place of a long way.
#[derive(Clone, Copy)]
struct Step {
    place: usize,
    looked: usize,
}

/// A walk through a view, each move once (Tarjan 1972).
// One of its own: `allplans` shares nothing with the solver but words (docs/AGREE.md).
#[derive(Drop)]
struct Walk<'a> {
    view: View<'a>,
    marks: Vec<Mark>,
    /// The places that were met and have no component yet.
    waiting: Vec<usize>,
    /// The way from the start to where the walk stands.
    path: Vec<Step>,
    met: u32,
    closed: u32,
}

impl Walk<'_> {
    /// What is known of each place; the way and what waits are let go.
    fn into_marks(self) -> Vec<Mark> {
        self.marks
    }

    fn is_new(&self, place: usize) -> bool
        ensures { IsTrue result → IsNewAt self.now.marks.items place }
    {
        self.marks.get(place) == Some(&Mark::New)
    }

    /// Notes what is known of a place that was met.
    fn mark(&mut self, place: usize, mark: Mark)
        requires { unmet_one mark ≡ 0 }
        ensures waiting { self.new.waiting ≡ self.old.waiting }
        ensures path { self.new.path ≡ self.old.path }
        ensures unmet { unmet self.new.marks.items ≤ unmet self.old.marks.items }
    {
        if place < self.marks.len() {
            self.marks[place] = mark;
        }
    }

    /// Walks from `start` to all that can be reached and was not yet met.
    fn go(&mut self, start: usize) -> Result<(), Fault>
        requires { IsNewAt self.old.marks.items start }
    {
        self.meet(start)?;
        while let Some(mut step) = self.path.pop() {
            match self.look(&mut step) {
                Some(to) => {
                    self.path.push(step)?;
                    self.meet(to)?;
                }
                None => self.leave(step.place),
            }
        }
        Ok(())
    }

    /// Comes to a place for the first time.
    fn meet(&mut self, place: usize) -> Result<(), Fault>
        requires { IsNewAt self.old.marks.items place }
        ensures path { OnOk result (vec_len self.new.path ≡ vec_len self.old.path + 1) }
        ensures unmet { OnOk result (unmet self.new.marks.items + 1 ≡ unmet self.old.marks.items) }
    {
        self.met = self.met.saturating_add(1);
        self.marks[place] = Mark::Open {
            order: self.met,
            low: self.met,
        };
        self.waiting.push(place)?;
        self.path.push(Step { place, looked: 0 })?;
        Ok(())
    }

    /// Looks along the moves that are left, up to one to a place that was not
    /// met.
    fn look(&mut self, step: &mut Step) -> Option<usize>
        ensures path { self.new.path ≡ self.old.path }
        ensures unmet { unmet self.new.marks.items ≤ unmet self.old.marks.items }
        ensures new { IfSome result (λ to. IsNewAt self.new.marks.items to) }
    {
        let left = self.view.moves(step.place).get(step.looked..);
        for (passed, to) in left.unwrap_or(&[]).iter().enumerate() {
            let to = *to as usize;
            if self.view.has(to) {
                match self.marks.get(to).copied() {
                    Some(Mark::New) => {
                        step.looked = step.looked.saturating_add(passed + 1);
                        return Some(to);
                    }
                    Some(Mark::Open { order, .. }) => self.lower(step.place, order),
                    Some(Mark::Closed(_)) | None => {}
                }
            }
        }
        None
    }

    /// Goes back from a place all of whose moves were looked along.
    fn leave(&mut self, place: usize)
        ensures path { self.new.path ≡ self.old.path }
        ensures unmet { unmet self.new.marks.items ≤ unmet self.old.marks.items }
    {
        let Some(Mark::Open { order, low }) = self.marks.get(place).copied() else {
            return;
        };
        if low == order {
            self.close(place);
        } else if let Some(before) = self.path.last().map(|step| step.place) {
            self.lower(before, low);
        }
    }

    /// Makes a component of the open places that were met from `place` on.
    fn close(&mut self, place: usize)
        ensures path { self.new.path ≡ self.old.path }
        ensures unmet { unmet self.new.marks.items ≤ unmet self.old.marks.items }
    {
        self.closed = self.closed.saturating_add(1);
        while let Some(member) = self.waiting.pop() {
            self.mark(member, Mark::Closed(self.closed));
            if member == place {
                break;
            }
        }
    }

    /// Notes that an open place of this order is reached from `place`.
    fn lower(&mut self, place: usize, reached: u32)
        ensures path { self.new.path ≡ self.old.path }
        ensures unmet { unmet self.new.marks.items ≤ unmet self.old.marks.items }
    {
        if let Some(Mark::Open { order, low }) = self.marks.get(place).copied() {
            self.mark(
                place,
                Mark::Open {
                    order,
                    low: reached.min(low),
                },
            );
        }
    }
}
