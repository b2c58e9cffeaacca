//! A play goes on, and choices are taken back.
ghost use Rattle.std.specs.Prelude.{◌≡◌, ◌-◌, ◌<◌, ◌≤◌, length, take, IfOk, OnOk, OnErr};
ghost use Rattle.std.specs.VecDeque.{deque_len};
ghost use Rattle.playing.specs.Windows.{HeaviestIs, latest};
ghost use Rattle.playing.specs.Trails.{Started, Came, Chosen, Back, LeftAt};

use crate::trail::{Choice, MOST_CHOICES, MOST_KEPT, Trail};
use crate::window;
use crate::window::Window;
use std::alloc::{AllocError, Global};
use std::collections::VecDeque;

impl Trail {
    /// A play that stands at its first place, which has this weight.
    pub fn start(heap: Global, weight: u8) -> Result<Trail, AllocError>
        ensures { IfOk result (Started weight) }
    {
        let mut weights = VecDeque::new(heap);
        let mut window = Window::new(heap)?;
        weights.push_back(weight)?;
        window.push(weight);
        Ok(Trail {
            weights,
            window,
            choices: VecDeque::new(heap),
            made: 0,
        })
    }

    /// A move to a place of this weight.
    pub fn come(&mut self, weight: u8) -> Result<(), AllocError>
        ensures came { OnOk result (Came weight self.old self.new) }
        ensures failed { OnErr result (self.new.made ≡ self.old.made) }
        ensures choices { self.new.choices ≡ self.old.choices }
    {
        make_room(&mut self.weights, MOST_KEPT);
        self.weights.push_back(weight)?;
        self.window.push(weight);
        self.made = self.made.saturating_add(1);
        Ok(())
    }

    /// A choice is about to be made at this place.
    pub fn choose(&mut self, place: u32) -> Result<(), AllocError>
        ensures weights { self.new.weights ≡ self.old.weights }
        ensures made { self.new.made ≡ self.old.made }
        ensures chosen { OnOk result (Chosen place self.old self.new) }
        ensures failed { OnErr result (self.new.choices ≡ latest 999 self.old.choices) }
    {
        make_room(&mut self.choices, MOST_CHOICES);
        let made = self.made;
        self.choices.push_back(Choice { place, made })?;
        Ok(())
    }

    /// Back to before the last choice: the place where it was made. `None`
    /// where no choice is left to take back, or where too much came after it
    /// to know the last 1,000 weights of before: such a choice is forgotten.
    pub fn back(&mut self, heap: Global) -> Result<Option<u32>, AllocError>
        ensures back { IfOk result (Back self.old self.new) }
        ensures choices { self.new.choices ≡ take (length self.old.choices - 1) self.old.choices }
        ensures failed { OnErr result (self.new.weights ≡ self.old.weights) }
        ensures made { OnErr result (self.new.made ≡ self.old.made) }
    {
        let Some(choice) = self.choices.pop_back() else {
            return Ok(None);
        };
        let Some(left) = self.left_at(choice.made) else {
            return Ok(None);
        };
        self.cut(heap, left)?;
        self.made = choice.made;
        Ok(Some(choice.place))
    }

    /// How many weights are left when so many moves were made, if these are
    /// all or at least 1,000.
    fn left_at(&self, made: u64) -> Option<usize>
        ensures { LeftAt (length self.now.weights) self.now.made made result }
    {
        let kept = self.weights.len() as u64;
        let taken = self.made.checked_sub(made)?;
        let left = kept.checked_sub(taken)?;
        if left < window::MOST as u64 && left <= made {
            return None;
        }
        Some(left as usize)
    }

    /// Only the first weights are left, so many of them.
    fn cut(&mut self, heap: Global, left: usize) -> Result<(), AllocError>
        ensures kept { OnOk result (self.new.weights ≡ take left self.old.weights) }
        ensures failed { OnErr result (self.new.weights ≡ self.old.weights) }
        ensures made { self.new.made ≡ self.old.made }
        ensures choices { self.new.choices ≡ self.old.choices }
    {
        let mut window = Window::new(heap)?;
        self.weights.truncate(left);
        let (front, rest) = self.weights.as_slices();
        window.push_all(front);
        window.push_all(rest);
        self.window = window;
        Ok(())
    }

    /// How many moves were made and not taken back.
    pub fn made(&self) -> u64
        ensures { result ≡ self.now.made }
    {
        self.made
    }

    /// How many places the window is over.
    pub fn len(&self) -> usize
        ensures { result ≡ length (latest 1000 self.now.weights) }
    {
        self.window.len()
    }

    /// The heaviest weight among the last 1,000 places, or all where these
    /// are fewer.
    pub fn heaviest(&self) -> Option<u8>
        ensures { HeaviestIs (latest 1000 self.now.weights) result }
    {
        self.window.heaviest()
    }
}

/// Forgets the oldest where as many are kept as may be.
fn make_room<T: Drop>(kept: &mut VecDeque<T>, most: usize)
    requires some { 0 < most }
    requires few { deque_len kept.old ≤ most }
    ensures room { deque_len kept.new < most }
    ensures kept { kept.new.items ≡ latest (most - 1) kept.old.items }
{
    if kept.len() >= most {
        let _ = kept.pop_front();
    }
}
