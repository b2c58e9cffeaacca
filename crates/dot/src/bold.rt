//! Which moves of a picture are bold.
ghost use Rattle.std.specs.Prelude.{◌≡◌};
ghost use Rattle.dot.specs.Pictures.{told, mark_words};

/// Which moves of a picture are bold.
#[derive(Clone, Copy)]
pub enum Bold<'a> {
    /// Those of the winner's plan, by the answer.
    Plan,
    /// Those that are marked, in the words that `moves::winning_moves` writes:
    /// behind a word for each place one for each move, 1 where it is bold. A
    /// move behind the last word is not.
    Marks(&'a [u32]),
}

impl<'a> Bold<'a> {
    /// What the picture says that they are.
    pub(crate) fn told(self) -> &'static str
        ensures { result.now ≡ told self.entry }
    {
        match self {
            Bold::Plan => "the winner's plan",
            Bold::Marks(_) => "each move that some winning plan makes",
        }
    }

    /// The words that mark them: none, where the answer says it.
    pub(crate) fn marks(self) -> &'a [u32]
        ensures { result.now ≡ mark_words self.entry }
    {
        match self {
            Bold::Plan => &[],
            Bold::Marks(marks) => marks,
        }
    }
}
