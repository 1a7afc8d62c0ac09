//! Why a call is refused.
ghost use Rattle.std.specs.Prelude.{◌≡◌};
ghost use Rattle.tokens.specs.Refusals.{number_of};

/// Why a call is refused. Where several reasons apply, the first of these is the answer.
#[derive(Clone, Copy, PartialEq, Eq, Debug)]
pub enum Refusal {
    /// The text has no bytes, or too many.
    TextSize,
    /// The steps are spent, and a token is there to be taken.
    StepsSpent,
    /// A byte outside the language, or an unknown word.
    UnknownToken,
    /// The tokens end inside a statement or a group.
    EndsInside,
    /// A token stands where the language has no place for it.
    Misplaced,
    /// A number, a dimension or a token code is out of its bounds.
    OutOfBounds,
    /// There is no such register, the value does not fit it, or its list is not there.
    NoPlace,
    /// The current group is another one.
    OtherGroup,
    /// The level is the highest, and a group should open.
    TooDeep,
    /// Too few words are free for tokens.
    NoWords,
    /// A save stack entry is needed, and none is free.
    NoEntry,
    /// The nodes of a new list are not free.
    NoNodes,
    /// The store has no cell left to fill.
    NoSpare,
    /// A line of the listing does not fit.
    NoLine,
}

impl Refusal {
    /// The number by which the refusal is known.
    pub fn number(self) -> u8
        ensures { result ≡ number_of self }
    {
        // Kept: one more than its place, and no `TextSize = 1`: who casts a refusal is answered with its place.
        self as u8 + 1
    }
}
