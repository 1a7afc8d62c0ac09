//! The part of all places that a subtree covers.
ghost use Rattle.std.specs.Prelude.{◌≡◌, ◌+◌, ◌≤◌};
ghost use Rattle.sparse.specs.Trees.{width};

use tokens::limits::MAX_REACH;

/// How many levels a tree of all places has.
const LEVELS: u32 = 18;
/// How many places those are.
pub(crate) const PLACES: u32 = MAX_REACH as u32;

/// A branch of a node, and the half of the places that it covers: those before the middle are to the left.
#[derive(Clone, Copy)]
pub(crate) enum Side {
    Left,
    Right,
}

/// The places from `low` to before `end`, for a subtree of so many levels, which has room for as many as its span.
#[derive(Clone, Copy)]
pub(crate) struct Part {
    level: u32,
    span: u32,
    low: u32,
    end: u32,
    ghost wide: { span ≡ width level },
    ghost fits: { end ≤ low + span },
}

impl Part {
    ghost use Rattle.std.specs.Prelude.{◌-◌};
    ghost use Rattle.tokens.specs.Limits.{top_reach};
    ghost use Rattle.sparse.specs.Parts.{InPart, IsHalf, IsWhole, OnSide};

    /// All places below the reach.
    pub(crate) fn whole(reach: u32) -> Self
        requires { reach ≤ top_reach }
        ensures { IsWhole reach result }
    {
        Part {
            level: LEVELS,
            span: PLACES,
            low: 0,
            end: reach,
        }
    }

    /// Where the upper half begins.
    #[tactic(auto, using(crate::proofs::Widths::width_half))]
    pub(crate) fn middle(self) -> u32
        ensures { result ≡ self.end - width (self.level - 1) }
    {
        self.end.saturating_sub(self.span / 2)
    }

    /// The side of a place.
    pub(crate) fn side(self, place: u32) -> Side
        ensures { OnSide result place (self.end - width (self.level - 1)) }
    {
        if place < self.middle() {
            Side::Left
        } else {
            Side::Right
        }
    }

    /// The half at a side, as far as it lies past a place.
    #[tactic(auto, using(crate::proofs::Widths::width_half))]
    pub(crate) fn half(self, side: Side, place: u32) -> Self
        requires { InPart self place }
        ensures { IsHalf side place self result }
    {
        let next = place + 1;
        let middle = self.middle();
        let (low, end) = match side {
            Side::Left => (next, middle),
            Side::Right => (next.max(middle), self.end),
        };
        Part {
            level: self.level - 1,
            span: self.span / 2,
            low,
            end,
        }
    }
}
