//! Groups: their kinds, and what closes each.
ghost use Rattle.std.specs.Prelude.{◌≡◌};
ghost use Rattle.tokens.specs.Groups.{kind_name, closed_by};

/// What a group is, by what opened it.
#[derive(Clone, Copy, PartialEq, Eq, Debug)]
pub enum GroupKind {
    /// `{`
    Simple,
    /// `\begingroup`
    SemiSimple,
    /// `\hbox{`
    Hbox,
    /// `\cell`
    Align,
}

/// A token that closes a group.
#[derive(Clone, Copy, PartialEq, Eq, Debug)]
pub enum Closer {
    /// `}`
    Brace,
    /// `\endgroup`
    EndGroup,
    /// `\endcell`
    EndCell,
}

/// A group: its kind, and the line at which it was opened, or 0.
// Kept: 0 for no line, and no Option: a group is opened at a line from 0 on, and of 0 the trace prints nothing.
#[derive(Clone, Copy, PartialEq, Eq, Debug)]
pub struct Group {
    pub kind: GroupKind,
    pub line: u16,
}

/// Whether a kind of group is closed by each of the closers, in their order.
#[derive(Clone, Copy)]
pub struct ClosedBy {
    pub closers: [bool; 3],
}

/// For each kind of group, in their order, what closes it.
// Kept: a table, and no `match`: which closer closes what stands in one place, row by row (a form that the library keeps).
pub const CLOSED_BY: [ClosedBy; 4] = [
    ClosedBy {
        closers: [true, false, false],
    },
    ClosedBy {
        closers: [false, true, false],
    },
    ClosedBy {
        closers: [true, false, false],
    },
    ClosedBy {
        closers: [false, false, true],
    },
];

impl GroupKind {
    /// The name that the trace prints.
    pub fn name(self) -> &'static [u8]
        ensures { result.now ≡ kind_name self }
    {
        match self {
            GroupKind::Simple => b"simple",
            GroupKind::SemiSimple => b"semi simple",
            GroupKind::Hbox => b"hbox",
            GroupKind::Align => b"align",
        }
    }

    /// Whether the closer closes a group of this kind.
    pub fn is_closed_by(self, closer: Closer) -> bool
        ensures { result ≡ closed_by self closer }
    {
        CLOSED_BY[self as usize].closers[closer as usize]
    }
}
