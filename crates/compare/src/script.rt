//! Sequences of calls, drawn by chance that is the same in every run.
ghost use Rattle.std.specs.Prelude.{◌<◌};

use engine::target::Scope;
use tokens::group::{Group, GroupKind};

/// One call, without its table.
#[derive(Clone, Copy)]
pub enum Step {
    Open(Group),
    Close(GroupKind),
    Unwind(u8),
    Assign {
        scope: Scope,
        register: u8,
        number: i32,
    },
    Hold(u16),
}

/// A generator of numbers.
// Kept: the kit's generators draw other numbers, and with other sequences the program prints another count.
#[derive(Drop)]
pub struct Dice {
    state: u64,
}

impl Dice {
    /// A generator that draws the same numbers for the same seed, which is not 0.
    pub(crate) fn new(seed: u64) -> Dice {
        Dice { state: seed }
    }

    /// A number below the given one.
    pub(crate) fn below(&mut self, n: u32) -> u32
        requires { 0 < n }
        ensures { result < n }
    {
        let a = self.state ^ (self.state >> 12);
        let b = a ^ (a << 25);
        self.state = b ^ (b >> 27);
        let high = self.state.wrapping_mul(2_685_821_657_736_338_717) >> 33;
        (high % u64::from(n)) as u32
    }

    /// One of the four kinds of group.
    fn kind(&mut self) -> GroupKind {
        match self.below(4) {
            0 => GroupKind::Simple,
            1 => GroupKind::SemiSimple,
            2 => GroupKind::Hbox,
            _ => GroupKind::Align,
        }
    }

    /// A group, opened at one of few lines.
    fn group(&mut self) -> Group {
        Group {
            kind: self.kind(),
            line: self.below(100) as u16,
        }
    }

    /// An assignment to one of few registers, so that they meet again; one in four is global.
    fn assignment(&mut self) -> Step {
        let scope = if self.below(4) == 0 {
            Scope::Global
        } else {
            Scope::Local
        };
        Step::Assign {
            scope,
            register: (self.below(12) * 23) as u8,
            number: self.below(7) as i32 - 3,
        }
    }

    /// The next call.
    pub(crate) fn step(&mut self) -> Step {
        match self.below(40) {
            0..=7 => Step::Open(self.group()),
            8..=19 => Step::Close(self.kind()),
            20 => Step::Unwind(self.below(6) as u8),
            21..=23 => Step::Hold(self.below(400) as u16),
            _ => self.assignment(),
        }
    }
}
