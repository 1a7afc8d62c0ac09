//! Where an assignment goes.
ghost use Rattle.std.specs.Prelude.{◌≡◌, not, ◌&&◌, if◌then◌else◌, ◌==◌, nat_lt};
ghost use Rattle.engine.specs.declared.fault.Cause.TheVariants.{Place};
ghost use Rattle.engine.specs.Faults.{fault_at};
ghost use Rattle.engine.specs.Scopes.{is_global};

use crate::fault::{Cause, EngineFault};
use crate::nesting::Nesting;
use tokens::refusal::Refusal;

/// How long an assignment holds.
#[derive(Clone, Copy, PartialEq, Eq, Debug)]
pub enum Scope {
    /// Until the current group closes.
    Local,
    /// In all groups.
    Global,
}

/// An assignment that is to be made: in which group, for how long, and to which place.
#[derive(Clone, Copy)]
pub(crate) struct Target {
    pub(crate) nesting: Nesting,
    pub(crate) scope: Scope,
    pub(crate) place: u32,
}

impl Target {
    /// The level at which the value is put.
    pub(crate) fn level(&self) -> u8
        ensures { result ≡ (if is_global self.now.scope then 1 else self.now.nesting.level) }
    {
        match self.scope {
            Scope::Local => self.nesting.level,
            Scope::Global => 1,
        }
    }

    /// Whether the old cell, of the given level, is saved.
    pub(crate) fn saves_old(&self, old: u8) -> bool
        ensures { result ≡ (not (is_global self.now.scope) && (nat_lt 1 self.now.nesting.level && not (old == self.now.nesting.level))) }
    {
        let level = self.nesting.level;
        self.scope == Scope::Local && level > 1 && old != level
    }

    /// The fault of a refusal.
    pub(crate) fn refused(&self, refusal: Refusal) -> EngineFault
        ensures { result ≡ fault_at (Place refusal self.now.place) self.now.nesting }
    {
        let place = self.place;
        EngineFault {
            cause: Cause::Place { refusal, place },
            nesting: self.nesting,
        }
    }
}
