//! Why a call is refused, and where.
ghost use Rattle.std.specs.Prelude.{◌≡◌};
ghost use Rattle.engine.specs.declared.fault.Cause.TheVariants.{Store, Call};
ghost use Rattle.engine.specs.Faults.{cause_refusal, raised_at, fault_at};

use crate::nesting::Nesting;
use stores::fault::StoreFault;
use tokens::refusal::Refusal;

/// Why a call is refused.
#[derive(Clone, Copy, PartialEq, Eq, Debug)]
pub enum Cause {
    /// The store's own fault, whole.
    Store(StoreFault),
    /// An assignment to the place is refused.
    Place { refusal: Refusal, place: u32 },
    /// Any other refusal.
    Call(Refusal),
}

/// A refused call: why, and in which group.
#[derive(Clone, Copy, PartialEq, Eq, Debug)]
pub struct EngineFault {
    pub cause: Cause,
    pub nesting: Nesting,
}

/// A store's fault with the group in which it arose.
// Kept: a type of its own for the way up, so that `?` raises the one fault to the other by `From` (a form that the library keeps).
#[derive(Clone, Copy, PartialEq, Eq, Debug)]
pub struct InGroup {
    pub fault: StoreFault,
    pub nesting: Nesting,
}

impl From<InGroup> for EngineFault {
    ghost from_gives = { λ a r. r ≡ fault_at (Store a.fault) a.nesting };

    fn from(a: InGroup) -> EngineFault {
        EngineFault {
            cause: Cause::Store(a.fault),
            nesting: a.nesting,
        }
    }
}

/// A store's answer, with the group added to its fault.
pub fn raised<T>(answer: Result<T, StoreFault>, nesting: Nesting) -> Result<T, InGroup>
    ensures { result ≡ raised_at answer nesting }
{
    answer.map_err(|fault| InGroup { fault, nesting })
}

impl EngineFault {
    /// A call that is refused in a group, whatever place it is about.
    pub(crate) fn of_call(refusal: Refusal, nesting: Nesting) -> EngineFault
        ensures { result ≡ fault_at (Call refusal) nesting }
    {
        EngineFault {
            cause: Cause::Call(refusal),
            nesting,
        }
    }

    /// Which refusal it is.
    pub fn refusal(self) -> Refusal
        ensures { result ≡ cause_refusal self.cause }
    {
        match self.cause {
            Cause::Store(fault) => fault.refusal(),
            Cause::Place { refusal, place: _ } => refusal,
            Cause::Call(refusal) => refusal,
        }
    }
}
