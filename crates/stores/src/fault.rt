//! Why a store refuses.
ghost use Rattle.std.specs.Prelude.{◌≡◌};
ghost use Rattle.stores.specs.Faults.{store_refusal};

use tokens::refusal::Refusal;

/// Why a store refuses a place.
#[derive(Clone, Copy, PartialEq, Eq, Debug)]
pub enum StoreFault {
    /// The place is beyond the reach.
    Beyond { place: u32 },
    /// A blank cell would be filled, and none is spare.
    Full { place: u32 },
}

impl StoreFault {
    /// Which refusal it is.
    pub fn refusal(self) -> Refusal
        ensures { result ≡ store_refusal self }
    {
        match self {
            StoreFault::Beyond { .. } => Refusal::NoPlace,
            StoreFault::Full { .. } => Refusal::NoSpare,
        }
    }
}
