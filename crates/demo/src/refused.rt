//! The error that ends a scene whose calls should all be carried out.
use anyhow::Context;
use engine::fault::EngineFault;
use thiserror::Error;

/// A call was refused.
#[derive(Clone, Copy, Debug, Error)]
#[error("a call was refused that should be carried out: look at the scene that was printed last")]
pub struct Refused {
    fault: EngineFault,
}

impl Refused {
    /// The number of the refusal.
    pub(crate) fn number(self) -> u8 {
        self.fault.refusal().number()
    }
}

impl From<EngineFault> for Refused {
    fn from(fault: EngineFault) -> Refused {
        Refused { fault }
    }
}

/// The number of the refusal, where a call should be refused.
pub(crate) fn number_of(refused: Option<Refused>) -> anyhow::Result<u8> {
    refused
        .map(Refused::number)
        .context("a call was carried out that should be refused")
}
