//! Why a firing isn't made.

ghost use Rattle.std.specs.Prelude.{◌≡◌};
ghost use Rattle.hem_system.specs.declared.fault.StepFault.TheVariants.{OutOfMemory as Memory};

use hem_base::OutOfMemory;

/// Why a firing isn't made.
#[derive(Clone, Copy, Debug, PartialEq, Eq)]
pub enum StepFault {
    /// The firing isn't possible.
    NotEnabled,
    OutOfMemory,
}

impl From<OutOfMemory> for StepFault {
    ghost from_gives = { λ _ e. e ≡ Memory };

    fn from(_e: OutOfMemory) -> StepFault {
        StepFault::OutOfMemory
    }
}
