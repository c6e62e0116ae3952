ghost use Rattle.std.specs.Prelude.{◌≡◌};
ghost use Rattle.rk_scenario.specs.declared.errors.LineError.TheVariants.{Fault, Memory};

use rk_model::{NoMemory, ScenarioWhy};
use std::alloc::AllocError;

/// Why a scenario was not read.
#[derive(Clone, Copy, Debug, PartialEq, Eq)]
pub enum ScenarioError {
    /// The text is refused at a line, counted from 1; line 0 is the whole text.
    Refused { line: u32, why: ScenarioWhy },
    /// Out of memory.
    Memory,
}

/// Why a line was not taken.
#[derive(Clone, Copy, Debug, PartialEq, Eq)]
pub(crate) enum LineError {
    Fault(ScenarioWhy),
    Memory,
}

impl From<ScenarioWhy> for LineError {
    ghost from_gives = { λ why e. e ≡ Fault why };

    fn from(why: ScenarioWhy) -> LineError {
        LineError::Fault(why)
    }
}

impl From<AllocError> for LineError {
    ghost from_gives = { λ _ e. e ≡ Memory };

    fn from(_: AllocError) -> LineError {
        LineError::Memory
    }
}

impl From<NoMemory> for LineError {
    ghost from_gives = { λ _ e. e ≡ Memory };

    fn from(_: NoMemory) -> LineError {
        LineError::Memory
    }
}
