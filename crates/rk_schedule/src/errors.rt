ghost use Rattle.std.specs.Prelude.{◌≡◌};
ghost use Rattle.rk_schedule.specs.declared.errors.ScheduleError.TheVariants.{Memory};

use rk_model::{NoMemory, ScheduleWhy};

/// Why a schedule was not read.
#[derive(Clone, Copy, Debug, PartialEq, Eq)]
pub enum ScheduleError {
    /// It is refused at a line, counted from 1.
    Refused { line: u32, why: ScheduleWhy },
    /// Out of memory.
    Memory,
}

impl From<NoMemory> for ScheduleError {
    ghost from_gives = { λ _ e. e ≡ Memory };

    fn from(_: NoMemory) -> ScheduleError {
        ScheduleError::Memory
    }
}
