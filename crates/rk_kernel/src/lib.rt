//! The sequential kernel: one call for each step of a processor and for each tick. A step does one
//! directive, and then the state settles.
#![tactic(auto)]

mod clock;
mod kernel;
pub mod laws;
mod opening;
mod steps;

pub use kernel::{
    Parts, open_parts, period_stats, replay, run_lowest, run_view, step_all, tick_all,
};
pub use rk_model::View;
pub use steps::{CoreStep, CoreTick};
