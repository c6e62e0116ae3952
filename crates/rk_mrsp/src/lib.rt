//! Whom processors help along chains of threads that spin.
#![tactic(auto)]

mod chains;
mod hosting;
mod seats;

pub use chains::{Chains, Link};
pub use hosting::{Hosting, host};
pub use seats::{Assigned, Seat};
