//! The kernel of one opening behind one lock, and the seats by which threads step it.
//!
//! Behind the lock lie the parts, the journal, and the marks of the parts. The type of what lies there
//! says that the history is legal and that the parts stand for the state after it. A seat brings the
//! mark of its own key, so the history has no entries of the seat but those that the seat made.
#![tactic(auto)]

mod answers;
mod hint;
mod inner;
mod kernel;
mod opening;
mod placing;
mod run_name;
mod seats;

pub use answers::{Stepped, TickAnswer};
pub use kernel::{Closed, Kernel, Opened, open_kernel};
pub use opening::{HeldOpening, open_held};
pub use run_name::RunName;
pub use seats::{Clock, Cpu};
