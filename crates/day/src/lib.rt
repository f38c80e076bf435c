// A delivery day and the calls upon it. The owner brings the memory at each call that needs it.
#![tactic(auto)]

mod open;
mod party;
mod rows;
mod shut;
mod submission;
mod types;

pub use types::{BilledDay, OpenDay, SettledDay, ShutDay};
