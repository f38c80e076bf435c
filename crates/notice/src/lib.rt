// Notices of energy trades: fourteen bytes, the ten fields packed in them, and what they mean.
#![tactic(auto)]

mod bits;
mod convert;
mod mirror;
mod read;
mod types;
mod write;

pub use types::{Direction, Fields, Notice, Trade};
