// One register for every kind of record that bears a number, over places that the owner lends.
#![tactic(auto)]

mod numbered;
mod register;

pub use numbered::{NO_NUMBER, Numbered};
pub use register::{Register, find_place};
