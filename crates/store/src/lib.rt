// An owner of a day's memory, which lends it at each call.
#![tactic(auto)]

mod owned;
mod types;

pub use types::Store;
