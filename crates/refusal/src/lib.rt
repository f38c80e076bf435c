// Why a call is refused: one fault for all calls, and the four numbers that a refusal is given out as.
#![tactic(auto)]

mod fault;
mod values;

pub use fault::Fault;
