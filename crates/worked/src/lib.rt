// The worked figures of the rule book, each proved of the definitions by computation.
#![tactic(auto)]

mod figures;
mod types;

pub use figures::worked;
pub use types::Figures;
