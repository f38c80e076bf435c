// The memory of a day: its records and figures, and whether it has its sizes and is in order.
#![tactic(auto)]

mod bounded;
mod number_set;
mod numbered;
mod order;
mod readiness;
mod types;
mod waiting;

pub use readiness::ready;
pub use types::{Extent, Memory, NoticeRecord, Outside, Party, Point, ROW, Reading, Stage};
pub use waiting::pending;
