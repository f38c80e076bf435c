// Delivery days: a number and a count of quarter-hours, checked once.
#![tactic(auto)]

mod check;
mod delivery_day;

pub use delivery_day::DeliveryDay;
