// Examples of every call and of its limits on both sides, run as tests.
#![tactic(auto)]

#[cfg(test)]
mod days;
#[cfg(test)]
mod forms;
#[cfg(test)]
mod memories;
#[cfg(test)]
mod openday;
#[cfg(test)]
mod refusals;
#[cfg(test)]
mod registers;
