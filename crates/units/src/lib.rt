// The units of the settlement. A price is never taken for an amount, nor an energy for either:
// each is a type of its own, and adding or comparing two of them does not compile. A generic quantity with a unit for its parameter
// would say no more, and write each of them longer.
#![tactic(auto)]

// An energy in kilowatt-hours; where it has a direction, positive is towards the party.
#[derive(Clone, Copy, PartialEq, Eq, PartialOrd, Ord, Default, Debug)]
pub struct Kwh(pub i64);

// A price in euro cents per megawatt-hour.
#[derive(Clone, Copy, PartialEq, Eq, PartialOrd, Ord, Default, Debug)]
pub struct CentsPerMwh(pub i64);

// An amount of money in mills, thousandths of a euro cent: a kilowatt-hour at one cent per megawatt-hour is one mill.
#[derive(Clone, Copy, PartialEq, Eq, PartialOrd, Ord, Default, Debug)]
pub struct Mills(pub i64);
