// A set of numbers of records, so that one pass over a register tells whether its numbers are distinct.
ghost use Rattle.std.specs.Prelude.{◌≡◌, ℕ, false, not, ◌||◌, ◌==◌, length, MatchOption};
ghost use Rattle.memory.specs.NumberSets.{has, Holds};
ghost use Rattle.memory.specs.Order.{knows_access};
ghost use Rattle.register.specs.Entering.{numbers};
ghost use Rattle.register.specs.Numbers.{Distinct, knows};

use crate::types::Point;
use register::{NO_NUMBER, Numbered};

// So many numbers there can be.
const NUMBERS: usize = 65_536;

// For each number that there can be, whether it is in the set.
#[derive(Drop)]
pub(crate) struct NumberSet {
    member: [bool; NUMBERS],
}

impl NumberSet {
    fn new() -> NumberSet
        ensures { (n : ℕ) → has result n ≡ false }
    {
        NumberSet {
            member: [false; NUMBERS],
        }
    }

    pub(crate) fn contains(&self, number: u16) -> bool
        ensures { result ≡ has self.now number }
    {
        self.member[usize::from(number)]
    }

    // Puts a number in, and answers whether it was not there yet.
    fn insert(&mut self, number: u16) -> bool
        ensures fresh { result ≡ not (has self.old number) }
        ensures members { (n : ℕ) → has self.new n ≡ (number == n || has self.old n) }
    {
        let fresh = !self.contains(number);
        self.member[usize::from(number)] = true;
        fresh
    }

    // The numbers of the records, if none is 0 and none comes again.
    pub(crate) fn of_distinct<R: Numbered>(records: &[R]) -> Option<NumberSet>
        ensures { MatchOption result (Distinct (numbers R.numeral R.unset records.now) (length records.now) → ⊥) (λ s. Distinct (numbers R.numeral R.unset records.now) (length records.now) × Holds s (knows (length records.now) (numbers R.numeral R.unset records.now))) }
    {
        let mut set = NumberSet::new();
        for record in records {
            let number = record.number();
            if number == NO_NUMBER || !set.insert(number) {
                return None;
            }
        }
        Some(set)
    }

    // The numbers of the access points.
    pub(crate) fn of_access_points(points: &[Point]) -> NumberSet
        ensures { Holds result (knows_access (length points.now) points.now) }
    {
        let mut set = NumberSet::new();
        for point in points {
            if point.is_access() {
                set.insert(point.number);
            }
        }
        set
    }
}
