// When a notice answers another.
ghost use Rattle.std.specs.Prelude.{◌≡◌, ◌↔◌, IsTrue};
ghost use Rattle.notice.specs.Mirror.{mirror, same_trade, turned};

use crate::types::*;

impl Direction {
    fn turned(self) -> Direction
        ensures { result ≡ turned self }
    {
        match self {
            Direction::Sells => Direction::Buys,
            Direction::Buys => Direction::Sells,
        }
    }
}

impl Trade {
    // The trade as its partner states it.
    pub fn mirror(self) -> Trade
        ensures { result ≡ mirror self }
    {
        Trade {
            sender: self.partner,
            partner: self.sender,
            direction: self.direction.turned(),
            ..self
        }
    }

    // Whether two trades are one. It stands beside `==`, which says what it computes, and not that trades which are equal are one.
    pub fn is(self, other: Trade) -> bool
        ensures test { result ≡ same_trade self other }
        ensures meaning { IsTrue result ↔ (self ≡ other) }
    {
        self == other
    }
}
