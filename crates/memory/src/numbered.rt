// The numbers of the three kinds of records.
ghost use Rattle.memory.specs.Held.{no_party, no_point, no_notice};

use crate::types::{NoticeRecord, Party, Point};
use register::Numbered;

impl Numbered for Party {
    ghost numeral = { λ p. p.number };

    ghost unset = { no_party };

    fn number(&self) -> u16 {
        self.number
    }
}

impl Numbered for Point {
    ghost numeral = { λ p. p.number };

    ghost unset = { no_point };

    fn number(&self) -> u16 {
        self.number
    }
}

impl Numbered for NoticeRecord {
    ghost numeral = { λ n. n.trade.number };

    ghost unset = { no_notice };

    fn number(&self) -> u16 {
        self.trade.number
    }
}
