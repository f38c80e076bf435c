// What the fields and a notice say of each other.
ghost use Rattle.std.specs.Prelude.{◌≡◌, [], ◌∷◌};
ghost use Rattle.notice.specs.Form.{bit_of, direction_of, fields_of, notice_of, stated, trade_of};
ghost use Rattle.notice.specs.Lawful.{kindless};
ghost use Rattle.refusal.specs.declared.fault.Fault.TheVariants.{Kind};
ghost use Rattle.refusal.specs.Judging.{judged};

use crate::types::*;
use refusal::Fault;

impl From<Direction> for bool {
    ghost from_gives = { λ d b. b ≡ bit_of d };

    fn from(direction: Direction) -> bool {
        match direction {
            Direction::Sells => false,
            Direction::Buys => true,
        }
    }
}

impl From<bool> for Direction {
    ghost from_gives = { λ b d. d ≡ direction_of b };

    fn from(buys: bool) -> Direction {
        if buys {
            Direction::Buys
        } else {
            Direction::Sells
        }
    }
}

impl Notice {
    // The trade that the notice states.
    pub fn trade(&self) -> Trade
        ensures { result ≡ stated self.now }
    {
        match *self {
            Notice::Lodging(t) | Notice::Confirmation(t) | Notice::Withdrawal(t) => t,
        }
    }
}

// The ten fields of a notice, which mean this very notice.
impl From<Notice> for Fields {
    ghost from_gives = { λ n f. (f ≡ fields_of n) × (notice_of f ≡ n) };

    fn from(notice: Notice) -> Fields {
        let kind = match notice {
            Notice::Lodging(_) => 1,
            Notice::Confirmation(_) => 2,
            Notice::Withdrawal(_) => 3,
        };
        let t = notice.trade();
        Fields {
            kind,
            spare: 0,
            number: t.number,
            sender: t.sender,
            partner: t.partner,
            buys: t.direction.into(),
            first: t.first,
            last: t.last,
            unused: 0,
            quantity: t.quantity,
        }
    }
}

impl From<Fields> for Trade {
    ghost from_gives = { λ f t. t ≡ trade_of f };

    fn from(fields: Fields) -> Trade {
        Trade {
            number: fields.number,
            sender: fields.sender,
            partner: fields.partner,
            direction: fields.buys.into(),
            first: fields.first,
            last: fields.last,
            quantity: fields.quantity,
        }
    }
}

// The notice that the fields mean, whatever trade it states.
impl TryFrom<Fields> for Notice {
    type Error = Fault;

    ghost try_from_gives = { λ f r. r ≡ judged ((kindless f, Kind) ∷ []) (notice_of f) };

    fn try_from(fields: Fields) -> Result<Notice, Fault> {
        if fields.spare > 0 || fields.unused > 0 {
            return Err(Fault::Kind);
        }
        let trade = fields.into();
        match fields.kind {
            1 => Ok(Notice::Lodging(trade)),
            2 => Ok(Notice::Confirmation(trade)),
            3 => Ok(Notice::Withdrawal(trade)),
            _ => Err(Fault::Kind),
        }
    }
}
