// What a notice of a trade says, as it is packed and as it is meant.

// The ten packed fields as plain integers. Any values may stand here, so that writing and reading can refuse them; `Notice` is what they
// mean.
#[derive(Clone, Copy, PartialEq, Eq, Debug)]
pub struct Fields {
    // 4 bits, the form's number: 1 a lodging, 2 a confirmation, 3 a withdrawal.
    pub kind: u8,
    // 4 bits that are 0.
    pub spare: u8,
    // 16 bits: the number that the notice is known by.
    pub number: u16,
    // 16 bits: the party that sends it.
    pub sender: u16,
    // 16 bits: the party that it trades with, its counterparty.
    pub partner: u16,
    // 1 bit, the form's own: 0 the sender sells, 1 it buys.
    pub buys: bool,
    // 7 bits: the first quarter-hour of the run, counted from 1.
    pub first: u8,
    // 7 bits: the last.
    pub last: u8,
    // 1 bit that is 0.
    pub unused: u8,
    // 24 bits: the kWh traded in each quarter-hour of the run.
    pub quantity: u32,
}

// Whether the sender of a notice sells or buys.
#[derive(Clone, Copy, PartialEq, Eq, Default, Debug)]
pub enum Direction {
    #[default]
    Sells,
    Buys,
}

// A trade as its sender states it: so many kWh in each quarter-hour from the first to the last, sold to or bought from the partner.
#[derive(Clone, Copy, PartialEq, Eq, Default, Debug)]
pub struct Trade {
    pub number: u16,
    pub sender: u16,
    pub partner: u16,
    pub direction: Direction,
    pub first: u8,
    pub last: u8,
    pub quantity: u32,
}

// What a party sends: the submission of a trade, the counterparty's confirmation of one, or its cancellation.
#[derive(Clone, Copy, PartialEq, Eq, Debug)]
pub enum Notice {
    Lodging(Trade),
    Confirmation(Trade),
    Withdrawal(Trade),
}
