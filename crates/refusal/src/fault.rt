// The fault that a call answers: a case for each refusal, with the values that it is given out with under their names. Three cases have the same
// three: a struct of them would be one more name where they are made and matched. A record number is 0 where none is meant, as it is given out.

#[derive(Clone, Copy, PartialEq, Eq, Debug)]
pub enum Fault {
    // A notice is not 14 bytes long.
    Length,
    // A notice's check differs from that of its bytes.
    Check,
    // A notice's kind is none of the three, or a spare bit is set.
    Kind,
    // A quarter-hour is outside the day, or a run's first is after its last. A tariff adds the height at which it arose.
    QuarterHour {
        quarter: u8,
        height: u8,
    },
    // A quantity, rate or figure is beyond its limits.
    Limit,
    // A number that may not be 0 is 0, or a notice's sender is its partner.
    Number,
    // A new day or tariff has a wrong number or count of quarter-hours.
    Day,
    // The memory brought has not its sizes, or a register fewer places than records or more than its limit.
    Sizes,
    // The memory brought is not in order.
    Order,
    // A named party is not entered.
    UnknownParty,
    // A named point is not entered, or a head is no access point.
    UnknownPoint,
    // The number to enter is used in its register.
    NumberUsed,
    // The register has no unused place.
    RegisterFull,
    // A notice to confirm or withdraw is not entered or not pending.
    NotPending,
    // A confirmation does not mirror the lodging, or a withdrawal does not repeat it.
    Mismatch,
    // A point's reading in a quarter-hour is not given.
    ReadingMissing {
        point: u16,
        quarter: u8,
    },
    // The price sheet is for another day or count of quarter-hours.
    OtherSheet,
    // An amount passes its limit.
    AmountLimit,
    // A system record or a published price that is needed is missing; `system` is the system record, or 0.
    SourceMissing {
        system: u16,
        quarter: u8,
        height: u8,
    },
    // The cycles of a system record lie outside the memory.
    CyclesOutside {
        system: u16,
        quarter: u8,
        height: u8,
    },
    // A field, cycle, alpha figure or published price in use is beyond its limits.
    SourceLimit {
        system: u16,
        quarter: u8,
        height: u8,
    },
    // An alpha figure is missing.
    AlphaMissing {
        quarter: u8,
        height: u8,
    },
}
