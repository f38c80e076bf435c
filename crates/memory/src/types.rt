// The records and figures of a day, and the memory that its owner brings at each call.
use calendar::DeliveryDay;
use notice::Trade;
use units::{Kwh, Mills};

// The figures of a record are a row, with a place for each quarter-hour of the longest day.
pub const ROW: usize = 100;

// A balance responsible party.
#[derive(Clone, Copy, PartialEq, Eq, Default, Debug)]
pub struct Party {
    pub number: u16,
}

// A metering point. Head 0 marks an access point; another head names the access point that this delivery point lies behind.
// It is the rule book's number and no enum: an owner keeps its records by it, and may bring any.
#[derive(Clone, Copy, PartialEq, Eq, Default, Debug)]
pub struct Point {
    pub number: u16,
    // The party in whose balancing perimeter the point is: its carrying party.
    pub party: u16,
    pub head: u16,
    // The loss rate of an access point in ten-thousandths of its offtake; 0 at a delivery point.
    pub rate: u16,
}

// What has become of a lodged notice. Only a confirmed one counts.
#[derive(Clone, Copy, PartialEq, Eq, Default, Debug)]
pub enum Stage {
    #[default]
    Pending,
    Confirmed,
    Withdrawn,
}

// A lodged notice.
#[derive(Clone, Copy, PartialEq, Eq, Default, Debug)]
pub struct NoticeRecord {
    // The trade as it was lodged.
    pub trade: Trade,
    pub stage: Stage,
}

// A metering reading of a point in a quarter-hour.
#[derive(Clone, Copy, PartialEq, Eq, Debug)]
pub struct Reading {
    pub injection: Kwh,
    pub offtake: Kwh,
}

// The outside figures of a party in a quarter-hour.
#[derive(Clone, Copy, PartialEq, Eq, Default, Debug)]
pub struct Outside {
    // Net import, as scheduled with other areas: import is positive.
    pub exchange: Kwh,
    // A correction of the perimeter.
    pub correction: Kwh,
}

// The day, and how many places of each register hold its records. The places are lent and fixed in number, so their use is counted here.
#[derive(Clone, Copy, PartialEq, Eq, Debug)]
pub struct Extent {
    pub day: DeliveryDay,
    pub parties: usize,
    pub points: usize,
    pub notices: usize,
}

// What the owner brings at each call. The figures of place k in quarter-hour q stand at 100 * k + (q - 1). The parts and their sizes
// are the rule book's, so there is a slice for each and no struct for each party.
#[derive(Drop)]
pub struct Memory<'a> {
    pub parties: &'a mut [Party],
    pub points: &'a mut [Point],
    pub notices: &'a mut [NoticeRecord],
    // None where a reading is not given.
    pub readings: &'a mut [Option<Reading>],
    pub outside: &'a mut [Outside],
    pub imbalances: &'a mut [Kwh],
    // The settlement amounts of the parties, positive where due to the party.
    pub amounts: &'a mut [Mills],
    // What has been billed so far.
    pub billed: &'a mut [Mills],
    // The latest bills.
    pub bills: &'a mut [Mills],
}
