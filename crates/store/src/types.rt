// The memory of a day as its owner keeps it: a vector for each part, since a memory lends a slice of each.
use memory::{NoticeRecord, Outside, Party, Point, Reading};
use units::{Kwh, Mills};

#[derive(Drop)]
pub struct Store {
    pub(crate) parties: Vec<Party>,
    pub(crate) points: Vec<Point>,
    pub(crate) notices: Vec<NoticeRecord>,
    pub(crate) readings: Vec<Option<Reading>>,
    pub(crate) outside: Vec<Outside>,
    pub(crate) imbalances: Vec<Kwh>,
    pub(crate) amounts: Vec<Mills>,
    pub(crate) billed: Vec<Mills>,
    pub(crate) bills: Vec<Mills>,
}

// A call upon an open day, with what it is given. A closure in its place is not covered by the check, since it is passed a memory that
// its caller gets back. More derives would have no use.
#[derive(Clone, Copy)]
pub(crate) enum Call<'a> {
    EnterParty(u16),
    Notice(&'a [u8]),
}
