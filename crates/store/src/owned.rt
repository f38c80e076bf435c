// The memory of a day, owned.
ghost use Rattle.std.specs.Prelude.{◌≡◌, IfOk};
ghost use Rattle.day.specs.Days.{open_extent};
ghost use Rattle.day.specs.Entering.{entering_party};
ghost use Rattle.day.specs.Noticing.{noticing};
ghost use Rattle.memory.specs.Pending.{count_pending};
ghost use Rattle.store.specs.Calls.{calling};
ghost use Rattle.store.specs.Stored.{stored, blank};

use crate::types::{Call, Store};
use day::OpenDay;
use memory::{Memory, NoticeRecord, Outside, Party, Point, ROW, Reading, pending};
use refusal::Fault;
use std::alloc::{AllocError, Global};
use units::{Kwh, Mills};

impl Store {
    // Room for so many records of each kind, with nothing entered.
    pub fn new(heap: Global, parties: u16, points: u16, notices: u16) -> Result<Store, AllocError>
        ensures { IfOk result (λ s. stored s ≡ blank parties points notices) }
    {
        let parties = usize::from(parties);
        let points = usize::from(points);
        let notices = usize::from(notices);
        Ok(Store {
            parties: vec![in heap; Party::default(); parties]?,
            points: vec![in heap; Point::default(); points]?,
            notices: vec![in heap; NoticeRecord::default(); notices]?,
            readings: vec![in heap; None; points * ROW]?,
            outside: vec![in heap; Outside::default(); parties * ROW]?,
            imbalances: vec![in heap; Kwh::default(); parties * ROW]?,
            amounts: vec![in heap; Mills::default(); parties]?,
            billed: vec![in heap; Mills::default(); parties]?,
            bills: vec![in heap; Mills::default(); parties]?,
        })
    }

    // Enters a party upon the day. No struct holds the two: it would be taken apart and made anew at each change of the day's state.
    pub fn enter_party(&mut self, day: &mut OpenDay, number: u16) -> Result<(), Fault>
        ensures { entering_party (open_extent day.old) (stored self.old) number ≡ record { answer = result; extent = open_extent day.new; memory = stored self.new } }
    {
        self.perform(day, Call::EnterParty(number))
    }

    // Takes a notice upon the day.
    pub fn notice(&mut self, day: &mut OpenDay, bytes: &[u8]) -> Result<(), Fault>
        ensures { noticing (open_extent day.old) (stored self.old) bytes.now ≡ record { answer = result; extent = open_extent day.new; memory = stored self.new } }
    {
        self.perform(day, Call::Notice(bytes))
    }

    // How many notices wait.
    pub fn pending(&self, day: &OpenDay) -> usize
        ensures { result ≡ count_pending (open_extent day.now).notices (stored self.now).notices }
    {
        pending(self.notices.as_slice(), day.extent().notices)
    }

    // Performs the call on the memory, which it lends.
    fn perform(&mut self, day: &mut OpenDay, call: Call) -> Result<(), Fault>
        ensures { calling (open_extent day.old) (stored self.old) call.entry ≡ record { answer = result; extent = open_extent day.new; memory = stored self.new } }
    {
        perform_on(
            day,
            call,
            self.parties.as_mut_slice(),
            self.points.as_mut_slice(),
            self.notices.as_mut_slice(),
            self.readings.as_mut_slice(),
            self.outside.as_mut_slice(),
            self.imbalances.as_mut_slice(),
            self.amounts.as_mut_slice(),
            self.billed.as_mut_slice(),
            self.bills.as_mut_slice(),
        )
    }
}

// The same on slices: what a vector holds after it has lent one is known through a function on slices only.
fn perform_on(
    day: &mut OpenDay,
    call: Call,
    parties: &mut [Party],
    points: &mut [Point],
    notices: &mut [NoticeRecord],
    readings: &mut [Option<Reading>],
    outside: &mut [Outside],
    imbalances: &mut [Kwh],
    amounts: &mut [Mills],
    billed: &mut [Mills],
    bills: &mut [Mills],
) -> Result<(), Fault>
    ensures { calling (open_extent day.old) (record { parties = parties.old; points = points.old; notices = notices.old; readings = readings.old; outside = outside.old; imbalances = imbalances.old; amounts = amounts.old; billed = billed.old; bills = bills.old }) call.entry ≡ record { answer = result; extent = open_extent day.new; memory = record { parties = parties.new; points = points.new; notices = notices.new; readings = readings.new; outside = outside.new; imbalances = imbalances.new; amounts = amounts.new; billed = billed.new; bills = bills.new } } }
{
    let memory = Memory {
        parties,
        points,
        notices,
        readings,
        outside,
        imbalances,
        amounts,
        billed,
        bills,
    };
    match call {
        Call::EnterParty(number) => day.enter_party(memory, number),
        Call::Notice(bytes) => day.notice(memory, bytes),
    }
}
