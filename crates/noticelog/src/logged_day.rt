// The day that the notices are for.
ghost use Rattle.std.specs.Prelude.{◌≤◌, IfOk};
ghost use Rattle.day.specs.Days.{open_extent};
ghost use Rattle.noticelog.specs.Start.{Begun, NumberedParties, Started};
ghost use Rattle.store.specs.Stored.{stored};

use day::OpenDay;
use std::alloc::{AllocError, Global};
use store::Store;

const DAY: u16 = 2;

const QUARTERS: u8 = 96;

const PARTIES: u16 = 8;

const NOTICES: u16 = 64;

// An open day with the store of its memory.
#[derive(Drop)]
pub struct LoggedDay {
    pub day: OpenDay,
    pub store: Store,
}

impl LoggedDay {
    // Day 2 of 96 quarter-hours with parties 1 to 8 and no notices.
    pub(crate) fn new(heap: Global) -> Result<LoggedDay, AllocError>
        ensures started { IfOk result (λ d. Started 2 96 8 (open_extent d.day) (stored d.store)) }
        ensures begun { IfOk result (λ d. Begun 8 (open_extent d.day) (stored d.store)) }
    {
        let day = OpenDay::open(DAY, QUARTERS).unwrap();
        let store = Store::new(heap, PARTIES, 0, NOTICES)?;
        let mut logged = LoggedDay { day, store };
        logged.enter_parties(PARTIES);
        Ok(logged)
    }

    // Enters the parties 1 to the last, all of them, upon a day that has none and memory with places for 8.
    fn enter_parties(&mut self, last: u16)
        requires begun { Begun 0 (open_extent self.old.day) (stored self.old.store) }
        requires places { last ≤ 8 }
        ensures numbered { NumberedParties (open_extent self.old.day) last (open_extent self.new.day) (stored self.new.store) }
        ensures begun { Begun last (open_extent self.new.day) (stored self.new.store) }
    {
        for number in 1..=last {
            self.store.enter_party(&mut self.day, number).unwrap();
        }
    }
}
