// Opening and shutting a day.
ghost use Rattle.std.specs.Prelude.{◌≡◌};
ghost use Rattle.day.specs.Days.{open_extent, shut_extent};
ghost use Rattle.day.specs.Opening.{Opened};

use crate::types::*;
use calendar::DeliveryDay;
use memory::Extent;
use refusal::Fault;

impl OpenDay {
    // Opens the day of this number with this many quarter-hours, with no records yet.
    pub fn open(number: u16, count: u8) -> Result<OpenDay, Fault>
        ensures { Opened number count result }
    {
        let day = DeliveryDay::check(number, count)?;
        Ok(OpenDay {
            extent: Extent {
                day,
                parties: 0,
                points: 0,
                notices: 0,
            },
        })
    }

    // Shuts the day: nothing more is entered.
    pub fn shut(self) -> ShutDay
        ensures { shut_extent result ≡ open_extent self }
    {
        let OpenDay { extent } = self;
        ShutDay { extent }
    }

    // The day, and how many records it has.
    pub fn extent(&self) -> Extent
        ensures { result ≡ open_extent self.now }
    {
        self.extent
    }
}
