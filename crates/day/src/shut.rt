// A shut day.
ghost use Rattle.std.specs.Prelude.{◌≡◌};
ghost use Rattle.day.specs.Days.{shut_extent};

use crate::types::*;
use memory::Extent;

impl ShutDay {
    // The day, and how many records it has.
    pub fn extent(&self) -> Extent
        ensures { result ≡ shut_extent self.now }
    {
        self.extent
    }
}
