// The log of a day's notices.
ghost use Rattle.std.specs.Prelude.{◌≡◌, IfOk};
ghost use Rattle.day.specs.Days.{open_extent};
ghost use Rattle.day.specs.Noticing.{noticing};
ghost use Rattle.noticelog.specs.Log.{BegunLogs, Logs, line_of, log_from, notices_in};
ghost use Rattle.store.specs.Stored.{stored};

use crate::line::Line;
use crate::logged_day::LoggedDay;
use std::alloc::{AllocError, Global};

// A notice has fourteen bytes; a short rest counts as one.
const NOTICE_BYTES: usize = 14;

// What follows this many notices is not read as a notice.
const MOST_NOTICES: usize = 64;

// The log of the notices in the bytes, upon day 2 of 96 quarter-hours with parties 1 to 8.
pub fn log_day(heap: Global, bytes: &[u8]) -> Result<Vec<Line>, AllocError>
    ensures logs { IfOk result (λ lines. Logs bytes.now lines.items) }
    ensures begun { IfOk result (λ lines. BegunLogs bytes.now lines.items) }
{
    let mut day = LoggedDay::new(heap)?;
    day.log(heap, bytes)
}

impl LoggedDay {
    // Takes the notices in the bytes one after the other.
    fn log(&mut self, heap: Global, bytes: &[u8]) -> Result<Vec<Line>, AllocError>
        ensures { IfOk result (λ lines. lines.items ≡ log_from 1 (open_extent self.old.day) (stored self.old.store) (notices_in 64 bytes.now)) }
    {
        let mut lines = Vec::new(heap);
        for (place, notice) in (1..=MOST_NOTICES).zip(bytes.chunks(NOTICE_BYTES)) {
            lines.push(self.take_notice(place, notice))?;
        }
        Ok(lines)
    }

    // Takes one notice, and says what became of it.
    fn take_notice(&mut self, place: usize, bytes: &[u8]) -> Line
        ensures line { result ≡ line_of place (noticing (open_extent self.old.day) (stored self.old.store) bytes.now) }
        ensures extent { open_extent self.new.day ≡ (noticing (open_extent self.old.day) (stored self.old.store) bytes.now).extent }
        ensures memory { stored self.new.store ≡ (noticing (open_extent self.old.day) (stored self.old.store) bytes.now).memory }
    {
        let answer = self.store.notice(&mut self.day, bytes);
        Line {
            place,
            answer,
            pending: self.store.pending(&self.day),
        }
    }
}
