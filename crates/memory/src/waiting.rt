// How many notices wait for their partner's confirmation.
ghost use Rattle.std.specs.Prelude.{◌≡◌};
ghost use Rattle.memory.specs.Pending.{count_pending, is_pending};

use crate::types::{NoticeRecord, Stage};

impl Stage {
    pub fn is_pending(self) -> bool
        ensures { result ≡ is_pending self }
    {
        self == Stage::Pending
    }
}

// The number of pending notices among the first `used` places, or among all where there are fewer.
pub fn pending(notices: &[NoticeRecord], used: usize) -> usize
    ensures { result ≡ count_pending used notices.now }
{
    notices[..used.min(notices.len())]
        .iter()
        .map(|notice| usize::from(notice.stage.is_pending()))
        .sum()
}
