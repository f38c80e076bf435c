// Whether memory has its sizes, and whether it is in order: one pass over each part.
ghost use Rattle.std.specs.Prelude.{◌≡◌, ◌↔◌, true, length, IsTrue, All};
ghost use Rattle.memory.specs.Held.{held, point_numbers, notice_numbers};
ghost use Rattle.memory.specs.NumberSets.{has};
ghost use Rattle.memory.specs.Order.{Sized, RegistersPass, FiguresPass, is_access, knows_access, point_fits, notice_fits};
ghost use Rattle.register.specs.Numbers.{Distinct};

use crate::bounded::{all_fit, rows_fit};
use crate::number_set::NumberSet;
use crate::types::*;

// The most places that each register may have.
const MOST_PARTIES: usize = 64;

const MOST_POINTS: usize = 256;

const MOST_NOTICES: usize = 512;

// The greatest loss rate of an access point, in ten-thousandths.
const MOST_RATE: u16 = 1_000;

// Whether memory has its sizes.
pub(crate) fn has_sizes(extent: &Extent, memory: &Memory) -> bool
    ensures { IsTrue result ↔ Sized extent.now (held memory.now) }
{
    extent.parties <= memory.parties.len()
        && memory.parties.len() <= MOST_PARTIES
        && extent.points <= memory.points.len()
        && memory.points.len() <= MOST_POINTS
        && extent.notices <= memory.notices.len()
        && memory.notices.len() <= MOST_NOTICES
        && memory.readings.len() == memory.points.len() * ROW
        && memory.outside.len() == memory.parties.len() * ROW
        && memory.imbalances.len() == memory.parties.len() * ROW
        && memory.amounts.len() == memory.parties.len()
        && memory.billed.len() == memory.parties.len()
        && memory.bills.len() == memory.parties.len()
}

impl Point {
    // Whether it is an access point, and no delivery point.
    pub(crate) fn is_access(&self) -> bool
        ensures { result ≡ is_access self.now }
    {
        self.head == 0
    }

    fn fits(&self, parties: &NumberSet, access_points: &NumberSet) -> bool
        ensures { result ≡ point_fits (has parties.now) (has access_points.now) self.now }
    {
        parties.contains(self.party)
            && if self.is_access() {
                self.rate <= MOST_RATE
            } else {
                access_points.contains(self.head) && self.rate == 0
            }
    }
}

impl NoticeRecord {
    fn fits(&self, quarters: u8, parties: &NumberSet) -> bool
        ensures { result ≡ notice_fits (has parties.now) quarters self.now }
    {
        parties.contains(self.trade.sender)
            && parties.contains(self.trade.partner)
            && self.trade.is_lawful(quarters)
    }
}

// Whether the points in use are in order, where the set has the parties.
fn points_in_order(points: &[Point], parties: &NumberSet) -> bool
    ensures { IsTrue result ↔ (Distinct (point_numbers points.now) (length points.now) × All (λ p. point_fits (has parties.now) (knows_access (length points.now) points.now) p ≡ true) points.now) }
{
    let access_points = NumberSet::of_access_points(points);
    NumberSet::of_distinct(points).is_some()
        && points
            .iter()
            .all(|point| point.fits(parties, &access_points))
}

// Whether the notices in use are in order, where the set has the parties.
fn notices_in_order(notices: &[NoticeRecord], quarters: u8, parties: &NumberSet) -> bool
    ensures { IsTrue result ↔ (Distinct (notice_numbers notices.now) (length notices.now) × All (λ n. notice_fits (has parties.now) quarters n ≡ true) notices.now) }
{
    NumberSet::of_distinct(notices).is_some()
        && notices.iter().all(|notice| notice.fits(quarters, parties))
}

// Whether the registers of memory, which has its sizes, are in order.
pub(crate) fn registers_in_order(extent: &Extent, memory: &Memory) -> bool
    requires { Sized extent.now (held memory.now) }
    ensures { IsTrue result ↔ RegistersPass extent.now (held memory.now) }
{
    let Some(parties) = NumberSet::of_distinct(&memory.parties[..extent.parties]) else {
        return false;
    };
    points_in_order(&memory.points[..extent.points], &parties)
        && notices_in_order(
            &memory.notices[..extent.notices],
            extent.day.count,
            &parties,
        )
}

// Whether the figures of memory, which has its sizes, are in order.
pub(crate) fn figures_in_order(extent: &Extent, memory: &Memory) -> bool
    requires { Sized extent.now (held memory.now) }
    ensures { IsTrue result ↔ FiguresPass extent.now (held memory.now) }
{
    let width = usize::from(extent.day.count);
    rows_fit(memory.readings, extent.points, width)
        && rows_fit(memory.outside, extent.parties, width)
        && all_fit(memory.amounts, extent.parties)
        && all_fit(memory.billed, extent.parties)
}
