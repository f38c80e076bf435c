// The first call of a new day or tariff.
ghost use Rattle.calendar.specs.Checking.{Checked};

use crate::delivery_day::DeliveryDay;
use refusal::Fault;

const LAST_DAY: u16 = 60_000;

impl DeliveryDay {
    // The day of this number with this many quarter-hours, or the refusal of a wrong number or count.
    pub fn check(number: u16, count: u8) -> Result<DeliveryDay, Fault>
        ensures { Checked number count result }
    {
        if !(1..=LAST_DAY).contains(&number) {
            return Err(Fault::Day);
        }
        match count {
            92 | 96 | 100 => Ok(DeliveryDay { number, count }),
            _ => Err(Fault::Day),
        }
    }
}
