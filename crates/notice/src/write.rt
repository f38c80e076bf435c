// Writing: the tests of the ten fields, and their form of fourteen bytes.
ghost use Rattle.std.specs.Prelude.{◌≡◌, ◌↔◌, [], ◌∷◌, IsTrue, OnOk};
ghost use Rattle.notice.specs.Form.{notice_of, trade_of, packed, written, layout, listed, filled};
ghost use Rattle.notice.specs.Lawful.{Lawful, faults, lawful, limits_of, outside_day};
ghost use Rattle.notice.specs.Packing.{Fit};
ghost use Rattle.notice.specs.Promises.{ReadBack, Guarded};
ghost use Rattle.refusal.specs.declared.fault.Fault.TheVariants.{QuarterHour};
ghost use Rattle.refusal.specs.Judging.{judged};

use crate::bits::{after, check};
use crate::types::*;
use refusal::Fault;

// The bytes that the check covers, before its own two.
pub(crate) const CHECKED: usize = 12;

// Apart from a day, a notice's quarter-hours run from 1 to this.
const MOST_QUARTERS: u8 = 100;

// The most kWh that a notice may trade in a quarter-hour.
const MOST_QUANTITY: u32 = 1_000_000;

// The fault of a quarter-hour outside the day. Its height is 0, since no tariff is asked.
fn outside_day(quarter: u8) -> Fault
    ensures { result ≡ QuarterHour quarter 0 }
{
    Fault::QuarterHour { quarter, height: 0 }
}

// Refuses a quarter-hour outside a day of so many.
fn in_day(quarter: u8, quarters: u8) -> Result<(), Fault>
    ensures { result ≡ judged ((outside_day quarters quarter, QuarterHour quarter 0) ∷ []) tt }
{
    if !(1..=quarters).contains(&quarter) {
        return Err(outside_day(quarter));
    }
    Ok(())
}

// The faults of a trade in a day of so many quarter-hours.
fn limits(t: Trade, quarters: u8) -> Result<(), Fault>
    ensures answer { result ≡ judged (limits_of quarters t) tt }
    ensures lawful { OnOk result (Lawful quarters t) }
{
    in_day(t.first, quarters)?;
    in_day(t.last, quarters)?;
    if t.last < t.first {
        return Err(outside_day(t.first));
    }
    if !(1..=MOST_QUANTITY).contains(&t.quantity) {
        return Err(Fault::Limit);
    }
    if t.number == 0 || t.sender == 0 || t.partner == 0 || t.sender == t.partner {
        return Err(Fault::Number);
    }
    Ok(())
}

impl Trade {
    // Whether the trade is lawful in a day of so many quarter-hours.
    pub fn is_lawful(self, quarters: u8) -> bool
        ensures test { result ≡ lawful quarters self }
        ensures meaning { IsTrue result ↔ Lawful quarters self }
    {
        limits(self, quarters).is_ok()
    }
}

impl Fields {
    // The notice that the fields mean in a day of so many quarter-hours, or why they are refused.
    pub fn notice(&self, quarters: u8) -> Result<Notice, Fault>
        ensures answer { result ≡ judged (faults quarters self.now) (notice_of self.now) }
        ensures lawful { OnOk result (Lawful quarters (trade_of self.now)) }
    {
        let notice = Notice::try_from(*self)?;
        limits(notice.trade(), quarters)?;
        Ok(notice)
    }

    fn pack(&self) -> u128
        requires { Fit layout (listed self.now) }
        ensures { result ≡ packed self.now }
    {
        let bits = after(0, 4, u128::from(self.kind));
        let bits = after(bits, 4, u128::from(self.spare));
        let bits = after(bits, 16, u128::from(self.number));
        let bits = after(bits, 16, u128::from(self.sender));
        let bits = after(bits, 16, u128::from(self.partner));
        let bits = after(bits, 1, u128::from(self.buys));
        let bits = after(bits, 7, u128::from(self.first));
        let bits = after(bits, 7, u128::from(self.last));
        let bits = after(bits, 1, u128::from(self.unused));
        after(bits, 24, u128::from(self.quantity))
    }

    // Writes the fourteen bytes of the fields, or refuses them and writes nothing.
    pub fn write(&self, out: &mut [u8; 14]) -> Result<(), Fault>
        ensures answer { result ≡ judged (faults 100 self.now) tt }
        ensures bytes { out.new ≡ filled result (written self.now) out.old }
        ensures back { OnOk result (ReadBack self.now out.new) }
        ensures guarded { OnOk result (Guarded out.new) }
    {
        self.notice(MOST_QUARTERS)?;
        out[..12].copy_from_slice(&self.pack().to_be_bytes()[4..]);
        let sum = check(&out[..CHECKED]);
        out[12..].copy_from_slice(&sum.to_be_bytes());
        Ok(())
    }
}
