// A delivery day by its number and its count of quarter-hours, which are right by its type.
ghost use Rattle.std.specs.Prelude.{◌≡◌, true};
ghost use Rattle.calendar.specs.Days.{is_day};

// A day from 1 to 60,000 with 92, 96 or 100 quarter-hours (imbalance settlement periods).
#[derive(Clone, Copy, PartialEq, Eq, Debug)]
pub struct DeliveryDay {
    pub number: u16,
    pub count: u8,
    ghost ok: { is_day number count ≡ true },
}
