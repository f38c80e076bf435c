// Figures within their limits.
ghost use Rattle.std.specs.Prelude.{◌≡◌, ℕ, ◌*◌, ◌<◌, ◌≤◌, ◌↔◌, Bool, true, length, take, drop, IsTrue, All};
ghost use Rattle.memory.specs.Limits.{reading_fits, outside_fits, amount_fits};

use crate::types::{Outside, ROW, Reading};
use units::{Kwh, Mills};

// The most kWh that a reading or, either way, an outside figure may have in a quarter-hour.
const MOST_ENERGY: i64 = 1_000_000;

// The greatest size of an amount or a sum billed.
const MOST_MILLS: i64 = 2_000_000_000_000_000_000;

// What has limits.
pub(crate) trait Bounded {
    ghost within: { Self → Bool };

    fn fits(&self) -> bool
        ensures { result ≡ within self.now };
}

impl Bounded for Option<Reading> {
    ghost within = { reading_fits };

    fn fits(&self) -> bool {
        match self {
            Some(reading) => {
                let metered = 0..=MOST_ENERGY;
                metered.contains(&reading.injection.0) && metered.contains(&reading.offtake.0)
            }
            None => true,
        }
    }
}

impl Bounded for Outside {
    ghost within = { outside_fits };

    fn fits(&self) -> bool {
        let scheduled = -MOST_ENERGY..=MOST_ENERGY;
        scheduled.contains(&self.exchange.0) && scheduled.contains(&self.correction.0)
    }
}

impl Bounded for Mills {
    ghost within = { amount_fits };

    fn fits(&self) -> bool {
        (-MOST_MILLS..=MOST_MILLS).contains(&self.0)
    }
}

// Whether each of the first `count` figures, or of all where there are fewer, is within its limits. The count goes to `take`, and is no premise.
pub(crate) fn all_fit<T: Bounded>(figures: &[T], count: usize) -> bool
    ensures { IsTrue result ↔ All (λ x. T.within x ≡ true) (take count figures.now) }
{
    figures.iter().take(count).all(|figure| figure.fits())
}

// Whether each of the first `width` figures of each of the first `rows` rows is within its limits.
pub(crate) fn rows_fit<T: Bounded>(figures: &[T], rows: usize, width: usize) -> bool
    requires { rows * 100 ≤ length figures.now }
    ensures { IsTrue result ↔ ((i : ℕ) → i < rows → All (λ x. T.within x ≡ true) (take width (take 100 (drop (i * 100) figures.now)))) }
{
    figures.chunks(ROW).take(rows).all(
        |row| -> bool
            ensures { IsTrue result ↔ All (λ x. T.within x ≡ true) (take width row.entry.now) }
        { all_fit(row, width) },
    )
}
