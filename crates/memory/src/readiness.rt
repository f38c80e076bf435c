// Whether a call may begin on the memory that is brought.
ghost use Rattle.std.specs.Prelude.{◌≡◌};
ghost use Rattle.memory.specs.Held.{held};
ghost use Rattle.memory.specs.Ready.{Told, memory_faults};
ghost use Rattle.refusal.specs.Judging.{judged};

use crate::order::{figures_in_order, has_sizes, registers_in_order};
use crate::types::{Extent, Memory};
use refusal::Fault;

// Refuses memory that has not its sizes, and then memory that is not in order. No struct holds the two: the check does
// not cover lending a slice through a reference to the memory that a struct holds.
pub fn ready(extent: &Extent, memory: &Memory) -> Result<(), Fault>
    ensures answer { result ≡ judged (memory_faults extent.now (held memory.now)) tt }
    ensures meaning { Told extent.now (held memory.now) result }
{
    if !has_sizes(extent, memory) {
        return Err(Fault::Sizes);
    }
    if !registers_in_order(extent, memory) || !figures_in_order(extent, memory) {
        return Err(Fault::Order);
    }
    Ok(())
}
