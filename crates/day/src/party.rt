// Entry of a party.
ghost use Rattle.std.specs.Prelude.{◌≡◌, ◌+◌, ◌*◌, ◌≤◌, length, slice_set, is_ok, if◌then◌else◌, OnOk};
ghost use Rattle.day.specs.Days.{open_extent};
ghost use Rattle.day.specs.Entering.{Admits, entering_party, party_faults};
ghost use Rattle.day.specs.Outcome.{Outcome};
ghost use Rattle.memory.specs.Held.{held, left, no_mills, no_outside};
ghost use Rattle.memory.specs.Order.{InOrder, Sized};
ghost use Rattle.memory.specs.Rows.{row_filled};
ghost use Rattle.memory.specs.With.{with_party_count};
ghost use Rattle.refusal.specs.Judging.{judged};

use crate::rows::fill_row;
use crate::types::*;
use memory::{Extent, Memory, Outside, Party, ready};
use refusal::Fault;
use register::{NO_NUMBER, Register};
use units::Mills;

impl OpenDay {
    // Enters a party in the place after the last. Its outside figures, amount and sum billed are zero.
    pub fn enter_party(&mut self, memory: Memory, number: u16) -> Result<(), Fault>
        ensures outcome { entering_party (open_extent self.old) (held memory.entry) number ≡ record { answer = result; extent = open_extent self.new; memory = left memory.exit } }
        ensures kept { OnOk result (Sized (open_extent self.new) (left memory.exit) × InOrder (open_extent self.new) (left memory.exit)) }
        ensures admits { Admits (open_extent self.old) (held memory.entry) number result }
    {
        if number == NO_NUMBER {
            return Err(Fault::Number);
        }
        ready(&self.extent, &memory)?;
        let Memory {
            parties,
            outside,
            amounts,
            billed,
            ..
        } = memory;
        append_party(&mut self.extent, parties, outside, amounts, billed, number)?;
        Ok(())
    }
}

// The same where the memory has its sizes. It takes the slices that it writes and not the memory, and is not the last expression above:
// of a memory that is passed on whole, or by the last expression, the check does not tell what it holds.
fn append_party(
    extent: &mut Extent,
    parties: &mut [Party],
    outside: &mut [Outside],
    amounts: &mut [Mills],
    billed: &mut [Mills],
    number: u16,
) -> Result<(), Fault>
    requires places { extent.old.parties ≤ length parties.old }
    requires outside_size { length outside.old ≡ length parties.old * 100 }
    requires amounts_size { length amounts.old ≡ length parties.old }
    requires billed_size { length billed.old ≡ length parties.old }
    ensures answer { result ≡ judged (party_faults extent.old.parties parties.old number) tt }
    ensures extent { extent.new ≡ (if is_ok result then with_party_count extent.old (extent.old.parties + 1) else extent.old) }
    ensures parties { parties.new ≡ (if is_ok result then slice_set parties.old extent.old.parties (record { number = number }) else parties.old) }
    ensures outside { outside.new ≡ (if is_ok result then row_filled extent.old.parties extent.old.day.count no_outside outside.old else outside.old) }
    ensures amounts { amounts.new ≡ (if is_ok result then slice_set amounts.old extent.old.parties no_mills else amounts.old) }
    ensures billed { billed.new ≡ (if is_ok result then slice_set billed.old extent.old.parties no_mills else billed.old) }
{
    let place = extent.parties;
    let mut register = Register {
        places: parties,
        used: place,
    };
    register.enter(Party { number })?;
    fill_row(
        outside,
        place,
        usize::from(extent.day.count),
        Outside::default(),
    );
    amounts[place] = Mills(0);
    billed[place] = Mills(0);
    extent.parties = register.used;
    Ok(())
}
