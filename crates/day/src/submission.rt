// A notice to an open day.
ghost use Rattle.std.specs.Prelude.{◌≡◌, ◌≤◌, [], ◌∷◌, min, length, is_ok, if◌then◌else◌, OnOk};
ghost use Rattle.day.specs.Days.{open_extent};
ghost use Rattle.day.specs.Answering.{Answers, Lodges};
ghost use Rattle.day.specs.Noticing.{noticing, party_unknown, kind_faults, answer_faults, restaged, recorded, used_after};
ghost use Rattle.day.specs.Outcome.{Outcome};
ghost use Rattle.memory.specs.Held.{held, left};
ghost use Rattle.memory.specs.Order.{InOrder, Sized};
ghost use Rattle.memory.specs.With.{with_notice_count};
ghost use Rattle.notice.specs.Form.{stated};
ghost use Rattle.refusal.specs.declared.fault.Fault.TheVariants.{UnknownParty};
ghost use Rattle.refusal.specs.Judging.{judged};

use crate::types::*;
use memory::{Extent, Memory, NoticeRecord, Party, Stage, ready};
use notice::{Notice, Trade};
use refusal::Fault;
use register::{Register, find_place};

impl OpenDay {
    // Takes a notice of fourteen bytes: enters a lodging, or confirms or withdraws the one that it answers.
    pub fn notice(&mut self, memory: Memory, bytes: &[u8]) -> Result<(), Fault>
        ensures outcome { noticing (open_extent self.old) (held memory.entry) bytes.now ≡ record { answer = result; extent = open_extent self.new; memory = left memory.exit } }
        ensures kept { OnOk result (Sized (open_extent self.new) (left memory.exit) × InOrder (open_extent self.new) (left memory.exit)) }
        ensures answers { Answers (open_extent self.old) (held memory.entry) bytes.now result }
        ensures lodges { Lodges (open_extent self.old) (held memory.entry) bytes.now result }
    {
        let notice = Notice::read(bytes, self.extent.day.count)?;
        ready(&self.extent, &memory)?;
        let Memory {
            parties,
            notices,
            ..
        } = memory;
        record_notice(&mut self.extent, parties, notices, notice)?;
        Ok(())
    }
}

// Records a notice that was read, where the memory has its sizes. It takes slices, and is not the last expression above, as the entry of a party.
fn record_notice(
    extent: &mut Extent,
    parties: &[Party],
    notices: &mut [NoticeRecord],
    notice: Notice,
) -> Result<(), Fault>
    requires parties { extent.old.parties ≤ length parties.now }
    requires notices { extent.old.notices ≤ length notices.old }
    ensures answer { result ≡ judged ((party_unknown extent.old.parties parties.now (stated notice), UnknownParty) ∷ kind_faults extent.old.notices notices.old notice) tt }
    ensures extent { extent.new ≡ (if is_ok result then with_notice_count extent.old (used_after extent.old.notices notice) else extent.old) }
    ensures notices { notices.new ≡ (if is_ok result then recorded extent.old.notices notices.old notice else notices.old) }
{
    parties_known(parties, extent.parties, notice.trade())?;
    let mut register = Register {
        places: notices,
        used: extent.notices,
    };
    record_in(&mut register, notice)?;
    extent.notices = register.used;
    Ok(())
}

// Enters the lodging in the register, or moves the record that the notice answers to another stage. The clause `named` is what a caller needs to
// have its own places back.
fn record_in(register: &mut Register<NoticeRecord>, notice: Notice) -> Result<(), Fault>
    ensures named { register.new.places.ghost_name ≡ register.old.places.ghost_name }
    ensures answer { result ≡ judged (kind_faults (min register.old.used (length register.old.places.now)) register.old.places.now notice) tt }
    ensures places { register.new.places.now ≡ (if is_ok result then recorded (min register.old.used (length register.old.places.now)) register.old.places.now notice else register.old.places.now) }
    ensures used { register.new.used ≡ (if is_ok result then used_after register.old.used notice else register.old.used) }
{
    match notice {
        Notice::Lodging(trade) => register.enter(NoticeRecord {
            trade,
            stage: Stage::Pending,
        }),
        Notice::Confirmation(trade) => answer(register, trade.mirror(), Stage::Confirmed),
        Notice::Withdrawal(trade) => answer(register, trade, Stage::Withdrawn),
    }
}

// Refuses a trade whose sender or partner is not entered. The count goes to the search, and is no premise.
fn parties_known(parties: &[Party], used: usize, trade: Trade) -> Result<(), Fault>
    ensures { result ≡ judged ((party_unknown (min used (length parties.now)) parties.now trade, UnknownParty) ∷ []) tt }
{
    if find_place(parties, used, trade.sender).is_none()
        || find_place(parties, used, trade.partner).is_none()
    {
        return Err(Fault::UnknownParty);
    }
    Ok(())
}

// Moves the pending notice that is lodged as this trade to another stage, in the places that it is lent (`named`).
fn answer(register: &mut Register<NoticeRecord>, trade: Trade, stage: Stage) -> Result<(), Fault>
    ensures named { register.new.places.ghost_name ≡ register.old.places.ghost_name }
    ensures answer { result ≡ judged (answer_faults (min register.old.used (length register.old.places.now)) register.old.places.now trade) tt }
    ensures places { register.new.places.now ≡ (if is_ok result then restaged (min register.old.used (length register.old.places.now)) register.old.places.now trade.number stage else register.old.places.now) }
    ensures used { register.new.used ≡ register.old.used }
{
    let Some(place) = register.find(trade.number) else {
        return Err(Fault::NotPending);
    };
    let record = register.places[place];
    if !record.stage.is_pending() {
        return Err(Fault::NotPending);
    }
    if !record.trade.is(trade) {
        return Err(Fault::Mismatch);
    }
    register.rewrite(place, NoticeRecord { stage, ..record });
    Ok(())
}
