// Reading: from bytes to the fields, and to what they mean.
ghost use Rattle.std.specs.Prelude.{◌≡◌, IfOk, OnOk};
ghost use Rattle.notice.specs.Form.{fields_from, layout, stated};
ghost use Rattle.notice.specs.Lawful.{Lawful};
ghost use Rattle.notice.specs.Packing.{split};
ghost use Rattle.notice.specs.Promises.{Guarded, OneForm};
ghost use Rattle.notice.specs.Reading.{byte_faults, held_fields, reading, reading_fields};
ghost use Rattle.refusal.specs.Judging.{judged};

use crate::bits::{check, field, gather};
use crate::types::*;
use crate::write::CHECKED;
use refusal::Fault;

// The fields that stand in twelve bytes. Each is cut to its width before it is narrowed, so that `try_from` would answer an error that
// cannot come.
fn unpack(bits: u128) -> Fields
    ensures { result ≡ fields_from (split layout bits) }
{
    Fields {
        kind: field(bits, 4, 92) as u8,
        spare: field(bits, 4, 88) as u8,
        number: field(bits, 16, 72) as u16,
        sender: field(bits, 16, 56) as u16,
        partner: field(bits, 16, 40) as u16,
        buys: field(bits, 1, 39) == 1,
        first: field(bits, 7, 32) as u8,
        last: field(bits, 7, 25) as u8,
        unused: field(bits, 1, 24) as u8,
        quantity: field(bits, 24, 0) as u32,
    }
}

// The fields of fourteen bytes whose check is right.
fn parse(bytes: &[u8]) -> Result<Fields, Fault>
    ensures { result ≡ judged (byte_faults bytes.now) (held_fields bytes.now) }
{
    if bytes.len() != 14 {
        return Err(Fault::Length);
    }
    if check(&bytes[..CHECKED]) != u16::from_be_bytes([bytes[12], bytes[13]]) {
        return Err(Fault::Check);
    }
    Ok(unpack(gather(&bytes[..12])))
}

impl Fields {
    // The fields that the bytes hold for a day of so many quarter-hours, or why they are refused.
    pub fn read(bytes: &[u8], quarters: u8) -> Result<Fields, Fault>
        ensures { result ≡ reading_fields quarters bytes.now }
    {
        let fields = parse(bytes)?;
        fields.notice(quarters)?;
        Ok(fields)
    }
}

impl Notice {
    // The notice that the bytes mean in a day of so many quarter-hours, or why they are refused.
    pub fn read(bytes: &[u8], quarters: u8) -> Result<Notice, Fault>
        ensures answer { result ≡ reading quarters bytes.now }
        ensures lawful { IfOk result (λ n. Lawful quarters (stated n)) }
        ensures single { IfOk result (OneForm bytes.now) }
        ensures guarded { OnOk result (Guarded bytes.now) }
    {
        let fields = parse(bytes)?;
        fields.notice(quarters)
    }
}
