// The fourteen bytes of a notice: limits, spare bits, lengths and the check.
use notice::{Direction, Fields, Notice, Trade};
use refusal::Fault;

const SEVEN: Fields = Fields {
    kind: 1,
    spare: 0,
    number: 7,
    sender: 1,
    partner: 2,
    buys: false,
    first: 33,
    last: 36,
    unused: 0,
    quantity: 500,
};

const LODGED: [u8; 14] = [
    0x10, 0x00, 0x07, 0x00, 0x01, 0x00, 0x02, 0x21, 0x48, 0x00, 0x01, 0xF4, 0x00, 0x34,
];

// The bytes of the fields, or the refusal with the bytes as they were.
fn written(fields: Fields) -> (Result<(), Fault>, [u8; 14]) {
    let mut bytes = [0xAA; 14];
    let answer = fields.write(&mut bytes);
    (answer, bytes)
}

fn refused(fields: Fields) -> Option<Fault> {
    match written(fields) {
        (Err(fault), [0xAA, ..]) => Some(fault),
        _ => None,
    }
}

fn outside(quarter: u8) -> Option<Fault> {
    Some(Fault::QuarterHour { quarter, height: 0 })
}

fn with_quantity(quantity: u32) -> Fields {
    Fields { quantity, ..SEVEN }
}

fn with_run(first: u8, last: u8) -> Fields {
    Fields {
        first,
        last,
        ..SEVEN
    }
}

fn with_parties(number: u16, sender: u16, partner: u16) -> Fields {
    Fields {
        number,
        sender,
        partner,
        ..SEVEN
    }
}

#[test]
fn the_worked_notice(rt: HostRuntime) {
    assert_eq!(rt; written(SEVEN), (Ok(()), LODGED));
    assert_eq!(rt; Fields::read(&LODGED, 96), Ok(SEVEN));
    let trade = Trade {
        number: 7,
        sender: 1,
        partner: 2,
        direction: Direction::Sells,
        first: 33,
        last: 36,
        quantity: 500,
    };
    assert_eq!(rt; Notice::read(&LODGED, 96), Ok(Notice::Lodging(trade)));
    assert_eq!(rt; Fields::from(Notice::Withdrawal(trade.mirror())).kind, 3);
}

#[test]
fn quantities_and_runs(rt: HostRuntime) {
    assert_eq!(rt; refused(with_quantity(0)), Some(Fault::Limit));
    assert_eq!(rt; refused(with_quantity(1)), None);
    assert_eq!(rt; refused(with_quantity(1_000_000)), None);
    assert_eq!(rt; refused(with_quantity(1_000_001)), Some(Fault::Limit));
    assert_eq!(rt; refused(with_run(0, 36)), outside(0));
    assert_eq!(rt; refused(with_run(1, 100)), None);
    assert_eq!(rt; refused(with_run(33, 101)), outside(101));
    assert_eq!(rt; refused(with_run(36, 33)), outside(36));
    assert_eq!(rt; refused(with_run(255, 0)), outside(255));
}

#[test]
fn kinds_and_numbers(rt: HostRuntime) {
    assert_eq!(rt; refused(Fields { kind: 0, ..SEVEN }), Some(Fault::Kind));
    assert_eq!(rt; refused(Fields { kind: 3, ..SEVEN }), None);
    assert_eq!(rt; refused(Fields { kind: 4, ..SEVEN }), Some(Fault::Kind));
    assert_eq!(rt; refused(Fields { spare: 1, ..SEVEN }), Some(Fault::Kind));
    assert_eq!(rt; refused(Fields { unused: 1, ..SEVEN }), Some(Fault::Kind));
    assert_eq!(rt; refused(with_parties(0, 1, 2)), Some(Fault::Number));
    assert_eq!(rt; refused(with_parties(7, 0, 2)), Some(Fault::Number));
    assert_eq!(rt; refused(with_parties(7, 1, 0)), Some(Fault::Number));
    assert_eq!(rt; refused(with_parties(7, 2, 2)), Some(Fault::Number));
    assert_eq!(rt; refused(with_parties(65_535, 65_535, 65_534)), None);
}

// The fields as bytes with their check, whatever the fields are.
fn with_check(kind_byte: u8, last: u8, quantity: u8) -> [u8; 14] {
    let mut bytes = LODGED;
    bytes[0] = kind_byte;
    bytes[8] = (last & 0x7F) << 1;
    bytes[10] = 0;
    bytes[11] = quantity;
    let mut sum: u16 = 0;
    for (place, byte) in (1..=12u16).zip(bytes.iter()) {
        sum = sum.wrapping_add(place.wrapping_mul(u16::from(*byte)));
    }
    bytes[12..].copy_from_slice(&(sum % 257).to_be_bytes());
    bytes
}

#[test]
fn lengths_checks_and_days(rt: HostRuntime) {
    assert_eq!(rt; Fields::read(&LODGED[0..13], 96), Err(Fault::Length));
    assert_eq!(rt; Fields::read(&[0; 15], 96), Err(Fault::Length));
    assert_eq!(rt; Fields::read(&[], 96), Err(Fault::Length));
    let mut bytes = LODGED;
    bytes[6] = 0x03;
    assert_eq!(rt; Fields::read(&bytes, 96), Err(Fault::Check));
    assert_eq!(rt;
        Fields::read(&with_check(0x40, 36, 5), 96),
        Err(Fault::Kind)
    );
    assert_eq!(rt;
        Fields::read(&with_check(0x11, 36, 5), 96),
        Err(Fault::Kind)
    );
    let late = Err(Fault::QuarterHour {
        quarter: 97,
        height: 0,
    });
    assert_eq!(rt; Fields::read(&with_check(0x10, 97, 0), 96), late);
    assert_eq!(rt;
        Fields::read(&with_check(0x10, 97, 0), 100),
        Err(Fault::Limit)
    );
    assert_eq!(rt; Fields::read(&with_check(0x10, 96, 5), 96).is_ok(), true);
}
