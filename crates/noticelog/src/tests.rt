// The log of three notices, of none, of a short rest and of more than are read, and the printed text.
use crate::line::Line;
use crate::log::log_day;
use crate::text::report;
use notice::{Direction, Fields, Notice, Trade};
use std::alloc::{AllocError, Global};
use std::test::Fail;

const NOTICES: [u8; 42] = [
    0x10, 0x00, 0x07, 0x00, 0x01, 0x00, 0x02, 0x21, 0x48, 0x00, 0x01, 0xF4, 0x00, 0x34, // lodged
    0x20, 0x00, 0x07, 0x00, 0x02, 0x00, 0x01, 0xA1, 0x48, 0x00, 0x01, 0xF4, 0x00, 0x3E, // confirmed
    0x10, 0x00, 0x07, 0x00, 0x01, 0x00, 0x03, 0x21, 0x48, 0x00, 0x01, 0xF4, 0x00, 0x34, // another partner
];

// The place, the refusal's number and the pending notices of the line at an index.
fn line(lines: &[Line], at: usize) -> Option<(usize, u8, usize)> {
    lines
        .get(at)
        .map(|line| (line.place, line.refusal(), line.pending))
}

#[test]
fn three_notices(rt: HostRuntime) -> Result<(), Fail> {
    let lines = log_day(rt.alloc(), &NOTICES)?;
    assert_eq!(rt; lines.len(), 3);
    assert_eq!(rt; line(&lines, 0), Some((1, 0, 1)));
    assert_eq!(rt; line(&lines, 1), Some((2, 0, 0)));
    assert_eq!(rt; line(&lines, 2), Some((3, 2, 0)));
    Ok(())
}

#[test]
fn nothing_and_a_short_rest(rt: HostRuntime) -> Result<(), Fail> {
    assert_eq!(rt; log_day(rt.alloc(), &[])?.len(), 0);
    let lines = log_day(rt.alloc(), &NOTICES[..17])?;
    assert_eq!(rt; lines.len(), 2);
    assert_eq!(rt; line(&lines, 1), Some((2, 1, 1)));
    Ok(())
}

#[test]
fn what_follows_the_last(rt: HostRuntime) -> Result<(), Fail> {
    let lines = log_day(rt.alloc(), &[0; 900])?;
    assert_eq!(rt; lines.len(), 64);
    assert_eq!(rt; line(&lines, 63), Some((64, 3, 0)));
    Ok(())
}

#[test]
fn the_text_of_three_notices(rt: HostRuntime) -> Result<(), Fail> {
    assert_eq!(rt;
        report(rt.alloc(), &NOTICES)?.as_str(),
        "1 0 1\n2 0 0\n3 2 0\n"
    );
    Ok(())
}

#[test]
fn the_text_of_nothing_and_of_a_short_rest(rt: HostRuntime) -> Result<(), Fail> {
    assert_eq!(rt; report(rt.alloc(), &[])?.as_str(), "");
    assert_eq!(rt;
        report(rt.alloc(), &NOTICES[..17])?.as_str(),
        "1 0 1\n2 1 1\n"
    );
    Ok(())
}

// Lodgings of party 1 to party 8, numbered from 1 to the last.
fn lodgings(heap: Global, last: u16) -> Result<Vec<u8>, AllocError> {
    let mut bytes = Vec::new(heap);
    for number in 1..=last {
        let trade = Trade {
            number,
            sender: 1,
            partner: 8,
            direction: Direction::Sells,
            first: 1,
            last: 96,
            quantity: 1,
        };
        let mut form = [0; 14];
        let _ = Fields::from(Notice::Lodging(trade)).write(&mut form);
        bytes.extend_from_slice(&form)?;
    }
    Ok(bytes)
}

#[test]
fn room_for_the_last_and_none_read_after_it(rt: HostRuntime) -> Result<(), Fail> {
    let all = lodgings(rt.alloc(), 64)?;
    let more = lodgings(rt.alloc(), 65)?;
    let text = report(rt.alloc(), &all)?;
    assert!(rt; text.as_str().ends_with("\n63 0 63\n64 0 64\n"));
    assert_eq!(rt; text.as_str(), report(rt.alloc(), &more)?.as_str());
    Ok(())
}
