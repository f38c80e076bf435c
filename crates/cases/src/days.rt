// The numbers and counts that a day may have.
use calendar::DeliveryDay;
use refusal::Fault;

fn answer(number: u16, count: u8) -> Result<(u16, u8), Fault> {
    let day = DeliveryDay::check(number, count)?;
    Ok((day.number, day.count))
}

#[test]
fn days_and_counts(rt: HostRuntime) {
    assert_eq!(rt; answer(1, 92), Ok((1, 92)));
    assert_eq!(rt; answer(60_000, 100), Ok((60_000, 100)));
    assert_eq!(rt; answer(2, 96), Ok((2, 96)));
    assert_eq!(rt; answer(0, 96), Err(Fault::Day));
    assert_eq!(rt; answer(60_001, 96), Err(Fault::Day));
    assert_eq!(rt; answer(2, 95), Err(Fault::Day));
    assert_eq!(rt; answer(2, 101), Err(Fault::Day));
}
