// Memory of wrong sizes, and memory out of order in each way.
use calendar::DeliveryDay;
use memory::{Extent, Memory, NoticeRecord, Outside, Party, Point, Reading, Stage, ready};
use notice::{Direction, Trade};
use refusal::Fault;
use units::{Kwh, Mills};

const MILLION: i64 = 1_000_000;

const MOST: i64 = 2_000_000_000_000_000_000;

// Two parties, an access point and a delivery point behind it, and two notices between the parties, alike but for their numbers:
// every figure is at a limit. More derives would have no use.
#[derive(Clone, Copy)]
struct Sample {
    parties: [Party; 2],
    points: [Point; 2],
    notice: NoticeRecord,
    second: u16,
    reading: Option<Reading>,
    outside: Outside,
    amount: Mills,
    billed: Mills,
}

const SAMPLE: Sample = Sample {
    parties: [Party { number: 1 }, Party { number: 65_535 }],
    points: [
        Point {
            number: 10,
            party: 1,
            head: 0,
            rate: 1_000,
        },
        Point {
            number: 11,
            party: 65_535,
            head: 10,
            rate: 0,
        },
    ],
    notice: NoticeRecord {
        trade: Trade {
            number: 7,
            sender: 1,
            partner: 65_535,
            direction: Direction::Buys,
            first: 1,
            last: 96,
            quantity: 1_000_000,
        },
        stage: Stage::Withdrawn,
    },
    second: 8,
    reading: Some(Reading {
        injection: Kwh(0),
        offtake: Kwh(MILLION),
    }),
    outside: Outside {
        exchange: Kwh(-MILLION),
        correction: Kwh(MILLION),
    },
    amount: Mills(MOST),
    billed: Mills(-MOST),
};

// The answer on the sample, with so many bills.
fn answer_sized(sample: Sample, bills: usize, used: usize) -> Result<(), Fault> {
    let extent = Extent {
        day: DeliveryDay::check(2, 96)?,
        parties: used,
        points: 2,
        notices: 2,
    };
    let Sample {
        mut parties,
        mut points,
        notice,
        second,
        reading,
        outside,
        amount,
        billed,
    } = sample;
    let mut notices = [notice; 2];
    notices[1].trade.number = second;
    let mut readings = [reading; 200];
    let mut outside = [outside; 200];
    let mut imbalances = [Kwh(i64::MAX); 200];
    let mut amounts = [amount; 2];
    let mut billed = [billed; 2];
    let mut written = [Mills(i64::MIN); 3];
    let memory = Memory {
        parties: &mut parties,
        points: &mut points,
        notices: &mut notices,
        readings: &mut readings,
        outside: &mut outside,
        imbalances: &mut imbalances,
        amounts: &mut amounts,
        billed: &mut billed,
        bills: &mut written[0..bills.min(3)],
    };
    ready(&extent, &memory)
}

fn answer(sample: Sample) -> Result<(), Fault> {
    answer_sized(sample, 2, 2)
}

#[test]
fn sizes(rt: HostRuntime) {
    assert_eq!(rt; answer(SAMPLE), Ok(()));
    assert_eq!(rt; answer_sized(SAMPLE, 3, 2), Err(Fault::Sizes));
    assert_eq!(rt; answer_sized(SAMPLE, 1, 2), Err(Fault::Sizes));
    assert_eq!(rt; answer_sized(SAMPLE, 2, 3), Err(Fault::Sizes));
    assert_eq!(rt; answer_sized(SAMPLE, 2, 1), Err(Fault::Order));
}

fn second_point(number: u16, party: u16, head: u16, rate: u16) -> Result<(), Fault> {
    let [first, _] = SAMPLE.points;
    answer(Sample {
        points: [
            first,
            Point {
                number,
                party,
                head,
                rate,
            },
        ],
        ..SAMPLE
    })
}

#[test]
fn parties_and_points(rt: HostRuntime) {
    let refused = Err(Fault::Order);
    let twice = [Party { number: 1 }, Party { number: 1 }];
    let none = [Party { number: 1 }, Party { number: 0 }];
    assert_eq!(rt;
        answer(Sample {
            parties: twice,
            ..SAMPLE
        }),
        refused
    );
    assert_eq!(rt;
        answer(Sample {
            parties: none,
            ..SAMPLE
        }),
        refused
    );
    assert_eq!(rt; second_point(11, 65_535, 10, 0), Ok(()));
    assert_eq!(rt; second_point(11, 65_535, 0, 1_000), Ok(()));
    assert_eq!(rt; second_point(11, 65_535, 0, 1_001), refused);
    assert_eq!(rt; second_point(11, 65_535, 10, 1), refused);
    assert_eq!(rt; second_point(10, 65_535, 10, 0), refused);
    assert_eq!(rt; second_point(0, 65_535, 10, 0), refused);
    assert_eq!(rt; second_point(11, 2, 10, 0), refused);
    assert_eq!(rt; second_point(11, 65_535, 12, 0), refused);
    assert_eq!(rt; second_point(11, 65_535, 11, 0), refused);
}

fn with_trade(trade: Trade) -> Result<(), Fault> {
    let stage = Stage::Pending;
    answer(Sample {
        notice: NoticeRecord { trade, stage },
        ..SAMPLE
    })
}

#[test]
fn notices(rt: HostRuntime) {
    let refused = Err(Fault::Order);
    let trade = SAMPLE.notice.trade;
    assert_eq!(rt; with_trade(trade), Ok(()));
    assert_eq!(rt;
        answer(Sample {
            second: 7,
            ..SAMPLE
        }),
        refused
    );
    assert_eq!(rt;
        answer(Sample {
            second: 0,
            ..SAMPLE
        }),
        refused
    );
    assert_eq!(rt; with_trade(Trade { number: 0, ..trade }), refused);
    assert_eq!(rt; with_trade(Trade { sender: 2, ..trade }), refused);
    assert_eq!(rt;
        with_trade(Trade {
            partner: 2,
            ..trade
        }),
        refused
    );
    assert_eq!(rt;
        with_trade(Trade {
            partner: 1,
            ..trade
        }),
        refused
    );
    assert_eq!(rt; with_trade(Trade { first: 0, ..trade }), refused);
    assert_eq!(rt; with_trade(Trade { last: 97, ..trade }), refused);
    assert_eq!(rt;
        with_trade(Trade {
            quantity: 0,
            ..trade
        }),
        refused
    );
    assert_eq!(rt;
        with_trade(Trade {
            quantity: 1_000_001,
            ..trade
        }),
        refused
    );
}

fn with_reading(injection: i64, offtake: i64) -> Result<(), Fault> {
    let injection = Kwh(injection);
    let offtake = Kwh(offtake);
    answer(Sample {
        reading: Some(Reading { injection, offtake }),
        ..SAMPLE
    })
}

fn with_outside(exchange: i64, correction: i64) -> Result<(), Fault> {
    let exchange = Kwh(exchange);
    let correction = Kwh(correction);
    answer(Sample {
        outside: Outside {
            exchange,
            correction,
        },
        ..SAMPLE
    })
}

#[test]
fn figures(rt: HostRuntime) {
    let refused = Err(Fault::Order);
    assert_eq!(rt;
        answer(Sample {
            reading: None,
            ..SAMPLE
        }),
        Ok(())
    );
    assert_eq!(rt; with_reading(MILLION + 1, 0), refused);
    assert_eq!(rt; with_reading(0, MILLION + 1), refused);
    assert_eq!(rt; with_reading(-1, 0), refused);
    assert_eq!(rt; with_reading(0, -1), refused);
    assert_eq!(rt; with_outside(MILLION, -MILLION), Ok(()));
    assert_eq!(rt; with_outside(-MILLION - 1, 0), refused);
    assert_eq!(rt; with_outside(MILLION + 1, 0), refused);
    assert_eq!(rt; with_outside(0, -MILLION - 1), refused);
    assert_eq!(rt; with_outside(0, MILLION + 1), refused);
    assert_eq!(rt;
        answer(Sample {
            amount: Mills(MOST + 1),
            ..SAMPLE
        }),
        refused
    );
    assert_eq!(rt;
        answer(Sample {
            billed: Mills(-MOST - 1),
            ..SAMPLE
        }),
        refused
    );
}
