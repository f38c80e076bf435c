// The four numbers of a refusal.
use refusal::Fault;

fn four(fault: Fault) -> (u8, u16, u8, u8) {
    (
        fault.number(),
        fault.subject(),
        fault.quarter(),
        fault.height(),
    )
}

#[test]
fn the_four_numbers(rt: HostRuntime) {
    assert_eq!(rt; four(Fault::Length), (1, 0, 0, 0));
    assert_eq!(rt;
        four(Fault::QuarterHour {
            quarter: 97,
            height: 2,
        }),
        (4, 0, 97, 2)
    );
    assert_eq!(rt;
        four(Fault::ReadingMissing {
            point: 11,
            quarter: 33,
        }),
        (27, 11, 33, 0)
    );
    assert_eq!(rt;
        four(Fault::SourceLimit {
            system: 32,
            quarter: 33,
            height: 0,
        }),
        (33, 32, 33, 0)
    );
    assert_eq!(rt;
        four(Fault::AlphaMissing {
            quarter: 5,
            height: 255,
        }),
        (34, 0, 5, 255)
    );
}
