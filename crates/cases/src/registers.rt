// A register: finding, entering and rewriting, on no place and on a full one.
use memory::Party;
use refusal::Fault;
use register::Register;

#[test]
fn finds_enters_and_rewrites(rt: HostRuntime) {
    let mut places = [Party { number: 9 }; 2];
    let mut register = Register {
        places: &mut places,
        used: 0,
    };
    assert_eq!(rt; register.find(9), None);
    assert_eq!(rt; register.enter(Party { number: 7 }), Ok(()));
    assert_eq!(rt; register.enter(Party { number: 7 }), Err(Fault::NumberUsed));
    assert_eq!(rt; register.rewrite(1, Party { number: 8 }), false);
    assert_eq!(rt; register.enter(Party { number: 65_535 }), Ok(()));
    assert_eq!(rt;
        register.enter(Party { number: 3 }),
        Err(Fault::RegisterFull)
    );
    assert_eq!(rt; register.enter(Party { number: 7 }), Err(Fault::NumberUsed));
    assert_eq!(rt; register.find(65_535), Some(1));
    assert_eq!(rt; register.rewrite(1, Party { number: 8 }), true);
    assert_eq!(rt; register.knows(65_535), false);
    assert_eq!(rt; register.find(8), Some(1));
}

#[test]
fn no_places(rt: HostRuntime) {
    let mut places: [Party; 0] = [];
    let mut register = Register {
        places: &mut places,
        used: 5,
    };
    assert_eq!(rt; register.find(0), None);
    assert_eq!(rt;
        register.enter(Party { number: 1 }),
        Err(Fault::RegisterFull)
    );
}
