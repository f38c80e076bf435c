// An open day: parties, notices and their refusals in order.
use day::OpenDay;
use notice::{Direction, Fields, Notice, Trade};
use refusal::Fault;
use std::alloc::{AllocError, Global};
use std::test::Fail;
use store::Store;

const SEVEN: Trade = Trade {
    number: 7,
    sender: 1,
    partner: 2,
    direction: Direction::Sells,
    first: 33,
    last: 36,
    quantity: 500,
};

#[derive(Drop)]
struct Setup {
    day: OpenDay,
    store: Store,
}

impl Setup {
    // Day 2 with parties 1 and 2, and places for so many notices.
    fn open(heap: Global, notices: u16) -> Result<Setup, AllocError> {
        let mut day = OpenDay::open(2, 96).unwrap();
        let mut store = Store::new(heap, 2, 0, notices)?;
        let _ = store.enter_party(&mut day, 1);
        let _ = store.enter_party(&mut day, 2);
        Ok(Setup { day, store })
    }

    // Sends a notice, and answers the number of its refusal and of the notices that wait.
    fn send(&mut self, notice: Notice) -> (u8, usize) {
        let mut bytes = [0; 14];
        let _ = Fields::from(notice).write(&mut bytes);
        let refusal = self.store.notice(&mut self.day, &bytes).err();
        let number = refusal.map_or(0, |fault| fault.number());
        (number, self.store.pending(&self.day))
    }
}

#[test]
fn parties(rt: HostRuntime) -> Result<(), Fail> {
    let mut setup = Setup::open(rt.alloc(), 1)?;
    assert_eq!(rt;
        setup.store.enter_party(&mut setup.day, 0),
        Err(Fault::Number)
    );
    assert_eq!(rt;
        setup.store.enter_party(&mut setup.day, 2),
        Err(Fault::NumberUsed)
    );
    assert_eq!(rt;
        setup.store.enter_party(&mut setup.day, 3),
        Err(Fault::RegisterFull)
    );
    let mut small = Store::new(rt.alloc(), 1, 0, 1)?;
    assert_eq!(rt; small.enter_party(&mut setup.day, 3), Err(Fault::Sizes));
    let mut blank = Store::new(rt.alloc(), 3, 0, 1)?;
    assert_eq!(rt; blank.enter_party(&mut setup.day, 3), Err(Fault::Order));
    let mut large = Store::new(rt.alloc(), 65, 0, 1)?;
    assert_eq!(rt; large.enter_party(&mut setup.day, 3), Err(Fault::Sizes));
    Ok(())
}

// The answer to the entry of a party upon a new day, with so many places.
fn entry(
    heap: Global,
    parties: u16,
    points: u16,
    notices: u16,
) -> Result<Option<Fault>, AllocError> {
    let mut day = OpenDay::open(2, 96).unwrap();
    let mut store = Store::new(heap, parties, points, notices)?;
    Ok(store.enter_party(&mut day, 1).err())
}

#[test]
fn places(rt: HostRuntime) -> Result<(), Fail> {
    let heap = rt.alloc();
    assert_eq!(rt; entry(heap, 64, 256, 512)?, None);
    assert_eq!(rt; entry(heap, 65, 256, 512)?, Some(Fault::Sizes));
    assert_eq!(rt; entry(heap, 64, 257, 512)?, Some(Fault::Sizes));
    assert_eq!(rt; entry(heap, 64, 256, 513)?, Some(Fault::Sizes));
    assert_eq!(rt; entry(heap, 0, 0, 0)?, Some(Fault::RegisterFull));
    Ok(())
}

#[test]
fn confirmed_once(rt: HostRuntime) -> Result<(), Fail> {
    let mut setup = Setup::open(rt.alloc(), 2)?;
    let turned = Trade {
        direction: Direction::Sells,
        ..SEVEN.mirror()
    };
    assert_eq!(rt; setup.send(Notice::Confirmation(SEVEN.mirror())), (25, 0));
    assert_eq!(rt; setup.send(Notice::Lodging(SEVEN)), (0, 1));
    assert_eq!(rt; setup.send(Notice::Lodging(SEVEN)), (23, 1));
    assert_eq!(rt; setup.send(Notice::Confirmation(SEVEN)), (26, 1));
    assert_eq!(rt; setup.send(Notice::Confirmation(turned)), (26, 1));
    assert_eq!(rt; setup.send(Notice::Confirmation(SEVEN.mirror())), (0, 0));
    assert_eq!(rt; setup.send(Notice::Confirmation(SEVEN.mirror())), (25, 0));
    assert_eq!(rt; setup.send(Notice::Withdrawal(SEVEN)), (25, 0));
    Ok(())
}

#[test]
fn withdrawn_stays_used(rt: HostRuntime) -> Result<(), Fail> {
    let mut setup = Setup::open(rt.alloc(), 2)?;
    let other = Trade { number: 8, ..SEVEN };
    let third = Trade { number: 9, ..SEVEN };
    let unknown = Trade {
        number: 9,
        partner: 3,
        ..SEVEN
    };
    assert_eq!(rt; setup.send(Notice::Lodging(SEVEN)), (0, 1));
    assert_eq!(rt; setup.send(Notice::Withdrawal(SEVEN.mirror())), (26, 1));
    assert_eq!(rt; setup.send(Notice::Withdrawal(SEVEN)), (0, 0));
    assert_eq!(rt; setup.send(Notice::Lodging(SEVEN)), (23, 0));
    assert_eq!(rt; setup.send(Notice::Lodging(other)), (0, 1));
    assert_eq!(rt; setup.send(Notice::Lodging(third)), (24, 1));
    assert_eq!(rt; setup.send(Notice::Lodging(unknown)), (21, 1));
    assert_eq!(rt; setup.send(Notice::Withdrawal(unknown)), (21, 1));
    Ok(())
}
