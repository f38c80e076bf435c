// The four states of a delivery day. Each is a type of its own that moves from call to call and cannot be copied:
// a call that a state does not have does not compile. They share no generic type: it would take a marker and an
// alias for each of them to share one line, that of `extent`.
ghost use Rattle.std.specs.Prelude.{◌≡◌, true};

use memory::Extent;

// An open day takes parties, points and notices.
#[derive(Drop)]
pub struct OpenDay {
    pub(crate) extent: Extent,
}

// A shut day takes readings and outside figures. Notices that still wait count for nobody.
#[derive(Drop)]
pub struct ShutDay {
    pub(crate) extent: Extent,
}

// A settled day has its imbalances and amounts. It is billed or taken back, and may not be let go before that: the contract of its
// `drop` asks that it is spent.
pub struct SettledDay {
    pub(crate) extent: Extent,
    pub(crate) spent: bool,
}

impl Drop for SettledDay {
    fn drop(self)
        requires { self.spent ≡ true }
    {
        let SettledDay {
            extent: _,
            spent: _,
        } = self;
    }
}

// A billed day can be reopened.
#[derive(Drop)]
pub struct BilledDay {
    pub(crate) extent: Extent,
}
