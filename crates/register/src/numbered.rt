// What bears a number.
ghost use Rattle.std.specs.Prelude.{◌≡◌, ℕ};

// What no record is numbered.
pub const NO_NUMBER: u16 = 0;

pub trait Numbered {
    // The number that the record is known by.
    ghost numeral: { Self → ℕ };

    // What stands for a record at a place that there is not.
    ghost unset: { Self };

    fn number(&self) -> u16
        ensures { result ≡ numeral self.now };
}
