// The four numbers that a refusal is given out as.
ghost use Rattle.std.specs.Prelude.{◌≡◌};
ghost use Rattle.refusal.specs.Meaning.{about, values_of};

use crate::fault::Fault;

// The number of the refusal, and the record number, the quarter-hour and the height that it is about, each 0 where it is about none.
// More derives would have no use.
#[derive(Clone, Copy)]
struct Values {
    number: u8,
    subject: u16,
    quarter: u8,
    height: u8,
}

fn about(number: u8, subject: u16, quarter: u8, height: u8) -> Values
    ensures { result ≡ about number subject quarter height }
{
    Values {
        number,
        subject,
        quarter,
        height,
    }
}

impl Fault {
    // The number that the refusal is known by.
    pub fn number(&self) -> u8
        ensures { result ≡ (values_of self.now).number }
    {
        self.values().number
    }

    // The number of the record that it is about.
    pub fn subject(&self) -> u16
        ensures { result ≡ (values_of self.now).subject }
    {
        self.values().subject
    }

    // The quarter-hour that it is about.
    pub fn quarter(&self) -> u8
        ensures { result ≡ (values_of self.now).quarter }
    {
        self.values().quarter
    }

    // The height of the tariff at which it arose.
    pub fn height(&self) -> u8
        ensures { result ≡ (values_of self.now).height }
    {
        self.values().height
    }

    fn values(&self) -> Values
        ensures { result ≡ values_of self.now }
    {
        match *self {
            Fault::Length => about(1, 0, 0, 0),
            Fault::Check => about(2, 0, 0, 0),
            Fault::Kind => about(3, 0, 0, 0),
            Fault::QuarterHour { quarter, height } => about(4, 0, quarter, height),
            Fault::Limit => about(5, 0, 0, 0),
            Fault::Number => about(6, 0, 0, 0),
            Fault::Day => about(7, 0, 0, 0),
            Fault::Sizes => about(8, 0, 0, 0),
            Fault::Order => about(20, 0, 0, 0),
            Fault::UnknownParty => about(21, 0, 0, 0),
            Fault::UnknownPoint => about(22, 0, 0, 0),
            Fault::NumberUsed => about(23, 0, 0, 0),
            Fault::RegisterFull => about(24, 0, 0, 0),
            Fault::NotPending => about(25, 0, 0, 0),
            Fault::Mismatch => about(26, 0, 0, 0),
            Fault::ReadingMissing { point, quarter } => about(27, point, quarter, 0),
            Fault::OtherSheet => about(28, 0, 0, 0),
            Fault::AmountLimit => about(30, 0, 0, 0),
            Fault::SourceMissing {
                system,
                quarter,
                height,
            } => about(31, system, quarter, height),
            Fault::CyclesOutside {
                system,
                quarter,
                height,
            } => about(32, system, quarter, height),
            Fault::SourceLimit {
                system,
                quarter,
                height,
            } => about(33, system, quarter, height),
            Fault::AlphaMissing { quarter, height } => about(34, 0, quarter, height),
        }
    }
}
