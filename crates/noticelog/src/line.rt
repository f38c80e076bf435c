// A line of the log.
ghost use Rattle.std.specs.Prelude.{◌≡◌};
ghost use Rattle.noticelog.specs.Log.{refusal_number};

use refusal::Fault;

// What became of a notice.
#[derive(Clone, Copy, PartialEq, Eq, Debug)]
pub struct Line {
    // Its place among the notices, counted from 1.
    pub place: usize,
    // Whether it is taken, or its refusal.
    pub answer: Result<(), Fault>,
    // How many notices then wait.
    pub pending: usize,
}

impl Line {
    // The number of its refusal, or 0.
    pub fn refusal(&self) -> u8
        ensures { result ≡ refusal_number self.now.answer }
    {
        self.answer.err().map_or(0, |fault| fault.number())
    }
}
