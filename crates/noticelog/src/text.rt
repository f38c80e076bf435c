// The text of a log.
ghost use Rattle.std.specs.Prelude.{◌≡◌, IfOk, Some, string_bytes};
ghost use Rattle.noticelog.specs.Text.{Reports, line_text, log_text};

use crate::line::Line;
use crate::log::log_day;
use std::alloc::{AllocError, Global};
use std::fmt;

impl fmt::Display for Line {
    ghost output = { λ l. Some (line_text l) };

    fn fmt<W: fmt::Write>(&self, f: &mut fmt::Formatter<W>) -> fmt::Result {
        write!(f, "{} {} {}", self.place, self.refusal(), self.pending)
    }
}

// What is printed of the notices in the bytes: a line for each.
pub fn report(heap: Global, bytes: &[u8]) -> Result<String, AllocError>
    ensures { IfOk result (λ text. Reports bytes.now (string_bytes text)) }
{
    let lines = log_day(heap, bytes)?;
    written(heap, &lines)
}

fn written(heap: Global, lines: &[Line]) -> Result<String, AllocError>
    ensures { IfOk result (λ text. string_bytes text ≡ log_text lines.now) }
{
    let mut text = String::new(heap);
    for line in lines {
        writeln!(text, "{line}")?;
    }
    Ok(text)
}
