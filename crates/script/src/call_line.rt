// Calls as lines of a turn list.
ghost use Rattle.std.specs.Prelude.{Some};
ghost use Rattle.script.specs.Shown.{call_bytes};

use calls::call::Call;
use calls::order::Order;
use std::fmt;

// The line that is read as this call, without its newline.
// Kept a struct: with `Display` in `calls` the text of the turn list would stand there too.
#[derive(Clone, Copy)]
pub struct CallLine(pub Call);

// Kept the letters inside the texts: to show a `Letter` there, each line would first have to name one.
impl fmt::Display for CallLine {
    ghost output = { λ l. Some (call_bytes l.0) };

    fn fmt<W: fmt::Write>(&self, f: &mut fmt::Formatter<W>) -> fmt::Result {
        match self.0 {
            Call::Start { seat, order } => {
                let Order { kind, a, b, c, d } = order;
                write!(f, "S {seat} {kind} {a} {b} {c} {d}")
            }
            Call::Step { seat } => write!(f, "T {seat}"),
            Call::Withdraw { seat } => write!(f, "W {seat}"),
            Call::Look { line } => write!(f, "L {line}"),
        }
    }
}
