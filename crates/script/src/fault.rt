// What can be wrong with a turn list.
ghost use Rattle.std.specs.Prelude.{◌≡◌};
ghost use Rattle.script.specs.Faults.{line_cause_number, list_fault_number};

use bookfile::fault::Placed;

// What is wrong with a line.
#[derive(Clone, Copy, Debug, PartialEq, Eq)]
pub enum LineCause {
    // Its first word is no letter of a command.
    UnknownLetter,
    // A word that should be a number is none.
    NotNumber,
    // It has more or fewer words than its letter asks for.
    WordCount,
}

impl LineCause {
    // The number that users see. Kept a method: `From` would read as if the number were the fault.
    pub fn number(self) -> u32
        ensures { result ≡ line_cause_number self }
    {
        match self {
            LineCause::UnknownLetter => 21,
            LineCause::NotNumber => 22,
            LineCause::WordCount => 23,
        }
    }
}

// What is wrong with a line, and at which of its bytes.
pub type LineFault = Placed<LineCause>;

// What is wrong with a whole list.
#[derive(Clone, Copy, Debug, PartialEq, Eq)]
pub enum ListFault {
    TooLong,
}

impl ListFault {
    // The number that users see. Kept a method: `From` would read as if the number were the fault.
    pub fn number(self) -> u32
        ensures { result ≡ list_fault_number self }
    {
        match self {
            ListFault::TooLong => 24,
        }
    }
}

// The most bytes that a turn list may have.
pub const MOST_BYTES: usize = 60_000;
