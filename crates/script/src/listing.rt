// The lines of a listing. Each shows with its newline.
ghost use Rattle.std.proofs.Common.{rules};
ghost use Rattle.std.specs.Cmp.Rules.{comparing};
ghost use Rattle.std.specs.Option.{option_map};
ghost use Rattle.std.specs.Ordering.{on};
ghost use Rattle.std.specs.Prelude.{◌≡◌, Some};
ghost use Rattle.script.specs.Faults.{faulty_line, fault_number, fault_place, fault_cause, as_listed, same_numbers};
ghost use Rattle.script.specs.Listing.{look_line, numbers_line, fault_line, answer_bytes, listing_line};
ghost use Rattle.script.specs.declared.listing.Fault.TheVariants.{File, List};

use crate::fault::{LineFault, ListFault, MOST_BYTES};
use crate::letter::Letter;
use bookfile::fault::FileFault;
use calls::answer::Answer;
use calls::ending::Ending;
use calls::refusal::Refusal;
use std::fmt;
use survey::fault::ValueFault;

// A line of a book, with the value that it holds.
// Kept beside the writes of a job, which have a line and a value too, but are never shown.
#[derive(Clone, Copy)]
pub struct LookLine<V> {
    pub line: usize,
    pub value: V,
}

impl<V: fmt::Display> fmt::Display for LookLine<V> {
    ghost output = { λ l. option_map (look_line l.line) (V.Display.output l.value) };

    fn fmt<W: fmt::Write>(&self, f: &mut fmt::Formatter<W>) -> fmt::Result {
        let line = self.line;
        let value = &self.value;
        write!(f, "L {line} {value}\n")
    }
}

// A fault as a listing shows it: in which line of the turn list, from 1, or 0 for the whole input;
// the fault's number; its place in bytes; and the number of what caused it, or 0.
#[derive(Clone, Copy, Debug, PartialEq, Eq)]
pub struct FaultLine {
    pub line: usize,
    pub number: u32,
    pub place: usize,
    pub cause: u32,
}

impl fmt::Display for FaultLine {
    ghost output = { λ l. Some (numbers_line l) };

    fn fmt<W: fmt::Write>(&self, f: &mut fmt::Formatter<W>) -> fmt::Result {
        let FaultLine {
            line,
            number,
            place,
            cause,
        } = *self;
        write!(f, "! {line} {number} {place} {cause}\n")
    }
}

// What was wrong with the input.
#[derive(Clone, Copy, Debug)]
pub enum Fault {
    // The file of a book is faulty.
    File(FileFault),
    // A turn list is faulty as a whole.
    List(ListFault),
    // A line of a turn list is faulty. Lines are numbered from 1; a line 0 is none, and prints as the whole input.
    // Kept a plain number: who counts the lines would have to make a `NonZero` of each count.
    Line { line: usize, fault: LineFault },
}

impl From<FileFault> for Fault {
    ghost from_gives = { λ fault r. r ≡ File fault };

    fn from(file_fault: FileFault) -> Fault {
        Fault::File(file_fault)
    }
}

impl From<ListFault> for Fault {
    ghost from_gives = { λ fault r. r ≡ List fault };

    fn from(list_fault: ListFault) -> Fault {
        Fault::List(list_fault)
    }
}

impl Fault {
    // The faulty line, unless the whole input is at fault.
    pub fn line(self) -> Option<usize>
        ensures { result ≡ faulty_line self }
    {
        match self {
            Fault::File(_) | Fault::List(_) => None,
            Fault::Line { line, .. } => Some(line),
        }
    }

    // The number that users see. Kept a method: `From` would read as if the number were the fault.
    pub fn number(self) -> u32
        ensures { result ≡ fault_number self }
    {
        match self {
            Fault::File(fault) => fault.cause.number(),
            Fault::List(fault) => fault.number(),
            Fault::Line { fault, .. } => fault.cause.number(),
        }
    }

    // Its place in bytes: in the file, in the list, or in the line.
    pub fn place(self) -> usize
        ensures { result ≡ fault_place self }
    {
        match self {
            Fault::File(fault) => fault.place,
            Fault::List(ListFault::TooLong) => MOST_BYTES,
            Fault::Line { fault, .. } => fault.place,
        }
    }

    // The fault of a value, where one is the cause.
    pub fn cause(self) -> Option<ValueFault>
        ensures { result ≡ fault_cause self }
    {
        match self {
            Fault::File(fault) => fault.cause.inner(),
            Fault::List(_) | Fault::Line { .. } => None,
        }
    }
}

impl From<Fault> for FaultLine {
    ghost from_gives = { λ fault r. r ≡ as_listed fault };

    fn from(fault: Fault) -> FaultLine {
        FaultLine {
            line: fault.line().unwrap_or(0),
            number: fault.number(),
            place: fault.place(),
            cause: fault.cause().map_or(0, |cause| cause.number()),
        }
    }
}

// Two faults are equal exactly where they show the same.
impl PartialEq for Fault {
    ghost eq = { on as_listed same_numbers };

    ghost laws = { Prim.search (comparing, rules) depth 9 };

    fn eq(&self, other: &Fault) -> bool {
        FaultLine::from(*self) == FaultLine::from(*other)
    }
}

impl Eq for Fault {
    ghost laws = { Prim.search (comparing, rules) depth 9 };
}

impl fmt::Display for Fault {
    ghost output = { λ f. Some (fault_line f) };

    fn fmt<W: fmt::Write>(&self, f: &mut fmt::Formatter<W>) -> fmt::Result {
        let line = FaultLine::from(*self);
        write!(f, "{line}")
    }
}

// The words of an answer, inside a line. Kept a struct: with `Display` in `calls` the text of the listing would stand there too.
#[derive(Clone, Copy)]
struct AnswerWords(Answer);

impl fmt::Display for AnswerWords {
    ghost output = { λ w. Some (answer_bytes w.0) };

    fn fmt<W: fmt::Write>(&self, f: &mut fmt::Formatter<W>) -> fmt::Result {
        match self.0 {
            Answer::Read { line } => write!(f, "read {line}"),
            Answer::Write { line } => write!(f, "write {line}"),
            Answer::End(Ending { code, number }) => write!(f, "end {code} {number}"),
            Answer::Back { kept } => write!(f, "back {kept}"),
        }
    }
}

// What came of one line of a turn list.
#[derive(Drop)]
pub enum ListingLine<V> {
    // A job took the seat.
    Started {
        seat: u32,
    },
    // The job of the seat did a request.
    Stepped {
        seat: u32,
        answer: Answer,
    },
    // The job left the seat.
    Withdrawn {
        seat: u32,
    },
    // A line of the book was looked at.
    Looked(LookLine<V>),
    // The command of this letter and first number was refused.
    Refused {
        letter: Letter,
        number: u32,
        refusal: Refusal,
    },
    // There was something wrong with the line, or with the whole input.
    Faulty(Fault),
    // The same, of which only the numbers are known.
    Noted(FaultLine),
}

// Kept the letters of the lines inside their texts: to show a `Letter` there, each line would first have to name one.
impl<V: fmt::Display> fmt::Display for ListingLine<V> {
    ghost output = { λ l. listing_line V.Display.output l };

    fn fmt<W: fmt::Write>(&self, f: &mut fmt::Formatter<W>) -> fmt::Result {
        match self {
            ListingLine::Started { seat } => write!(f, "S {seat} ok\n"),
            ListingLine::Stepped { seat, answer } => {
                let words = AnswerWords(*answer);
                write!(f, "T {seat} {words}\n")
            }
            ListingLine::Withdrawn { seat } => write!(f, "W {seat} ok\n"),
            ListingLine::Looked(look) => write!(f, "{look}"),
            ListingLine::Refused {
                letter,
                number,
                refusal,
            } => {
                let reason = refusal.number();
                write!(f, "{letter} {number} refused {reason}\n")
            }
            ListingLine::Faulty(fault) => write!(f, "{fault}"),
            ListingLine::Noted(line) => write!(f, "{line}"),
        }
    }
}
