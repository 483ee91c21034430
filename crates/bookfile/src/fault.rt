// What is wrong with a book file, and where.
ghost use Rattle.std.specs.Prelude.{◌≡◌};
ghost use Rattle.bookfile.specs.Faults.{number, inner, at};
ghost use Rattle.bookfile.specs.declared.fault.FileCause.TheVariants.{Value};

use survey::fault::ValueFault;

#[derive(Clone, Copy, Debug, PartialEq, Eq)]
pub enum FileCause {
    // The file has no room for n and m.
    Short,
    // n is not the book's number of lines.
    Lines,
    // m is above 4,096.
    Pairs,
    // The file is longer or shorter than m states.
    Length,
    // The line of a pair is not below n.
    Line,
    // The value of a pair is refused.
    Value(ValueFault),
}

// What is wrong with some bytes, and at which of them.
#[derive(Clone, Copy, Debug, PartialEq, Eq)]
pub struct Placed<C> {
    pub place: usize,
    pub cause: C,
}

pub type FileFault = Placed<FileCause>;

impl FileCause {
    // The number by which the fault is printed. Kept a method: `From` would read as if the number were the fault.
    pub fn number(self) -> u32
        ensures { result ≡ number self }
    {
        match self {
            FileCause::Short => 31,
            FileCause::Lines | FileCause::Pairs => 32,
            FileCause::Length => 33,
            FileCause::Line => 34,
            FileCause::Value(_) => 35,
        }
    }

    // The value's own fault, where one is the cause.
    pub fn inner(self) -> Option<ValueFault>
        ensures { result ≡ inner self }
    {
        match self {
            FileCause::Value(fault) => Some(fault),
            _ => None,
        }
    }
}

impl From<ValueFault> for FileCause {
    ghost from_gives = { λ fault cause. cause ≡ Value fault };

    fn from(fault: ValueFault) -> FileCause {
        FileCause::Value(fault)
    }
}

// The same answer, told where it went wrong.
pub fn located<T, C>(answer: Result<T, C>, place: usize) -> Result<T, Placed<C>>
    ensures { result ≡ at place answer }
{
    answer.map_err(|cause| Placed { place, cause })
}
