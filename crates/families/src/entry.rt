// Entering and closing legs.
ghost use Rattle.std.specs.Prelude.{◌≡◌};
ghost use Rattle.families.specs.declared.entry.EntryRefusal.TheVariants.{Impossible};

use survey::fault::ValueFault;
use survey::leg::LegRow;

mod ending;
mod family;

// Kind 0 enters on line a the open leg from b to c of length d; kind 1 closes the leg on line a.
#[derive(Clone, Copy)]
pub struct Entry;

#[derive(Clone, Copy)]
pub enum EntryState {
    // The leg on this line is to be closed.
    Closing { line: u32 },
    // This row is to be written.
    Writing { line: u32, row: LegRow },
    Written,
}

// Why nothing is entered.
#[derive(Clone, Copy, Debug, PartialEq, Eq)]
pub enum EntryRefusal {
    // The leg asked for is outside a range.
    Impossible(ValueFault),
    BadOrder,
}

impl From<ValueFault> for EntryRefusal {
    ghost from_gives = { λ fault refusal. refusal ≡ Impossible fault };

    fn from(fault: ValueFault) -> EntryRefusal {
        EntryRefusal::Impossible(fault)
    }
}
