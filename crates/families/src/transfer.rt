// Moving rope from one line to another.
mod ending;
mod family;

// Kind 0 moves c metres from line a to line b.
#[derive(Clone, Copy)]
pub struct Transfer;

// So many metres are to go from one line to another.
#[derive(Clone, Copy)]
pub struct Move {
    pub from: u32,
    pub to: u32,
    pub metres: u32,
}

#[derive(Clone, Copy)]
pub enum TransferState {
    // The line from which the metres go is to be read.
    Leaving(Move),
    // The line to which they go is to be read; the first holds so many.
    Coming {
        asked: Move,
        held: u32,
    },
    // The first line is to be written with what is left, and then the second with its total.
    // Kept four numbers and not two writes: their names say which line gets what.
    Taking {
        from: u32,
        left: u32,
        to: u32,
        total: u32,
    },
    Giving {
        to: u32,
        total: u32,
    },
    Given,
}

// Why nothing is moved.
#[derive(Clone, Copy, Debug, PartialEq, Eq)]
pub enum TransferRefusal {
    // The first line holds fewer metres.
    TooFew,
    // The second line would have more metres than a line may have.
    TooMany,
    BadOrder,
}
