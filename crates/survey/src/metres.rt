// Metres of rope.
ghost use Rattle.std.specs.Prelude.{◌≤◌};

mod methods;

pub use methods::MOST_METRES;

// A plain number of metres, with no promise about its range.
#[derive(Clone, Copy, Debug, PartialEq, Eq)]
pub struct MetresRow {
    pub count: u32,
}

// A row within the range of 0 to 1,000,000.
#[derive(Clone, Copy, Debug, PartialEq, Eq)]
pub struct Metres {
    row: MetresRow,
    ghost few: { row.count ≤ 1000000 },
}
