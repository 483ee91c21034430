// A leg between two stations.
ghost use Rattle.std.specs.Prelude.{◌≤◌};

mod methods;

pub use methods::LAST_STATION;

// The plain numbers of a leg, with no promise about their ranges; they lie as in C, so that a program in another language can hand in rows.
#[repr(C)]
#[derive(Clone, Copy, Debug, PartialEq, Eq)]
pub struct LegRow {
    pub from: u8,
    pub to: u8,
    // Kept a number and no `Passage`: a row holds any byte, and callers in C hand rows in.
    pub passage: u8,
    pub length: u32,
}

// A row within the ranges: stations to 15, 1 to 10,000,000 millimetres, passage 0 closed or 1 open.
#[derive(Clone, Copy, Debug, PartialEq, Eq)]
pub struct Leg {
    row: LegRow,
    ghost from_known: { row.from ≤ 15 },
    ghost to_known: { row.to ≤ 15 },
    ghost some_length: { 1 ≤ row.length },
    ghost short: { row.length ≤ 10000000 },
    ghost passage_known: { row.passage ≤ 1 },
}
