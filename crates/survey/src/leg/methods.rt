// How legs are made, read, printed and laid in bytes.
ghost use Rattle.std.specs.Prelude.{◌≡◌, ◌≤◌, Some, refl};
ghost use Rattle.survey.specs.Formats.{Format, Checks};
ghost use Rattle.survey.specs.Legs.{leg_row, leg_format, leg_text, closed_row, leads};
ghost use Rattle.survey.specs.Passages.{passage_number};
ghost use Rattle.std.proofs.Common.{rules};

use super::{Leg, LegRow};
use crate::fault::ValueFault;
use crate::passage::Passage;
use crate::row::Row;
use std::fmt;

pub const LAST_STATION: u32 = 15;

pub const LONGEST: u32 = 10_000_000;

pub const LEG_BYTES: usize = 7;

impl Leg {
    // The open leg of three numbers, or the first range that they break: a station, then the length.
    pub fn open(from: u32, to: u32, length: u32) -> Result<Leg, ValueFault>
        ensures { Checks leg_format (λ l. l.row) (leg_row from to 1 length) result }
    {
        if from > LAST_STATION || to > LAST_STATION {
            return Err(ValueFault::Station);
        }
        if length < 1 || length > LONGEST {
            return Err(ValueFault::Length);
        }
        let row = LegRow {
            from: from as u8,
            to: to as u8,
            passage: u8::from(Passage::Open),
            length,
        };
        Ok(Leg { row })
    }

    // The leg of four numbers, or the first range that they break: a station, the length, the passage.
    pub fn new(from: u32, to: u32, passage: u32, length: u32) -> Result<Leg, ValueFault>
        ensures { Checks leg_format (λ l. l.row) (leg_row from to passage length) result }
    {
        let open = Leg::open(from, to, length)?;
        let passage = Passage::try_from(passage)?;
        Ok(open.with_passage(passage))
    }

    fn with_passage(&self, passage: Passage) -> Leg
        ensures { result.row ≡ leg_row self.now.row.from self.now.row.to (passage_number passage) self.now.row.length }
    {
        let row = LegRow {
            passage: u8::from(passage),
            ..self.row
        };
        Leg { row }
    }

    pub fn from(&self) -> u8
        ensures value { result ≡ self.now.row.from }
        ensures bound { result ≤ 15 }
    {
        self.row.from
    }

    pub fn to(&self) -> u8
        ensures value { result ≡ self.now.row.to }
        ensures bound { result ≤ 15 }
    {
        self.row.to
    }

    pub fn passage(&self) -> Passage
        ensures { passage_number result ≡ self.now.row.passage }
    {
        // Kept a match: of a leg the number is 0 or 1, and `Passage::try_from` would answer a fault that no leg has.
        match self.row.passage {
            0 => Passage::Closed,
            _ => Passage::Open,
        }
    }

    // The same leg, closed.
    pub fn closed(&self) -> Leg
        ensures { result.row ≡ closed_row self.now.row }
    {
        self.with_passage(Passage::Closed)
    }

    pub fn length(&self) -> u32
        ensures value { result ≡ self.now.row.length }
        ensures low_bound { 1 ≤ result }
        ensures high_bound { result ≤ 10000000 }
    {
        self.row.length
    }

    // Whether the leg may be walked from one station to another.
    pub fn leads(&self, from: u8, to: u8) -> bool
        ensures { result ≡ leads self.now.row from to }
    {
        let row = self.row;
        self.passage() == Passage::Open
            && ((row.from == from && row.to == to) || (row.to == from && row.from == to))
    }
}

impl TryFrom<LegRow> for Leg {
    type Error = ValueFault;

    ghost try_from_gives = { Checks leg_format (λ l. l.row) };

    fn try_from(row: LegRow) -> Result<Leg, ValueFault> {
        Leg::new(
            u32::from(row.from),
            u32::from(row.to),
            u32::from(row.passage),
            row.length,
        )
    }
}

impl From<Leg> for LegRow {
    ghost from_gives = { λ leg row. row ≡ leg.row };

    fn from(leg: Leg) -> LegRow {
        leg.row
    }
}

impl Row for LegRow {
    type Value = Leg;

    type Bytes = [u8; LEG_BYTES];

    ghost format = { leg_format };

    ghost plain = { λ l. l.row };

    ghost sound = { Prim.search rules };

    ghost checks = { λ row answer h. h };

    ghost row_of = { λ value row h. h };

    ghost printed = { Prim.search rules };

    ghost WIDTH = { 7 };

    ghost wide = { refl };

    const WIDTH: usize = LEG_BYTES;

    fn blank() -> Leg {
        let row = LegRow {
            from: 0,
            to: 0,
            passage: u8::from(Passage::Closed),
            length: 1,
        };
        Leg { row }
    }

    fn decode(bytes: &[u8]) -> Option<(LegRow, &[u8])> {
        match bytes {
            [from, to, passage, l0, l1, l2, l3, rest @ ..] => {
                let row = LegRow {
                    from: *from,
                    to: *to,
                    passage: *passage,
                    length: u32::from_le_bytes([*l0, *l1, *l2, *l3]),
                };
                Some((row, rest))
            }
            _ => None,
        }
    }

    fn encode(value: Leg) -> Self::Bytes {
        let row = LegRow::from(value);
        let [l0, l1, l2, l3] = row.length.to_le_bytes();
        [row.from, row.to, row.passage, l0, l1, l2, l3]
    }
}

// From, to, passage and length, with a space between.
impl fmt::Display for Leg {
    ghost output = { λ l. Some (leg_text l.row) };

    fn fmt<W: fmt::Write>(&self, f: &mut fmt::Formatter<W>) -> fmt::Result {
        let LegRow {
            from,
            to,
            passage,
            length,
        } = self.row;
        write!(f, "{from} {to} {passage} {length}")
    }
}
