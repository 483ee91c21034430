// How metres are made, read, printed and laid in bytes.
ghost use Rattle.std.specs.Prelude.{◌≡◌, ◌≤◌, Some, refl};
ghost use Rattle.survey.specs.Formats.{Format, Checks};
ghost use Rattle.survey.specs.Ropes.{metres_format, metres_text};
ghost use Rattle.std.proofs.Common.{rules};

use super::{Metres, MetresRow};
use crate::fault::ValueFault;
use crate::row::Row;
use std::fmt;

pub const METRES_BYTES: usize = 4;

pub const MOST_METRES: u32 = 1_000_000;

impl Metres {
    pub fn count(&self) -> u32
        ensures value { result ≡ self.now.row.count }
        ensures bound { result ≤ 1000000 }
    {
        self.row.count
    }
}

impl TryFrom<MetresRow> for Metres {
    type Error = ValueFault;

    ghost try_from_gives = { Checks metres_format (λ m. m.row) };

    fn try_from(row: MetresRow) -> Result<Metres, ValueFault> {
        if row.count > MOST_METRES {
            return Err(ValueFault::Metres);
        }
        Ok(Metres { row })
    }
}

impl From<Metres> for MetresRow {
    ghost from_gives = { λ metres row. row ≡ metres.row };

    fn from(metres: Metres) -> MetresRow {
        metres.row
    }
}

impl Row for MetresRow {
    type Value = Metres;

    type Bytes = [u8; METRES_BYTES];

    ghost format = { metres_format };

    ghost plain = { λ m. m.row };

    ghost sound = { Prim.search rules };

    ghost checks = { λ row answer h. h };

    ghost row_of = { λ value row h. h };

    ghost printed = { Prim.search rules };

    ghost WIDTH = { 4 };

    ghost wide = { refl };

    const WIDTH: usize = METRES_BYTES;

    fn blank() -> Metres {
        Metres {
            row: MetresRow { count: 0 },
        }
    }

    fn decode(bytes: &[u8]) -> Option<(MetresRow, &[u8])> {
        match bytes {
            [c0, c1, c2, c3, rest @ ..] => {
                let count = u32::from_le_bytes([*c0, *c1, *c2, *c3]);
                Some((MetresRow { count }, rest))
            }
            _ => None,
        }
    }

    fn encode(value: Metres) -> Self::Bytes {
        value.count().to_le_bytes()
    }
}

impl fmt::Display for Metres {
    ghost output = { λ m. Some (metres_text m.row) };

    fn fmt<W: fmt::Write>(&self, f: &mut fmt::Formatter<W>) -> fmt::Result {
        let count = self.count();
        write!(f, "{count}")
    }
}
