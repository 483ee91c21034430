// The rows of a kind of value, by their ranges and their bytes.
ghost use Rattle.std.specs.Prelude.{◌≡◌, ℕ, List, ◌++◌, Some};
ghost use Rattle.survey.specs.Formats.{Format, Sound, Checks, Decodes, or_blank};

use crate::fault::ValueFault;
use std::convert::AsSlice;
use std::fmt;

// Plain numbers as books and files hold them, and the value that they stand for where they are within its ranges.
pub trait Row: Copy + From<Self::Value> {
    type Value: Copy + fmt::Display + TryFrom<Self, Error = ValueFault>;

    type Bytes: Copy + AsSlice<u8>;

    ghost format: { Format Self };

    // the row of a value
    ghost plain: { Self.Value → Self };

    // How many bytes a row takes in a file.
    ghost WIDTH: { ℕ };

    const WIDTH: usize;

    fn blank() -> Self::Value
        ensures { plain result ≡ format.blank };

    // The row at the front of `bytes`, and the bytes behind it.
    fn decode(bytes: &[u8]) -> Option<(Self, &[u8])>
        ensures { Decodes format bytes.now result };

    // The bytes of a value.
    fn encode(value: Self::Value) -> Self::Bytes
        ensures bytes { Self.Bytes.items result ≡ format.encoded (plain value) }
        ensures reads_back { (rest : List ℕ) → format.decoded (format.encoded (plain value) ++ rest) ≡ plain value };

    // The value that a row counts as wherever one is asked for: its own, or the blank where it is outside the ranges.
    fn or_blank(self) -> Self::Value
        ensures { plain result ≡ or_blank format self }
    {
        Self::Value::try_from(self).unwrap_or_else(|_| Self::blank())
    }

    ghost sound: { Sound format };

    ghost wide: { WIDTH ≡ format.width };

    ghost checks: { (row : Self) (answer : _) → Self.Value.TryFrom.try_from_gives row answer → Checks format plain row answer };

    ghost row_of: { (value : Self.Value) (row : Self) → Self.From.from_gives value row → row ≡ plain value };

    ghost printed: { (v : Self.Value) → Self.Value.Display.output v ≡ Some (format.text (plain v)) };
}
