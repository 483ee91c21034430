// Bytes cut at a separator.
ghost use Rattle.std.specs.Prelude.{◌≡◌, ◌==◌, position};
ghost use Rattle.script.specs.Parts.{FirstPart};

// Where the first separator is.
fn place_of(bytes: &[u8], separator: u8) -> Option<usize>
    ensures { result ≡ position (λ b. b == separator) bytes.now }
{
    bytes.iter().position(|byte| *byte == separator)
}

// The bytes up to the first separator, and those behind it, unless there is none.
pub(crate) fn first_part(bytes: &[u8], separator: u8) -> (&[u8], Option<&[u8]>)
    ensures { FirstPart separator bytes.now result.0.now result.1 }
{
    let end = place_of(bytes, separator).unwrap_or(bytes.len());
    (&bytes[..end], bytes.get(end + 1..))
}
