// Numbers in the bytes of a file.
ghost use Rattle.std.specs.Prelude.{◌≡◌, ◌+◌, ◌*◌, ◌<◌, ◌≤◌, length, drop};
ghost use Rattle.survey.specs.Bytes.{two};

// The number of two bytes.
pub(crate) fn number(low: u8, high: u8) -> usize
    ensures value { result ≡ low + high * 256 }
    ensures bound { result < 65536 }
{
    usize::from(u16::from_le_bytes([low, high]))
}

// The number in the two bytes from `place` on.
pub(crate) fn two_at(bytes: &[u8], place: usize) -> usize
    requires { place + 2 ≤ length bytes.now }
    ensures value { result ≡ two (drop place bytes.now) }
    ensures bound { result < 65536 }
{
    number(bytes[place], bytes[place + 1])
}
