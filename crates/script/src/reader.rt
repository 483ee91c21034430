// A place in lent bytes, which are read where they lie.
ghost use Rattle.std.specs.Prelude.{◌+◌, ◌≤◌, length};

mod methods;

// Behind the last part the place is one past the bytes, as if a separator stood there.
#[derive(Clone, Copy)]
pub struct Reader<'a> {
    bytes: &'a [u8],
    place: usize,
    ghost within: { place ≤ length bytes.now + 1 },
}
