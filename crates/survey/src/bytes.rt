// Bytes written into lent memory.
ghost use Rattle.survey.specs.Bytes.{Puts};

// Writes `bytes` into `out` from `place` on and answers the place behind them; writes nothing where they do not fit.
pub fn put(out: &mut [u8], place: usize, bytes: &[u8]) -> Option<usize>
    ensures { Puts out.old place bytes.now out.new result }
{
    let end = place.checked_add(bytes.len())?;
    // Kept a test: of `get_mut` it is not known what the slice holds after a write through what it gives.
    if end > out.len() {
        return None;
    }
    out[place..end].copy_from_slice(bytes);
    Some(end)
}
