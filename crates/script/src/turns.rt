// A turn list, line by line.
ghost use Rattle.std.specs.Prelude.{◌+◌, ◌^◌, ◌≤◌, length};
ghost use Rattle.script.specs.Parts.{lines_left};

use crate::lines::Lines;

mod methods;

// The lines that are left, and how many were read.
// Kept a count and no `Enumerate` (not tried): what is left is said by the lines alone, and one more field is plain.
#[derive(Drop)]
pub struct Turns<'a> {
    lines: Lines<'a>,
    count: usize,
    ghost counted: { count + length (lines_left lines) ≤ 2 ^ 63 },
}
