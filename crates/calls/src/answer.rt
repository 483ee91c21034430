// What a step that was not refused answers.
use crate::ending::Ending;

#[derive(Clone, Copy, Debug, PartialEq, Eq)]
pub enum Answer {
    // The job was given the value of this line.
    Read { line: u32 },
    // The job's write to this line is held.
    Write { line: u32 },
    // The job ended so.
    End(Ending),
    // The job went back, and keeps this many reads.
    Back { kept: u32 },
}
