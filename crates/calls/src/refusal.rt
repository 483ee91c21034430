// Why a call was refused.
ghost use Rattle.std.specs.Prelude.{◌≡◌};
ghost use Rattle.calls.specs.Refusals.{refusal_number, refused_by_book};

use book::refusal::BookRefusal;

#[derive(Clone, Copy, Debug, PartialEq, Eq)]
pub enum Refusal {
    // There is no such seat.
    NoSeat,
    // The seat has a job.
    SeatTaken,
    // The seat has no job.
    SeatVacant,
    // The book has no such line.
    NoLine,
    // The job holds as many writes as it may.
    TooManyWrites,
    // The book has more lines than a session takes.
    LongBook,
    // The memory that was handed in is too short.
    ShortMemory,
}

impl Refusal {
    // The number that users see. Kept a method: `From` would read as if the number were the refusal.
    pub fn number(self) -> u32
        ensures { result ≡ refusal_number self }
    {
        match self {
            Refusal::NoSeat => 1,
            Refusal::SeatTaken => 2,
            Refusal::SeatVacant => 3,
            Refusal::NoLine => 4,
            Refusal::TooManyWrites => 5,
            Refusal::LongBook => 6,
            Refusal::ShortMemory => 7,
        }
    }
}

// A book that lacks a line refuses for want of it.
impl From<BookRefusal> for Refusal {
    ghost from_gives = { λ by_book refusal. refusal ≡ refused_by_book by_book };

    fn from(by_book: BookRefusal) -> Refusal {
        match by_book {
            BookRefusal::NoLine => Refusal::NoLine,
        }
    }
}
