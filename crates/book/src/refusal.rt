// Why a book refuses.
ghost use Rattle.std.specs.Prelude.{◌≡◌};
ghost use Rattle.book.specs.Refusals.{number};

#[derive(Clone, Copy, Debug, PartialEq, Eq)]
pub enum BookRefusal {
    NoLine,
}

impl BookRefusal {
    // The number by which the refusal is printed. Kept a method: `From` would read as if the number were the refusal.
    pub fn number(self) -> u32
        ensures { result ≡ number self }
    {
        match self {
            BookRefusal::NoLine => 4,
        }
    }
}
