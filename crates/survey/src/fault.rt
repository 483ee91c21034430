// Why a row is no value.
ghost use Rattle.std.specs.Prelude.{◌≡◌};
ghost use Rattle.survey.specs.Faults.{number};

#[derive(Clone, Copy, Debug, PartialEq, Eq)]
pub enum ValueFault {
    Station,
    Length,
    Passage,
    Metres,
}

impl ValueFault {
    // The number by which the fault is printed. Kept a method: `From` would read as if the number were the fault.
    pub fn number(self) -> u32
        ensures { result ≡ number self }
    {
        match self {
            ValueFault::Station => 11,
            ValueFault::Length => 12,
            ValueFault::Passage => 13,
            ValueFault::Metres => 15,
        }
    }
}
