// Why an input is refused: the table of RULES 3.1, each fault under its number.
ghost use Rattle.std.specs.Prelude.{◌≡◌};
ghost use Rattle.text.specs.Faults.{number_of};

#[derive(Clone, Copy, PartialEq, Eq)]
pub enum Fault {
    Size = 1,
    Length = 2,
    Side = 3,
    Setting = 4,
    Height = 5,
    Name = 6,
    Malformed = 7,
    Fine = 8,
    Ended = 9,
    Trailing = 10,
    Large = 11,
    Comma = 12,
    Room = 13,
    FloatBytes = 14,
    NotFinite = 15,
    Overflow = 16,
    Direction = 17,
    Ring = 18,
    Mark = 19,
}

impl Fault {
    // The number of the table.
    pub fn number(self) -> u32
        ensures { result ≡ number_of self }
    {
        self as u32
    }
}
