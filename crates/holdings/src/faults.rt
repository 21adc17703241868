// Why a store refuses.
ghost use Rattle.std.specs.Prelude.{◌≡◌};
ghost use Rattle.holdings.specs.Answers.{store_number};

// A pair is out of range, or absent where the store holds its most.
#[derive(Clone, Copy, PartialEq, Eq, Debug)]
pub enum StoreFault {
    Full,
}

impl StoreFault {
    // The number by which the refusal is told.
    pub fn number(self) -> u8
        ensures { result ≡ store_number self }
    {
        match self {
            StoreFault::Full => 14,
        }
    }
}
