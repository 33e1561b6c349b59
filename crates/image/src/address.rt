// Addresses, those among them that are tokens', and sets of them.
ghost use Rattle.std.specs.Prelude.{◌≡◌, ◌<◌, ◌≤◌, MatchOption};
ghost use Rattle.amount.specs.Biased.{num};
ghost use Rattle.image.specs.Layout.{slot};
ghost use Rattle.image.specs.Flags.{in_set};

use crate::FIRST_TOKEN;

#[derive(Clone, Copy, Debug, PartialEq, Eq)]
pub struct Address {
    pub number: u8,
    pub ghost in_range: { number < 64 },
}

#[derive(Clone, Copy, Debug, PartialEq, Eq)]
pub struct Token {
    pub address: u8,
    pub ghost in_range: { (48 ≤ address) × (address < 64) },
}

impl Address {
    // As std's `NonZero::new`.
    pub fn new(number: u8) -> Option<Address>
        ensures { MatchOption result (64 ≤ number) (λ a. a.number ≡ number) }
    {
        if number < 64 {
            return Some(Address { number });
        }
        None
    }
}

impl Token {
    // As std's `NonZero::new`.
    pub fn new(address: u8) -> Option<Token>
        ensures { MatchOption result (48 ≤ address → 64 ≤ address) (λ t. t.address ≡ address) }
    {
        if FIRST_TOKEN <= address && address < 64 {
            return Some(Token { address });
        }
        None
    }

    // Its place among the tokens.
    pub fn slot(self) -> usize
        ensures { result ≡ slot self.address }
    {
        usize::from(self.address - FIRST_TOKEN)
    }
}

// Whether a set of addresses, or of flags, holds one. A set is the format's number;
// a struct of it would be made where it is read and taken apart where it is written.
#[tactic(auto, unfolding(crate::specs::Flags::in_set), using(amount::specs::Laws::num_bit, crate::specs::Flags::past_set))]
pub fn contains(set: u64, a: u8) -> bool
    ensures { num result ≡ in_set set a }
{
    a < 64 && (set >> a) % 2 == 1
}
