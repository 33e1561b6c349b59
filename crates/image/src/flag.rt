// The flags of an image, each a bit of its first two bytes.
ghost use Rattle.std.specs.Prelude.{◌≡◌};
ghost use Rattle.amount.specs.Biased.{num};
ghost use Rattle.image.specs.Flags.{flag, flag_bit};

use crate::address::contains;
use crate::{FLAGS, Image};

#[derive(Clone, Copy, Debug, PartialEq, Eq)]
pub enum Flag {
    Initialised = 0,
    Paused = 1,
    Operator = 2,
    OperatorLimit = 3,
    PendingOwner = 4,
    Migration = 5,
}

impl From<Flag> for u8 {
    ghost from_gives = { λ flag n. n ≡ flag_bit flag };

    // `as` is how an enum gives its number.
    fn from(flag: Flag) -> u8 {
        flag as u8
    }
}

#[tactic(auto, unfolding(crate::specs::Flags::flag, crate::specs::Flags::in_set))]
pub fn has_flag(img: &Image, wanted: Flag) -> bool
    ensures { num result ≡ flag (flag_bit wanted) img.now }
{
    contains(u64::from(fields::get16(img, FLAGS)), u8::from(wanted))
}
