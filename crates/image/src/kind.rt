// The kind of a token, the first eight bytes of its place in an image.
ghost use Rattle.std.specs.Prelude.{◌≡◌, ◌<◌, ◌≤◌, MatchResult};
ghost use Rattle.image.specs.Kinds.{kind_of, kind_number};

#[derive(Clone, Copy, Debug, PartialEq, Eq)]
pub enum Kind {
    Absent = 0,
    Moving = 1,
    Frozen = 2,
}

// A number above 2 is no kind's.
impl TryFrom<u64> for Kind {
    type Error = ();

    ghost try_from_gives = { λ n r. MatchResult r (λ kind. (n < 3) × (kind ≡ kind_of n)) (λ _. 3 ≤ n) };

    fn try_from(number: u64) -> Result<Kind, ()> {
        match number {
            0 => Ok(Kind::Absent),
            1 => Ok(Kind::Moving),
            2 => Ok(Kind::Frozen),
            _ => Err(()),
        }
    }
}

impl From<Kind> for u64 {
    ghost from_gives = { λ kind n. n ≡ kind_number kind };

    // `as` is how an enum gives its number.
    fn from(kind: Kind) -> u64 {
        kind as u64
    }
}
