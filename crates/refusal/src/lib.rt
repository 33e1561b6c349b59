// The refusals of docs/FORMATS.md: an error enum, the number of each, and a check of one rule.
#![tactic(auto)]

ghost use Rattle.std.specs.Prelude.{◌≡◌};
ghost use Rattle.fields.specs.Rules.{pick};
ghost use Rattle.refusal.specs.Numbers.{number_of, code};
ghost use Rattle.refusal.specs.Distinct.{DistinctNumbers};

#[derive(Clone, Copy, Debug, PartialEq, Eq, Hash)]
pub enum Refusal {
    NotInitialized = 1,
    AlreadyInitialized = 2,
    NotAuthorized = 3,
    InvalidAmount = 4,
    DepositExceedsMax = 5,
    LimitExceeded = 6,
    ArithmeticOverflow = 7,
    ContractPaused = 8,
    InvalidToken = 9,
    TokenNotApproved = 10,
    VaultBalanceChanged = 11,
    DepositTransferFailed = 12,
    WithdrawTransferFailed = 13,
    InvalidParam = 14,
    NoPendingOwner = 15,
    NotPendingOwner = 16,
    PendingOwnerExpired = 17,
    AlreadyPaused = 18,
    NotPaused = 19,
    NoMigrationProposed = 20,
    TimelockNotExpired = 21,
    SignatureMissing = 22,
    TokenCallFailed = 23,
    InvalidImage = 30,
    InvalidJournal = 31,
    InvalidRecord = 32,
    InvalidEventBuffer = 33,
    JournalFull = 34,
    NoTransaction = 35,
    TransactionOpen = 36,
    NothingToUndo = 37,
    InvalidTollBounds = 46,
}

impl From<Refusal> for u8 {
    ghost from_gives = { λ r n. n ≡ number_of r };

    // `as` is how an enum gives its number.
    fn from(refusal: Refusal) -> u8 {
        refusal as u8
    }
}

// The number of an answer: 0 where it is no refusal.
pub fn number<T>(answer: &Result<T, Refusal>) -> u32
    ensures { result ≡ code answer.now }
{
    match answer {
        Ok(_) => 0,
        Err(refusal) => u32::from(u8::from(*refusal)),
    }
}

pub fn refuse_if(holds: bool, refusal: Refusal) -> Result<(), Refusal>
    ensures { code result ≡ pick holds (number_of refusal) 0 }
{
    if holds { Err(refusal) } else { Ok(()) }
}

// The contract carries the theorem `DistinctNumbers`; the number is how many refusals there are.
#[tactic(auto, using(crate::proofs::Distinct::distinct_numbers))]
pub fn distinct_numbers() -> u32
    ensures { DistinctNumbers }
{
    32
}
