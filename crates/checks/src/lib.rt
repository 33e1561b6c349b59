// Checks that several operations make: each refuses by the first rule that holds, or lets the operation go on.
#![tactic(auto, unfolding(fields::specs::Rules::chain, fields::specs::Rules::or_else, fields::specs::Rules::verdict, crate::specs::Checks::paused_number, crate::specs::Checks::signed_number, crate::specs::Checks::initialised_number, crate::specs::Checks::owner_role_number, crate::specs::Checks::not_owner_number, crate::specs::Checks::owner_number, crate::specs::Checks::insider, crate::specs::Checks::insider_role_number, crate::specs::Checks::not_insider_number, crate::specs::Checks::shared_number, crate::specs::Checks::amount_number, crate::specs::Checks::max_deposit_number, crate::specs::Checks::deposit_amount_number, crate::specs::Checks::approved_number, crate::specs::Checks::limit_number, crate::specs::Checks::cap_number, crate::specs::Checks::funds_number), using(amount::specs::Order::greater_is, amount::specs::Laws::over_high))]

ghost use Rattle.std.specs.Prelude.{◌≡◌, [], ◌∷◌, ◌<◌, ◌≤◌};
ghost use Rattle.fields.specs.Rules.{chain};
ghost use Rattle.refusal.specs.Numbers.{code};
ghost use Rattle.amount.specs.Biased.{bias, biased, num};
ghost use Rattle.checks.specs.Checks.{insider, paused_number, signed_number, initialised_number, owner_role_number, not_owner_number, owner_number, insider_role_number, not_insider_number, shared_number, amount_number, max_deposit_number, deposit_amount_number, approved_number, limit_number, cap_number, funds_number};

use amount::Amount;
use image::{Flag, Image};
pub use image::{contains, has_flag};
use refusal::Refusal;

// 8.
pub fn paused_check(img: &Image) -> Result<(), Refusal>
    ensures { code result ≡ paused_number img.now }
{
    refusal::refuse_if(has_flag(img, Flag::Paused), Refusal::ContractPaused)
}

// 22.
pub fn signed_check(signers: u64, a: u8) -> Result<(), Refusal>
    ensures { code result ≡ signed_number signers a }
{
    refusal::refuse_if(!contains(signers, a), Refusal::SignatureMissing)
}

// 1.
pub fn initialised_check(img: &Image) -> Result<(), Refusal>
    ensures { code result ≡ initialised_number img.now }
{
    refusal::refuse_if(!has_flag(img, Flag::Initialised), Refusal::NotInitialized)
}

// 3.
pub fn owner_role_check(img: &Image, caller: u8) -> Result<(), Refusal>
    ensures { code result ≡ owner_role_number img.now caller }
{
    refusal::refuse_if(
        fields::get8(img, image::OWNER) != caller,
        Refusal::NotAuthorized,
    )
}

// 1, 3, 22. `shared_gate` differs in one check, which a parameter would name as well.
// A struct of caller and signers would stand in `Head`; `initialize` and batches test other addresses by the same set.
pub fn owner_gate(img: &Image, caller: u8, signers: u64) -> Result<(), Refusal>
    ensures { code result ≡ owner_number img.now caller signers }
{
    initialised_check(img)?;
    owner_role_check(img, caller)?;
    signed_check(signers, caller)
}

// Whether the address is the owner's or the operator's.
pub fn is_insider(img: &Image, a: u8) -> bool
    ensures { num result ≡ insider img.now a }
{
    fields::get8(img, image::OWNER) == a || image::operator(img) == Some(a)
}

// 3, the operator let in too.
pub fn insider_role_check(img: &Image, caller: u8) -> Result<(), Refusal>
    ensures { code result ≡ insider_role_number img.now caller }
{
    refusal::refuse_if(!is_insider(img, caller), Refusal::NotAuthorized)
}

// 1, 3, 22, the operator let in too.
pub fn shared_gate(img: &Image, caller: u8, signers: u64) -> Result<(), Refusal>
    ensures { code result ≡ shared_number img.now caller signers }
{
    initialised_check(img)?;
    insider_role_check(img, caller)?;
    signed_check(signers, caller)
}

// 8; 1, 3, 22.
pub fn open_gate(img: &Image, caller: u8, signers: u64) -> Result<(), Refusal>
    ensures { code result ≡ chain (paused_number img.now ∷ shared_number img.now caller signers ∷ []) }
{
    paused_check(img)?;
    shared_gate(img, caller, signers)
}

// 4.
pub fn amount_check(n: Amount) -> Result<(), Refusal>
    ensures { code result ≡ amount_number (biased n) }
{
    refusal::refuse_if(!n.is_positive(), Refusal::InvalidAmount)
}

// The most that one deposit may bring.
const MAX_VAULT_DEPOSIT: Amount = Amount(1_000_000_000_000_000_000_000_000_000_000);

// 5.
pub fn max_deposit_check(n: Amount) -> Result<(), Refusal>
    ensures { code result ≡ max_deposit_number (biased n) }
{
    refusal::refuse_if(n > MAX_VAULT_DEPOSIT, Refusal::DepositExceedsMax)
}

// 4, 5.
pub fn deposit_amount_check(n: Amount) -> Result<(), Refusal>
    ensures { code result ≡ deposit_amount_number (biased n) }
{
    amount_check(n)?;
    max_deposit_check(n)
}

// 10.
pub fn approved_check(img: &Image, t: u8) -> Result<(), Refusal>
    ensures { code result ≡ approved_number img.now t }
{
    refusal::refuse_if(
        !contains(fields::get64(img, image::APPROVED_SET), t),
        Refusal::TokenNotApproved,
    )
}

// 7, 6 above a limit, of a holding and an amount that is not negative.
pub fn limit_check(holding: Amount, n: Amount, limit: Amount) -> Result<(), Refusal>
    requires { bias ≤ biased n }
    ensures { code result ≡ limit_number (biased holding) (biased n) (biased limit) }
{
    let sum = holding.checked_add(n).ok_or(Refusal::ArithmeticOverflow)?;
    refusal::refuse_if(sum > limit, Refusal::LimitExceeded)
}

// 6: not the owner, and no operator limit or above it.
pub fn cap_check(img: &Image, caller: u8, sum: Amount) -> Result<(), Refusal>
    ensures { code result ≡ cap_number img.now caller (biased sum) }
{
    if fields::get8(img, image::OWNER) == caller {
        return Ok(());
    }
    let limit = image::operator_limit(img).ok_or(Refusal::LimitExceeded)?;
    refusal::refuse_if(sum > limit, Refusal::LimitExceeded)
}

// 6: above a holding.
pub fn funds_check(holding: Amount, sum: Amount) -> Result<(), Refusal>
    ensures { code result ≡ funds_number (biased holding) (biased sum) }
{
    refusal::refuse_if(sum > holding, Refusal::LimitExceeded)
}
