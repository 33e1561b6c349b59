// The views, operations 24 to 28 (lib.rs).
#![tactic(auto, unfolding(crate::specs::Views::account_outcome, crate::specs::Views::approved_outcome, crate::specs::Views::compliant_number, crate::specs::Views::compliant_outcome), using(outcome::specs::Outcome::view_refused, outcome::specs::Outcome::view_accepted, checks::specs::Passed::initialised_free, amount::specs::Order::biased_zero))]

ghost use Rattle.std.specs.Prelude.{◌≡◌, ◌+◌};
ghost use Rattle.amount.specs.Biased.{bias, biased};
ghost use Rattle.storage.specs.Facts.{Good};
ghost use Rattle.outcome.specs.Outcome.{Views};
ghost use Rattle.views.specs.Views.{balance_outcome, effective_outcome, account_balance, account_outcome, approved_outcome, compliant_outcome};

use amount::Amount;
use image::{Address, Image, Token};
use outcome::{Answer, Done};
use record::Head;
use refusal::Refusal;

#[tactic(auto, unfolding(crate::specs::Views::balance_outcome), using(outcome::specs::Outcome::view_refused, outcome::specs::Outcome::view_accepted, checks::specs::Passed::initialised_free, crate::proofs::Steps::shown_balance))]
pub fn balance(img: &Image) -> Answer
    requires { Good img.now }
    ensures { Views (balance_outcome img.now) result }
{
    checks::initialised_check(img)?;
    Ok(Done::viewed(token::vault_balance(img)))
}

// 8; 1; 3, 6. The owner may take all that is there.
#[tactic(auto, unfolding(fields::specs::Rules::chain, fields::specs::Rules::or_else, fields::specs::Rules::verdict, checks::specs::Checks::flag, checks::specs::Checks::insider_role_number, crate::specs::Views::withdraw_cap_number, crate::specs::Views::effective_number, crate::specs::Views::effective_outcome), using(outcome::specs::Outcome::view_refused, outcome::specs::Outcome::view_accepted, checks::specs::Passed::initialised_free, crate::proofs::Steps::owner_value, crate::proofs::Steps::capped_value, crate::proofs::Steps::full_value, amount::specs::Order::lt_true, amount::specs::Order::lt_false))]
pub fn effective_withdraw_limit(img: &Image, head: Head) -> Answer
    requires { Good img.now }
    ensures { Views (effective_outcome img.now head.caller.number) result }
{
    checks::paused_check(img)?;
    checks::initialised_check(img)?;
    let held = token::vault_balance(img);
    if fields::get8(img, image::OWNER) == head.caller.number {
        return Ok(Done::viewed(held));
    }
    checks::insider_role_check(img, head.caller.number)?;
    let limit = image::operator_limit(img).ok_or(Refusal::LimitExceeded)?;
    Ok(Done::viewed(held.min(limit)))
}

#[tactic(auto, using(crate::proofs::Steps::no_token, crate::proofs::Steps::token_credit, amount::specs::Order::biased_zero))]
fn account_balance(img: &Image, address: Address, account: Address) -> Amount
    requires { Good img.now }
    ensures { biased result ≡ bias + account_balance img.now address.number account.number }
{
    let Some(token) = Token::new(address.number) else {
        return Amount::ZERO;
    };
    storage::get_token_account_balance(img, token, account)
}

pub fn get_token_account_balance(img: &Image, head: Head) -> Answer
    requires { Good img.now }
    ensures { Views (account_outcome img.now head.token.number head.caller.number) result }
{
    Ok(Done::viewed(account_balance(img, head.token, head.caller)))
}

pub fn is_token_approved(img: &Image, head: Head) -> Answer
    ensures { Views (approved_outcome img.now head.token.number) result }
{
    let approved = checks::contains(fields::get64(img, image::APPROVED_SET), head.token.number);
    Ok(Done::viewed(Amount::from(u64::from(approved))))
}

pub fn is_token_compliant(img: &Image, head: Head) -> Answer
    ensures { Views (compliant_outcome img.now head.token.number) result }
{
    if head.token.number == 0 {
        return Ok(Done::viewed(Amount::ZERO));
    }
    token::presence_check(img, usize::from(head.token.number))?;
    Ok(Done::viewed(Amount::from(1)))
}
