// Operations 10 to 14, 18 and 19: limits, operator and pause (lib.rs).
#![tactic(auto, unfolding(fields::specs::Rules::chain, fields::specs::Rules::or_else, fields::specs::Rules::verdict, crate::specs::Settings::operator_limit_number, crate::specs::Settings::operator_limit_outcome, crate::specs::Settings::below_holding_number, crate::specs::Settings::limit_role_number, crate::specs::Settings::limit_set_number, crate::specs::Settings::limit_set_outcome, crate::specs::Settings::token_max_limit_number, crate::specs::Settings::token_max_limit_outcome, crate::specs::Settings::operator_set_outcome, crate::specs::Settings::operator_revoked_outcome, crate::specs::Settings::already_paused_number, crate::specs::Settings::pause_number, crate::specs::Settings::pause_outcome, crate::specs::Settings::not_paused_number, crate::specs::Settings::unpause_number, crate::specs::Settings::unpause_outcome), using(outcome::specs::Outcome::refused, outcome::specs::Outcome::announced, outcome::specs::Outcome::accepted, checks::specs::Passed::gate_refused, checks::specs::Passed::gate_passed))]

ghost use Rattle.std.specs.Prelude.{◌≡◌};
ghost use Rattle.refusal.specs.Numbers.{code};
ghost use Rattle.amount.specs.Biased.{biased};
ghost use Rattle.image.specs.Layout.{initialised};
ghost use Rattle.storage.specs.Facts.{Good};
ghost use Rattle.outcome.specs.Outcome.{Does};
ghost use Rattle.settings.specs.Settings.{operator_limit_outcome, below_holding_number, limit_role_number, limit_set_number, limit_set_outcome, token_max_limit_outcome, operator_set_outcome, operator_revoked_outcome, pause_outcome, unpause_outcome};

use amount::Amount;
use events::{Buffer, Event};
use image::{Flag, Image};
use outcome::Answer;
use record::Head;
use refusal::Refusal;

// 8; 1, 3, 22; 4.
pub fn set_operator_withdraw_limit(img: &mut Image, head: Head, events: &mut Buffer) -> Answer
    ensures { Does (operator_limit_outcome img.old head.caller.number head.signers (biased head.amount)) result img.new events.new }
{
    checks::paused_check(img)?;
    checks::owner_gate(img, head.caller.number, head.signers)?;
    checks::amount_check(head.amount)?;
    let old = amount::read_amount(img, image::OPERATOR_LIMIT);
    storage::set_flag(img, Flag::OperatorLimit);
    amount::write_amount(img, image::OPERATOR_LIMIT, head.amount);
    Ok(outcome::announce(
        events,
        Event::OperatorWithdrawLimitSet {
            caller: head.caller.number,
            old_limit: old,
            new_limit: head.amount,
        },
    ))
}

// 6: below the vault's holding of the default token.
#[tactic(auto, unfolding(fields::specs::Rules::verdict, crate::specs::Settings::below_holding_number), using(amount::specs::Order::less_is))]
fn below_holding_check(img: &Image, n: Amount) -> Result<(), Refusal>
    requires { Good img.now × (initialised img.now ≡ 1) }
    ensures { code result ≡ below_holding_number img.now (biased n) }
{
    refusal::refuse_if(n < token::vault_balance(img), Refusal::LimitExceeded)
}

// Raising is for the owner only.
#[tactic(auto, unfolding(crate::specs::Settings::limit_role_number), using(amount::specs::Order::less_is))]
fn limit_role_check(img: &Image, caller: u8, n: Amount) -> Result<(), Refusal>
    ensures { code result ≡ limit_role_number img.now caller (biased n) }
{
    if amount::read_amount(img, image::VAULT_LIMIT) < n {
        checks::owner_role_check(img, caller)
    } else {
        checks::insider_role_check(img, caller)
    }
}

// 8; 1; 4; 6; 3; 22.
#[tactic(auto, unfolding(fields::specs::Rules::chain, fields::specs::Rules::or_else, crate::specs::Settings::limit_set_number), using(checks::specs::Passed::initialised_free))]
fn limit_check(img: &Image, head: Head) -> Result<(), Refusal>
    requires { Good img.now }
    ensures { code result ≡ limit_set_number img.now head.caller.number head.signers (biased head.amount) }
{
    checks::paused_check(img)?;
    checks::initialised_check(img)?;
    checks::amount_check(head.amount)?;
    below_holding_check(img, head.amount)?;
    limit_role_check(img, head.caller.number, head.amount)?;
    checks::signed_check(head.signers, head.caller.number)
}

pub fn set_limit(img: &mut Image, head: Head, events: &mut Buffer) -> Answer
    requires { Good img.old }
    ensures { Does (limit_set_outcome img.old head.caller.number head.signers (biased head.amount)) result img.new events.new }
{
    limit_check(img, head)?;
    let old = amount::read_amount(img, image::VAULT_LIMIT);
    amount::write_amount(img, image::VAULT_LIMIT, head.amount);
    Ok(outcome::announce(
        events,
        Event::LimitSet {
            caller: head.caller.number,
            old_limit: old,
            new_limit: head.amount,
        },
    ))
}

// 8; 1, 3, 22; 4.
pub fn set_token_max_limit(img: &mut Image, head: Head, events: &mut Buffer) -> Answer
    requires { Good img.old }
    ensures { Does (token_max_limit_outcome img.old head.caller.number head.token.number head.signers (biased head.amount)) result img.new events.new }
{
    checks::open_gate(img, head.caller.number, head.signers)?;
    checks::amount_check(head.amount)?;
    storage::set_token_max_limit(img, head.token, head.amount);
    Ok(outcome::announce_nothing(events))
}

pub fn set_operator(img: &mut Image, head: Head, events: &mut Buffer) -> Answer
    ensures { Does (operator_set_outcome img.old head.caller.number head.signers head.other.number) result img.new events.new }
{
    checks::owner_gate(img, head.caller.number, head.signers)?;
    storage::set_flag(img, Flag::Operator);
    fields::put8(img, image::OPERATOR, head.other.number);
    Ok(outcome::announce(
        events,
        Event::OperatorSet {
            caller: head.caller.number,
            operator: head.other.number,
        },
    ))
}

pub fn revoke_operator(img: &mut Image, head: Head, events: &mut Buffer) -> Answer
    ensures { Does (operator_revoked_outcome img.old head.caller.number head.signers) result img.new events.new }
{
    checks::owner_gate(img, head.caller.number, head.signers)?;
    storage::clear_flag(img, Flag::Operator);
    fields::put8(img, image::OPERATOR, 0);
    Ok(outcome::announce(
        events,
        Event::OperatorRevoked {
            caller: head.caller.number,
        },
    ))
}

// 1, 3, 22; 18. `unpause` turns it round: test, refusal, write and event would each be a parameter.
pub fn pause(img: &mut Image, head: Head, events: &mut Buffer) -> Answer
    ensures { Does (pause_outcome img.old head.caller.number head.signers head.timestamp) result img.new events.new }
{
    checks::owner_gate(img, head.caller.number, head.signers)?;
    refusal::refuse_if(checks::has_flag(img, Flag::Paused), Refusal::AlreadyPaused)?;
    storage::set_flag(img, Flag::Paused);
    Ok(outcome::announce(
        events,
        Event::Paused {
            caller: head.caller.number,
            paused_at: head.timestamp,
        },
    ))
}

// 1, 3, 22; 19.
pub fn unpause(img: &mut Image, head: Head, events: &mut Buffer) -> Answer
    ensures { Does (unpause_outcome img.old head.caller.number head.signers head.timestamp) result img.new events.new }
{
    checks::owner_gate(img, head.caller.number, head.signers)?;
    refusal::refuse_if(!checks::has_flag(img, Flag::Paused), Refusal::NotPaused)?;
    storage::clear_flag(img, Flag::Paused);
    Ok(outcome::announce(
        events,
        Event::Unpaused {
            caller: head.caller.number,
            resumed_at: head.timestamp,
        },
    ))
}
