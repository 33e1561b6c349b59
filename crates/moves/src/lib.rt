// Operations 29 and 30, which the contract's Rust does not have: a transfer between others, and a token frozen or thawed.
#![tactic(auto, unfolding(fields::specs::Rules::chain, fields::specs::Rules::or_else, fields::specs::Rules::verdict, crate::specs::Outside::sender_number, crate::specs::Outside::outside_move_checks, crate::specs::Outside::freeze_number, crate::specs::Outside::frozen_kind, crate::specs::Outside::freeze_outcome), using(outcome::specs::Outcome::refused, outcome::specs::Outcome::accepted))]

ghost use Rattle.std.specs.Prelude.{◌≡◌};
ghost use Rattle.refusal.specs.Numbers.{code};
ghost use Rattle.amount.specs.Biased.{biased, num};
ghost use Rattle.storage.specs.Facts.{Good};
ghost use Rattle.outcome.specs.Outcome.{Does};
ghost use Rattle.moves.specs.Outside.{outside_move_checks, outside_move_outcome, freeze_outcome};

use amount::Amount;
use events::Buffer;
use image::{Image, Kind};
use outcome::Answer;
use record::Head;
use refusal::Refusal;

// 14; 4.
fn outside_move_check(caller: u8, n: Amount) -> Result<(), Refusal>
    ensures { code result ≡ outside_move_checks caller (biased n) }
{
    refusal::refuse_if(caller == token::VAULT.number, Refusal::InvalidParam)?;
    checks::amount_check(n)
}

#[tactic(auto, unfolding(fields::specs::Rules::chain, fields::specs::Rules::or_else, crate::specs::Outside::outside_move_number, crate::specs::Outside::outside_move_outcome), using(outcome::specs::Outcome::refused, outcome::specs::Outcome::accepted, token::specs::Laws::transfer_done, crate::specs::Laws::outside_free))]
pub fn outside_move(img: &mut Image, head: Head, events: &mut Buffer) -> Answer
    requires { Good img.old }
    ensures { Does (outside_move_outcome img.old head.caller.number head.token.number head.other.number (biased head.amount)) result img.new events.new }
{
    outside_move_check(head.caller.number, head.amount)?;
    token::transfer(
        img,
        usize::from(head.token.number),
        head.caller,
        head.other,
        head.amount,
    )?;
    Ok(outcome::announce_nothing(events))
}

pub fn freeze(img: &mut Image, head: Head, events: &mut Buffer) -> Answer
    ensures { Does (freeze_outcome img.old head.token.number (num head.flag)) result img.new events.new }
{
    let token = token::presence_check(img, usize::from(head.token.number)).map_err(
        |_| Refusal::InvalidParam,
    )?;
    let kind = if head.flag {
        Kind::Frozen
    } else {
        Kind::Moving
    };
    image::set_token_kind(img, token, kind);
    Ok(outcome::announce_nothing(events))
}
