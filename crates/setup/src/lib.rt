// Operations 1 `initialize` and 20 `approve_token` (lib.rs).
#![tactic(auto, unfolding(fields::specs::Rules::chain, fields::specs::Rules::or_else, fields::specs::Rules::verdict, crate::specs::Setup::zero_token_number, crate::specs::Setup::valid_token_number, crate::specs::Setup::approve_number, crate::specs::Setup::approve_outcome, crate::specs::Setup::done_before_number, crate::specs::Setup::initialize_number, crate::specs::Setup::initialize_image, crate::specs::Setup::initialize_outcome), using(outcome::specs::Outcome::refused, outcome::specs::Outcome::announced))]

ghost use Rattle.std.specs.Prelude.{◌≡◌, eqb};
ghost use Rattle.refusal.specs.Numbers.{code};
ghost use Rattle.fields.specs.Rules.{pick};
ghost use Rattle.amount.specs.Biased.{biased, num};
ghost use Rattle.image.specs.Layout.{approved_set, with_bit, without_bit};
ghost use Rattle.outcome.specs.Outcome.{Does};
ghost use Rattle.setup.specs.Setup.{valid_token_number, approve_number, approve_outcome, initialize_number, initialize_image, initialize_outcome};

use events::{Buffer, Event};
use image::{Flag, Image};
use outcome::Answer;
use record::Head;
use refusal::Refusal;

// How long an owner proposal lives until operation 17 sets another time: a week, in seconds.
const PROPOSAL_TIME_TO_LIVE: u64 = 604_800;

// validate_sep41_token: 9, 23.
fn valid_token_check(img: &Image, t: u8) -> Result<(), Refusal>
    ensures { code result ≡ valid_token_number img.now t }
{
    refusal::refuse_if(t == 0, Refusal::InvalidToken)?;
    token::presence_check(img, usize::from(t))?;
    Ok(())
}

// 1, 3, 22; for a token to be approved 9, 23.
fn approve_check(img: &Image, head: Head) -> Result<(), Refusal>
    ensures { code result ≡ approve_number img.now head.caller.number head.signers head.token.number (num head.flag) }
{
    checks::owner_gate(img, head.caller.number, head.signers)?;
    if head.flag {
        valid_token_check(img, head.token.number)?;
    }
    Ok(())
}

// The approved set with the token in it or not.
fn approved_set(img: &Image, head: Head) -> u64
    ensures { result ≡ pick (eqb (num head.flag) 1) (with_bit (approved_set img.now) head.token.number) (without_bit (approved_set img.now) head.token.number) }
{
    let set = fields::get64(img, image::APPROVED_SET);
    if head.flag {
        storage::with_bit(set, head.token)
    } else {
        storage::without_bit(set, head.token)
    }
}

pub fn approve_token(img: &mut Image, head: Head, events: &mut Buffer) -> Answer
    ensures { Does (approve_outcome img.old head.caller.number head.signers head.token.number (num head.flag)) result img.new events.new }
{
    approve_check(img, head)?;
    let set = approved_set(img, head);
    fields::put64(img, image::APPROVED_SET, set);
    Ok(outcome::announce(
        events,
        Event::TokenApprovalChanged {
            token: head.token.number,
            approved: head.flag,
        },
    ))
}

// 22; 4; 9, 23; 2.
fn initialize_check(img: &Image, head: Head) -> Result<(), Refusal>
    ensures { code result ≡ initialize_number img.now head.caller.number head.signers head.token.number (biased head.amount) }
{
    checks::signed_check(head.signers, head.caller.number)?;
    checks::amount_check(head.amount)?;
    valid_token_check(img, head.token.number)?;
    refusal::refuse_if(
        checks::has_flag(img, Flag::Initialised),
        Refusal::AlreadyInitialized,
    )
}

fn initialize_image(img: &mut Image, head: Head)
    ensures { img.new ≡ initialize_image img.old head.caller.number head.token.number (biased head.amount) }
{
    let set = fields::get64(img, image::APPROVED_SET);
    storage::set_flag(img, Flag::Initialised);
    fields::put8(img, image::OWNER, head.caller.number);
    fields::put8(img, image::DEFAULT_TOKEN, head.token.number);
    amount::write_amount(img, image::VAULT_LIMIT, head.amount);
    fields::put64(img, image::TIME_TO_LIVE, PROPOSAL_TIME_TO_LIVE);
    fields::put64(img, image::APPROVED_SET, storage::with_bit(set, head.token));
}

pub fn initialize(img: &mut Image, head: Head, events: &mut Buffer) -> Answer
    ensures { Does (initialize_outcome img.old head.caller.number head.signers head.token.number (biased head.amount)) result img.new events.new }
{
    initialize_check(img, head)?;
    initialize_image(img, head);
    Ok(outcome::announce(
        events,
        Event::Initialized {
            owner: head.caller.number,
            token: head.token.number,
            max_limit: head.amount,
        },
    ))
}
