// Operations 15 to 17: the owner is proposed and accepted, and how long a proposal lives (lib.rs).
#![tactic(auto, unfolding(fields::specs::Rules::chain, fields::specs::Rules::or_else, fields::specs::Rules::verdict, crate::specs::Handover::propose_outcome, crate::specs::Handover::propose_number, crate::specs::Handover::new_owner_number, crate::specs::Handover::pending_number, crate::specs::Handover::expired_number, crate::specs::Handover::accept_number, crate::specs::Handover::clear_pending, crate::specs::Handover::accept_outcome, crate::specs::Handover::proposal_ttl_outcome, crate::specs::Handover::proposal_ttl_number, crate::specs::Handover::ttl_number), using(outcome::specs::Outcome::refused, outcome::specs::Outcome::announced))]

ghost use Rattle.std.specs.Prelude.{IfOk, ◌≡◌};
ghost use Rattle.refusal.specs.Numbers.{code};
ghost use Rattle.image.specs.Layout.{proposer, proposed_at};
ghost use Rattle.outcome.specs.Outcome.{Does};
ghost use Rattle.handover.specs.Handover.{propose_outcome, pending_number, expired_number, accept_number, clear_pending, accept_outcome, proposal_ttl_outcome};

use events::{Buffer, Event};
use image::{Flag, Image, PendingOwner};
use outcome::Answer;
use record::Head;
use refusal::Refusal;

// 1, 3, 22; 14. Written field by field, as the definition puts them; a writer of an `Option` would match and put the same.
pub fn propose_owner(img: &mut Image, head: Head, events: &mut Buffer) -> Answer
    ensures { Does (propose_outcome img.old head.caller.number head.signers head.other.number head.timestamp) result img.new events.new }
{
    checks::owner_gate(img, head.caller.number, head.signers)?;
    refusal::refuse_if(head.other.number == 0, Refusal::InvalidParam)?;
    storage::set_flag(img, Flag::PendingOwner);
    fields::put8(img, image::PENDING_OWNER, head.other.number);
    fields::put8(img, image::PROPOSER, head.caller.number);
    fields::put64(img, image::PROPOSED_AT, head.timestamp);
    Ok(outcome::announce(
        events,
        Event::OwnerProposed {
            caller: head.caller.number,
            new_owner: head.other.number,
        },
    ))
}

// 15, 16.
fn pending_check(img: &Image, caller: u8) -> Result<PendingOwner, Refusal>
    ensures number { code result ≡ pending_number img.now caller }
    ensures pending { IfOk result (λ p. (p.proposer ≡ proposer img.now) × (p.proposed_at ≡ proposed_at img.now)) }
{
    let pending = image::pending_owner(img).ok_or(Refusal::NoPendingOwner)?;
    refusal::refuse_if(pending.address != caller, Refusal::NotPendingOwner)?;
    Ok(pending)
}

// 7, 17.
fn expired_check(img: &Image, pending: PendingOwner, time: u64) -> Result<(), Refusal>
    requires { pending.proposed_at ≡ proposed_at img.now }
    ensures { code result ≡ expired_number img.now time }
{
    let expires_at = pending
        .proposed_at
        .checked_add(fields::get64(img, image::TIME_TO_LIVE))
        .ok_or(Refusal::ArithmeticOverflow)?;
    refusal::refuse_if(time >= expires_at, Refusal::PendingOwnerExpired)
}

// 15, 16; 22; 7, 17; who proposed the new owner.
fn accept_check(img: &Image, head: Head) -> Result<u8, Refusal>
    ensures number { code result ≡ accept_number img.now head.caller.number head.signers head.timestamp }
    ensures proposer { IfOk result (λ p. p ≡ proposer img.now) }
{
    let pending = pending_check(img, head.caller.number)?;
    checks::signed_check(head.signers, head.caller.number)?;
    expired_check(img, pending, head.timestamp)?;
    Ok(pending.proposer)
}

fn clear_pending(img: &mut Image)
    ensures { img.new ≡ clear_pending img.old }
{
    storage::clear_flag(img, Flag::PendingOwner);
    fields::put8(img, image::PENDING_OWNER, 0);
    fields::put8(img, image::PROPOSER, 0);
    fields::put64(img, image::PROPOSED_AT, 0);
}

pub fn accept_owner(img: &mut Image, head: Head, events: &mut Buffer) -> Answer
    ensures { Does (accept_outcome img.old head.caller.number head.signers head.timestamp) result img.new events.new }
{
    let proposer = accept_check(img, head)?;
    clear_pending(img);
    fields::put8(img, image::OWNER, head.caller.number);
    Ok(outcome::announce(
        events,
        Event::OwnerAccepted {
            caller: head.caller.number,
            old_owner: proposer,
        },
    ))
}

// 1, 3, 22; 4.
pub fn set_owner_proposal_ttl(img: &mut Image, head: Head, events: &mut Buffer) -> Answer
    ensures { Does (proposal_ttl_outcome img.old head.caller.number head.signers head.time_to_live) result img.new events.new }
{
    checks::owner_gate(img, head.caller.number, head.signers)?;
    refusal::refuse_if(head.time_to_live == 0, Refusal::InvalidAmount)?;
    let old = fields::get64(img, image::TIME_TO_LIVE);
    fields::put64(img, image::TIME_TO_LIVE, head.time_to_live);
    Ok(outcome::announce(
        events,
        Event::OwnerProposalTtlSet {
            caller: head.caller.number,
            old_ttl: old,
            new_ttl: head.time_to_live,
        },
    ))
}
