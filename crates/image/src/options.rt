// What an image may lack: a flag, a bit of a set or a number says whether it is there, and its value stands beside it.
#![tactic(auto, unfolding(crate::specs::Flags::flag, crate::specs::Flags::in_set))]

ghost use Rattle.std.specs.Prelude.{◌≡◌, MatchOption};
ghost use Rattle.amount.specs.Biased.{biased};
ghost use Rattle.image.specs.Flags.{flag, in_set};
ghost use Rattle.image.specs.Layout.{slot, operator, operator_limit, pending_owner, proposer, proposed_at, destination, executable_at, capped_set, cap, snapshot_present, snapshot_ledger, snapshot_holding};

use crate::address::{Address, Token, contains};
use crate::flag::{Flag, has_flag};
use crate::{
    CAPPED_SET, DESTINATION, EXECUTABLE_AT, Image, OPERATOR, OPERATOR_LIMIT, PENDING_OWNER,
    PROPOSED_AT, PROPOSER, cap_at, snapshot_at,
};
use amount::Amount;

// Addresses are bytes here: that they are below 64 is known of a good image alone, which these do not ask for.
pub fn operator(img: &Image) -> Option<u8>
    ensures { MatchOption result (flag 2 img.now ≡ 0) (λ a. (flag 2 img.now ≡ 1) × (a ≡ operator img.now)) }
{
    has_flag(img, Flag::Operator).then_some(fields::get8(img, OPERATOR))
}

pub fn operator_limit(img: &Image) -> Option<Amount>
    ensures { MatchOption result (flag 3 img.now ≡ 0) (λ limit. (flag 3 img.now ≡ 1) × (biased limit ≡ operator_limit img.now)) }
{
    has_flag(img, Flag::OperatorLimit).then_some(amount::read_amount(img, OPERATOR_LIMIT))
}

// The address that is proposed as owner, by whom and when.
#[derive(Clone, Copy, Debug, PartialEq, Eq)]
pub struct PendingOwner {
    pub address: u8,
    pub proposer: u8,
    pub proposed_at: u64,
}

pub fn pending_owner(img: &Image) -> Option<PendingOwner>
    ensures { MatchOption result (flag 4 img.now ≡ 0) (λ p. (flag 4 img.now ≡ 1) × (p.address ≡ pending_owner img.now) × (p.proposer ≡ proposer img.now) × (p.proposed_at ≡ proposed_at img.now)) }
{
    has_flag(img, Flag::PendingOwner).then_some(PendingOwner {
        address: fields::get8(img, PENDING_OWNER),
        proposer: fields::get8(img, PROPOSER),
        proposed_at: fields::get64(img, PROPOSED_AT),
    })
}

// Where the vault's holding is to go, and from when.
#[derive(Clone, Copy, Debug, PartialEq, Eq)]
pub struct Migration {
    pub destination: u8,
    pub executable_at: u64,
}

pub fn proposed_migration(img: &Image) -> Option<Migration>
    ensures { MatchOption result (flag 5 img.now ≡ 0) (λ m. (flag 5 img.now ≡ 1) × (m.destination ≡ destination img.now) × (m.executable_at ≡ executable_at img.now)) }
{
    has_flag(img, Flag::Migration).then_some(Migration {
        destination: fields::get8(img, DESTINATION),
        executable_at: fields::get64(img, EXECUTABLE_AT),
    })
}

pub fn cap(img: &Image, a: Address) -> Option<Amount>
    ensures { MatchOption result (in_set (capped_set img.now) a.number ≡ 0) (λ limit. (in_set (capped_set img.now) a.number ≡ 1) × (biased limit ≡ cap img.now a.number)) }
{
    contains(fields::get64(img, CAPPED_SET), a.number).then_some(amount::read_amount(
        img,
        cap_at(a),
    ))
}

// The vault's holding of a token, as it was last recorded.
#[derive(Clone, Copy, Debug, PartialEq, Eq)]
pub struct Snapshot {
    pub sequence: u32,
    pub balance: Amount,
}

pub fn vault_snapshot(img: &Image, token: Token) -> Option<Snapshot>
    ensures { MatchOption result (snapshot_present img.now (slot token.address) ≡ 1 → ⊥) (λ s. (snapshot_present img.now (slot token.address) ≡ 1) × (s.sequence ≡ snapshot_ledger img.now (slot token.address)) × (biased s.balance ≡ snapshot_holding img.now (slot token.address))) }
{
    let at = snapshot_at(token);
    (fields::get32(img, at) == 1).then_some(Snapshot {
        sequence: fields::get32(img, at + 4),
        balance: amount::read_amount(img, at + 8),
    })
}
