// Whether an image is good: one function for each part of the definition.
#![tactic(auto, unfolding(crate::specs::Flags::flag, crate::specs::Good::above_where, crate::specs::Good::good_addresses, crate::specs::Good::good_defaults, crate::specs::Good::good_pending, crate::specs::Good::good_migration, crate::specs::Good::good_options, crate::specs::Good::good_head, crate::specs::Good::good_cap, crate::specs::Good::good_keys, crate::specs::Good::good_snapshot, crate::specs::Good::good_absent, crate::specs::Good::good_present, crate::specs::Good::good_token, crate::specs::Good::good_image), using(fields::specs::Logic::and_is, fields::specs::Logic::or_is, fields::specs::Logic::and_assoc, crate::specs::Flags::test_is))]

mod address;
mod flag;
mod kind;
mod options;
mod places;

ghost use Rattle.std.specs.Prelude.{List, ℕ, MatchOption, IfSome, ◌≡◌, ◌+◌, ◌*◌, ◌/◌, ◌≤◌, ◌<◌, ltb, leb, eqb, length};
ghost use Rattle.fields.specs.Bytes.{le, put};
ghost use Rattle.amount.specs.Biased.{amount_at, bias, num};
ghost use Rattle.image.specs.Kinds.{kind_of, kind_number};
ghost use Rattle.image.specs.Layout.{slot, kind, token_at, tracked_count};
ghost use Rattle.image.specs.Keys.{AreTracked};
ghost use Rattle.fields.specs.Logic.{all};
ghost use Rattle.image.specs.Good.{
  not_negatives,
  above_where,
  good_addresses,
  good_defaults,
  good_pending,
  good_migration,
  good_options,
  good_head,
  good_cap,
  fresh_key,
  good_keys,
  good_snapshot,
  good_absent,
  good_present,
  good_token,
  good_image,
};

pub use address::{Address, Token, contains};
use amount::Amount;
pub use flag::{Flag, has_flag};
pub use kind::Kind;
pub use options::{
    Migration, PendingOwner, Snapshot, cap, operator, operator_limit, pending_owner,
    proposed_migration, vault_snapshot,
};
pub use places::{
    APPROVED_SET, CAPPED_SET, CAPS, CREDITS, DEFAULT_TOKEN, DESTINATION, EXECUTABLE_AT, FLAGS,
    HOLDINGS, MIGRATION_PROPOSED_AT, OPERATOR, OPERATOR_LIMIT, OWNER, PENDING_OWNER, PROPOSED_AT,
    PROPOSER, SNAPSHOTS, TIME_TO_LIVE, TOKENS, TOLLS, TRACKED_COUNT, TRACKED_KEYS, VAULT_LIMIT,
    cap_at, credit_at, holding_at, snapshot_at, token_at, toll_at,
};

// The bytes of an image: docs/FORMATS.md, "The image".
pub const LENGTH: usize = 36832;

pub type Image = [u8; LENGTH];

// The address of the first token.
pub const FIRST_TOKEN: u8 = 48;

// A byte of an address, tested.
fn address_at(s: &[u8], at: usize) -> bool
    requires { at + 1 ≤ length s.now }
    ensures { result ≡ ltb (le 1 s.now at) 64 }
{
    Address::new(fields::get8(s, at)).is_some()
}

// One a width, as `fields::get8` and `get64`.
fn zero8_at(s: &[u8], at: usize) -> bool
    requires { at + 1 ≤ length s.now }
    ensures { result ≡ eqb (le 1 s.now at) 0 }
{
    fields::get8(s, at) == 0
}

fn zero64_at(s: &[u8], at: usize) -> bool
    requires { at + 8 ≤ length s.now }
    ensures { result ≡ eqb (le 8 s.now at) 0 }
{
    fields::get64(s, at) == 0
}

fn above_at(s: &[u8], at: usize) -> bool
    requires { at + 16 ≤ length s.now }
    ensures { result ≡ ltb bias (amount_at s.now at) }
{
    amount::read_amount(s, at).is_positive()
}

#[tactic(auto, using(crate::proofs::AmountTests::is_zero))]
fn nothing_at(s: &[u8], at: usize) -> bool
    requires { at + 16 ≤ length s.now }
    ensures { result ≡ eqb (amount_at s.now at) bias }
{
    amount::read_amount(s, at) == Amount::ZERO
}

fn not_negative_at(s: &[u8], at: usize) -> bool
    requires { at + 16 ≤ length s.now }
    ensures { result ≡ leb bias (amount_at s.now at) }
{
    !amount::read_amount(s, at).is_negative()
}

// The format's rule tests the value where the flag is not set too, so no `Option` holds it.
fn above_where(s: &[u8], at: usize, is_set: bool) -> bool
    requires { at + 16 ≤ length s.now }
    ensures { result ≡ above_where (num is_set) (amount_at s.now at) }
{
    if is_set {
        above_at(s, at)
    } else {
        nothing_at(s, at)
    }
}

pub fn not_negatives(amounts: &[u8]) -> bool
    ensures { result ≡ not_negatives amounts.now 0 (length amounts.now / 16) }
{
    let (amounts, _) = amounts.as_chunks::<16>();
    amounts.iter().all(|amount| not_negative_at(amount, 0))
}

fn good_addresses(s: &Image) -> bool
    ensures { result ≡ good_addresses s.now }
{
    let a = address_at(s, OWNER);
    let b = address_at(s, DEFAULT_TOKEN);
    let c = address_at(s, OPERATOR);
    let d = address_at(s, PENDING_OWNER);
    let e = address_at(s, PROPOSER);
    let f = address_at(s, DESTINATION);
    a & b & c & d & e & f
}

#[tactic(auto, unfolding(crate::specs::Good::good_defaults), using(crate::specs::Laws::known_tests, crate::proofs::KindTests::is_present))]
fn good_defaults(s: &Image) -> bool
    requires { le 1 s.now 3 < 64 }
    ensures { result ≡ good_defaults s.now }
{
    let Some(token) = Token::new(fields::get8(s, DEFAULT_TOKEN)) else {
        return false;
    };
    let is_present = token_kind(s, token) != Kind::Absent;
    above_at(s, VAULT_LIMIT) & (fields::get64(s, TIME_TO_LIVE) > 0) & is_present
}

// `good_migration` tests other fields in other widths, of which each is a name of the format.
fn good_pending(s: &Image) -> bool
    ensures { result ≡ good_pending s.now }
{
    let a = zero8_at(s, PENDING_OWNER);
    let b = zero8_at(s, PROPOSER);
    let c = zero64_at(s, PROPOSED_AT);
    has_flag(s, Flag::PendingOwner) | (a & b & c)
}

fn good_migration(s: &Image) -> bool
    ensures { result ≡ good_migration s.now }
{
    let a = zero8_at(s, DESTINATION);
    let b = zero64_at(s, MIGRATION_PROPOSED_AT);
    let c = zero64_at(s, EXECUTABLE_AT);
    has_flag(s, Flag::Migration) | (a & b & c)
}

fn good_options(s: &Image) -> bool
    ensures { result ≡ good_options s.now }
{
    let a = has_flag(s, Flag::Operator) | zero8_at(s, OPERATOR);
    let b = above_where(s, OPERATOR_LIMIT, has_flag(s, Flag::OperatorLimit));
    let c = good_pending(s);
    let d = good_migration(s);
    a & b & c & d
}

#[tactic(auto, unfolding(crate::specs::Flags::flag, crate::specs::Good::good_head), using(crate::specs::Laws::known_tests, crate::specs::Laws::token_address, crate::specs::Flags::test_is, fields::specs::Zeros::zeros_first))]
fn good_head(s: &Image) -> bool
    ensures { result ≡ good_head s.now }
{
    if fields::get16(s, FLAGS) >= 64 {
        return false;
    }
    if !has_flag(s, Flag::Initialised) {
        return fields::are_zero(&s[..TOKENS]);
    }
    if !good_addresses(s) {
        return false;
    }
    good_defaults(s) & good_options(s)
}

#[tactic(auto, unfolding(crate::specs::Flags::in_set, crate::specs::Good::good_cap))]
fn good_cap(s: &Image, a: Address) -> bool
    ensures { result ≡ good_cap s.now a.number }
{
    let set = fields::get64(s, CAPPED_SET);
    above_where(s, cap_at(a), contains(set, a.number))
}

// `good_tokens` is the same of another test and number; a function of those two would be `all`.
fn good_caps(s: &Image) -> bool
    ensures { result ≡ all (good_cap s.now) 64 }
{
    (0..64).all(
        |number|
            requires { number < 64 }
        { good_cap(s, Address { number }) },
    )
}

// The tracked keys, two bytes each, where there are no more of them than an image has room for.
pub fn tracked_keys(img: &Image) -> Option<&[[u8; 2]]>
    ensures count { MatchOption result (1088 < tracked_count img.now) (λ keys. (tracked_count img.now ≤ 1088) × (length keys.now ≡ tracked_count img.now)) }
    ensures keys { IfSome result (λ keys. AreTracked img.now keys.now) }
{
    let n = usize::try_from(fields::get64(img, TRACKED_COUNT)).ok()?;
    if n > 1088 {
        return None;
    }
    let (keys, _) = img[TRACKED_KEYS..TRACKED_KEYS + 2 * n].as_chunks::<2>();
    Some(keys)
}

// Whether all keys are below 1,088, and no two the same.
#[tactic(auto, using(crate::specs::Laws::each_tested, crate::specs::Laws::seen_none))]
fn fresh_keys(keys: &[[u8; 2]]) -> bool
    ensures { (l : List ℕ) → AreTracked l keys.now → result ≡ all (fresh_key l) (length keys.now) }
{
    let mut seen = [false; 1088];
    for key in keys {
        let k = usize::from(u16::from_le_bytes(*key));
        if k >= 1088 || seen[k] {
            return false;
        }
        seen[k] = true;
    }
    true
}

#[tactic(auto, unfolding(crate::specs::Good::good_keys), using(crate::specs::Laws::known_tests, fields::specs::Zeros::zeros_part))]
fn good_keys(s: &Image) -> bool
    ensures { result ≡ good_keys s.now }
{
    let Some(keys) = tracked_keys(s) else {
        return false;
    };
    fresh_keys(keys) & fields::are_zero(&s[TRACKED_KEYS + 2 * keys.len()..TOKENS])
}

fn good_snapshot(s: &Image, token: Token) -> bool
    ensures { result ≡ good_snapshot s.now (slot token.address) }
{
    let at = snapshot_at(token);
    let present = fields::get32(s, at);
    let ledger = fields::get32(s, at + 4);
    let nothing = nothing_at(s, at + 8);
    (present < 2) & ((present == 1) | ((ledger == 0) & nothing))
}

#[tactic(auto, unfolding(crate::specs::Good::good_absent), using(fields::specs::Logic::and_is, fields::specs::Logic::and_assoc, fields::specs::Zeros::zeros_part))]
fn good_absent(s: &Image, token: Token) -> bool
    ensures { result ≡ good_absent s.now (slot token.address) }
{
    let t = token.slot();
    let a = nothing_at(s, toll_at(token));
    let present = fields::get32(s, snapshot_at(token));
    let h = fields::are_zero(&s[HOLDINGS + 1024 * t..HOLDINGS + 1024 * (t + 1)]);
    let c = fields::are_zero(&s[CREDITS + 1024 * t..CREDITS + 1024 * (t + 1)]);
    a & (present == 0) & h & c
}

#[tactic(auto, unfolding(crate::specs::Good::good_present), using(fields::specs::Logic::and_is, fields::specs::Logic::and_assoc, crate::specs::Laws::not_negatives_part))]
fn good_present(s: &Image, token: Token) -> bool
    ensures { result ≡ good_present s.now (slot token.address) }
{
    let t = token.slot();
    let a = not_negative_at(s, toll_at(token));
    let h = not_negatives(&s[HOLDINGS + 1024 * t..HOLDINGS + 1024 * (t + 1)]);
    let c = not_negatives(&s[CREDITS + 1024 * t..CREDITS + 1024 * (t + 1)]);
    a & h & c
}

#[tactic(auto, unfolding(crate::specs::Good::good_token), using(crate::specs::Laws::known_tests, crate::proofs::KindTests::is_absent))]
fn good_token(s: &Image, token: Token) -> bool
    ensures { result ≡ good_token s.now (slot token.address) }
{
    let Ok(kind) = Kind::try_from(fields::get64(s, token_at(token))) else {
        return false;
    };
    let known = good_snapshot(s, token);
    if kind == Kind::Absent {
        known & good_absent(s, token)
    } else {
        known & good_present(s, token)
    }
}

fn good_tokens(s: &Image) -> bool
    ensures { result ≡ all (good_token s.now) 16 }
{
    (0..16).all(
        |t|
            requires { t < 16 }
        {
            let address = FIRST_TOKEN + t;
            good_token(s, Token { address })
        },
    )
}

// Of a good image no number is above 2.
#[tactic(auto, using(crate::specs::Kinds::past_kinds))]
pub fn token_kind(img: &Image, token: Token) -> Kind
    ensures { result ≡ kind_of (kind img.now (slot token.address)) }
{
    Kind::try_from(fields::get64(img, token_at(token))).unwrap_or(Kind::Frozen)
}

pub fn set_token_kind(img: &mut Image, token: Token, kind: Kind)
    ensures { img.new ≡ put 8 img.old (token_at (slot token.address)) (kind_number «kind») }
{
    fields::put64(img, token_at(token), u64::from(kind));
}

// Total: any slice.
#[tactic(auto, unfolding(crate::specs::Good::good_image), using(std::proofs::Common::ne_eqb, fields::specs::Logic::false_and))]
pub fn good_image(bytes: &[u8]) -> bool
    ensures { result ≡ good_image bytes.now }
{
    let Ok(s) = <&Image>::try_from(bytes) else {
        return false;
    };
    let h = good_head(s);
    let c = good_caps(s);
    let k = good_keys(s);
    let t = good_tokens(s);
    h & c & k & t
}
