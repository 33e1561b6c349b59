// Where the fields of an image stand: docs/FORMATS.md, "The image".
ghost use Rattle.std.specs.Prelude.{◌≡◌, ◌+◌, ◌≤◌};
ghost use Rattle.image.specs.Layout.{image_length, slot, cap_at, snapshot_at, token_at, toll_at, holding_at, credit_at};

use crate::address::{Address, Token};

pub const FLAGS: usize = 0;

pub const OWNER: usize = 2;

pub const DEFAULT_TOKEN: usize = 3;

pub const OPERATOR: usize = 4;

pub const PENDING_OWNER: usize = 5;

pub const PROPOSER: usize = 6;

pub const DESTINATION: usize = 7;

pub const VAULT_LIMIT: usize = 8;

pub const OPERATOR_LIMIT: usize = 24;

pub const PROPOSED_AT: usize = 40;

pub const TIME_TO_LIVE: usize = 48;

pub const MIGRATION_PROPOSED_AT: usize = 56;

pub const EXECUTABLE_AT: usize = 64;

pub const APPROVED_SET: usize = 72;

pub const CAPPED_SET: usize = 80;

pub const TRACKED_COUNT: usize = 88;

// The first of 64 caps, 16 snapshots, 1,088 tracked keys, 16 tokens and their tolls, 1,024 holdings and 1,024 credits.
pub const CAPS: usize = 96;

pub const SNAPSHOTS: usize = 1120;

pub const TRACKED_KEYS: usize = 1504;

pub const TOKENS: usize = 3680;

pub const TOLLS: usize = 3688;

pub const HOLDINGS: usize = 4064;

pub const CREDITS: usize = 20448;

// Each gives one place of the format. Holdings and credits are laid out alike, and are two names of the format.
pub fn cap_at(a: Address) -> usize
    ensures { (result ≡ cap_at a.number) × (result + 16 ≤ image_length) }
{
    CAPS + 16 * usize::from(a.number)
}

pub fn snapshot_at(token: Token) -> usize
    ensures { (result ≡ snapshot_at (slot token.address)) × (result + 24 ≤ image_length) }
{
    SNAPSHOTS + 24 * token.slot()
}

pub fn token_at(token: Token) -> usize
    ensures { (result ≡ token_at (slot token.address)) × (result + 8 ≤ image_length) }
{
    TOKENS + 24 * token.slot()
}

pub fn toll_at(token: Token) -> usize
    ensures { (result ≡ toll_at (slot token.address)) × (result + 16 ≤ image_length) }
{
    TOLLS + 24 * token.slot()
}

pub fn holding_at(token: Token, a: Address) -> usize
    ensures { (result ≡ holding_at (slot token.address) a.number) × (result + 16 ≤ image_length) }
{
    HOLDINGS + 1024 * token.slot() + 16 * usize::from(a.number)
}

pub fn credit_at(token: Token, a: Address) -> usize
    ensures { (result ≡ credit_at (slot token.address) a.number) × (result + 16 ≤ image_length) }
{
    CREDITS + 1024 * token.slot() + 16 * usize::from(a.number)
}
