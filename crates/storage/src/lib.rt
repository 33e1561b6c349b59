// What storage.rs keeps in the image besides plain fields: tracked keys, credits, caps and snapshots. A token is named by its address.
#![tactic(auto)]

ghost use Rattle.std.specs.Prelude.{◌≡◌, ◌<◌};
ghost use Rattle.fields.specs.Bytes.{put};
ghost use Rattle.amount.specs.Biased.{biased};
ghost use Rattle.refusal.specs.Numbers.{code};
ghost use Rattle.image.specs.Flags.{flag_bit};
ghost use Rattle.image.specs.Layout.{slot, flags, tracked_count, credit, with_bit, without_bit};
ghost use Rattle.image.specs.Good.{tracked};
ghost use Rattle.storage.specs.Facts.{Keys};
ghost use Rattle.storage.specs.Setters.{track_key, set_credit, set_cap, record_balance, snapshot_number};

use amount::Amount;
use image::{Address, Flag, Image, Token};
use refusal::Refusal;

fn is_tracked(img: &Image, k: u16) -> bool
    requires { Keys img.now }
    ensures { result ≡ tracked img.now (tracked_count img.now) k }
{
    let Some(keys) = image::tracked_keys(img) else {
        return false;
    };
    keys.iter().any(|key| u16::from_le_bytes(*key) == k)
}

// Keys are distinct and below 1,088, so that there is room for one that is not tracked yet.
#[tactic(auto, using(crate::specs::Kept::tracked_already, crate::specs::Kept::tracked_anew, crate::specs::Kept::key_room))]
fn track_vault_key(img: &mut Image, k: u16)
    requires { Keys img.old × (k < 1088) }
    ensures { img.new ≡ track_key img.old k }
{
    if is_tracked(img, k) {
        return;
    }
    // At most 1,088, so that the cast loses nothing.
    let n = fields::get64(img, image::TRACKED_COUNT);
    fields::put16(img, image::TRACKED_KEYS + 2 * (n as usize), k);
    fields::put64(img, image::TRACKED_COUNT, n + 1);
}

pub fn get_token_account_balance(img: &Image, token: Token, account: Address) -> Amount
    ensures { biased result ≡ credit img.now (slot token.address) account.number }
{
    amount::read_amount(img, image::credit_at(token, account))
}

#[tactic(auto, unfolding(crate::specs::Setters::set_credit), using(crate::specs::Kept::credit_keys))]
pub fn set_token_account_balance(img: &mut Image, token: Token, account: Address, balance: Amount)
    requires { Keys img.old }
    ensures { img.new ≡ set_credit img.old token.address account.number (biased balance) }
{
    amount::write_amount(img, image::credit_at(token, account), balance);
    let key = 64 * u16::from(token.address - image::FIRST_TOKEN) + u16::from(account.number);
    track_vault_key(img, key);
}

// The set of addresses with one more. A set is the format's number; a struct of it would be made
// where it is read and taken apart where it is written, here and in `without_bit`.
#[tactic(auto, using(crate::specs::Bits::shifted_one, crate::specs::Bits::or_bit))]
pub fn with_bit(set: u64, a: Address) -> u64
    ensures { result ≡ with_bit set a.number }
{
    set | 1 << a.number
}

// The set of addresses with one less.
#[tactic(auto, using(crate::specs::Bits::shifted_one, crate::specs::Bits::and_not_bit))]
pub fn without_bit(set: u64, a: Address) -> u64
    ensures { result ≡ without_bit set a.number }
{
    set & !(1 << a.number)
}

#[tactic(auto, using(crate::specs::Bits::shifted_flag, crate::specs::Bits::or_bit, image::specs::Flags::flag_below))]
pub fn set_flag(img: &mut Image, flag: Flag)
    ensures { img.new ≡ put 2 img.old 0 (with_bit (flags img.old) (flag_bit flag)) }
{
    let set = fields::get16(img, image::FLAGS);
    fields::put16(img, image::FLAGS, set | 1 << u8::from(flag));
}

// `set_flag` and this are the two things done to a bit, by two operators.
#[tactic(auto, using(crate::specs::Bits::shifted_flag, crate::specs::Bits::and_not_flag, image::specs::Flags::flag_below))]
pub fn clear_flag(img: &mut Image, flag: Flag)
    ensures { img.new ≡ put 2 img.old 0 (without_bit (flags img.old) (flag_bit flag)) }
{
    let set = fields::get16(img, image::FLAGS);
    fields::put16(img, image::FLAGS, set & !(1 << u8::from(flag)));
}

#[tactic(auto, unfolding(crate::specs::Setters::set_cap), using(crate::specs::Kept::cap_keys))]
pub fn set_token_max_limit(img: &mut Image, address: Address, limit: Amount)
    requires { Keys img.old }
    ensures { img.new ≡ set_cap img.old address.number (biased limit) }
{
    let set = fields::get64(img, image::CAPPED_SET);
    fields::put64(img, image::CAPPED_SET, with_bit(set, address));
    amount::write_amount(img, image::cap_at(address), limit);
    track_vault_key(img, 1024 + u16::from(address.number));
}

#[tactic(auto, unfolding(crate::specs::Setters::record_balance))]
pub fn record_vault_balance(img: &mut Image, token: Token, sequence: u32, balance: Amount)
    ensures { img.new ≡ record_balance img.old token.address sequence (biased balance) }
{
    let at = image::snapshot_at(token);
    fields::put32(img, at, 1);
    fields::put32(img, at + 4, sequence);
    amount::write_amount(img, at + 8, balance);
}

// 11 where the snapshot of this sequence shows another balance.
#[tactic(auto, unfolding(fields::specs::Rules::verdict, crate::specs::Setters::snapshot_number), using(amount::specs::Order::ne_true, amount::specs::Order::ne_false))]
pub fn check_vault_balance(
    img: &Image,
    token: Token,
    sequence: u32,
    balance: Amount,
) -> Result<(), Refusal>
    ensures { code result ≡ snapshot_number img.now token.address sequence (biased balance) }
{
    match image::vault_snapshot(img, token) {
        Some(snapshot) if snapshot.sequence == sequence => {
            refusal::refuse_if(snapshot.balance != balance, Refusal::VaultBalanceChanged)
        }
        _ => Ok(()),
    }
}
