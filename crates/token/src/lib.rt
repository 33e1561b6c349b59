// The token table: SEP-41 `balance` and `transfer` by the rules of docs/FORMATS.md, "Tokens and transfers". A token is named by its address.
#![tactic(auto)]

ghost use Rattle.std.specs.Prelude.{IfOk, MatchOption, ◌≡◌, ◌+◌, ◌<◌, ◌≤◌, length};
ghost use Rattle.refusal.specs.Numbers.{code};
ghost use Rattle.amount.specs.Biased.{bias, biased, put_amount};
ghost use Rattle.image.specs.Layout.{image_length, initialised, slot, toll, holding, holding_at, default_token};
ghost use Rattle.storage.specs.Facts.{Good};
ghost use Rattle.token.specs.Token.{absent_number, Moves, vault_balance, arrives, transfer_number, transferred};
ghost use Rattle.token.specs.Parts.{MovedIs};

use amount::Amount;
use image::{Address, Image, Kind, Token};
use refusal::Refusal;

// The vault's own address.
pub const VAULT: Address = Address { number: 1 };

// 23 where there is no such token. Any number may be asked for: one above 255 is no token's.
#[tactic(auto, unfolding(fields::specs::Rules::verdict, crate::specs::Token::absent_number))]
pub fn presence_check(img: &Image, t: usize) -> Result<Token, Refusal>
    ensures number { code result ≡ absent_number img.now t }
    ensures token { IfOk result (λ token. token.address ≡ t) }
{
    u8::try_from(t)
        .ok()
        .and_then(Token::new)
        .filter(|token| image::token_kind(img, *token) != Kind::Absent)
        .ok_or(Refusal::TokenCallFailed)
}

// The token at an address, where there is one that moves.
pub fn moving(img: &Image, t: u8) -> Option<Token>
    ensures { MatchOption result (Moves img.now t → ⊥) (λ token. (token.address ≡ t) × Moves img.now t) }
{
    Token::new(t).filter(|token| image::token_kind(img, *token) == Kind::Moving)
}

// SEP-41's name; the contract's `storage::get_token_account_balance` reads a credit so, and is defined apart.
pub fn balance(img: &Image, token: Token, a: Address) -> Amount
    ensures { biased result ≡ holding img.now (slot token.address) a.number }
{
    amount::read_amount(img, image::holding_at(token, a))
}

fn set_balance(img: &mut Image, token: Token, a: Address, n: Amount)
    ensures { img.new ≡ put_amount img.old (holding_at (slot token.address) a.number) (biased n) }
{
    amount::write_amount(img, image::holding_at(token, a), n);
}

pub fn default_token(img: &Image) -> Token
    requires { Good img.now × (initialised img.now ≡ 1) }
    ensures { result.address ≡ default_token img.now }
{
    Token {
        address: fields::get8(img, image::DEFAULT_TOKEN),
    }
}

// What the vault holds of its default token.
pub fn vault_balance(img: &Image) -> Amount
    requires { Good img.now × (initialised img.now ≡ 1) }
    ensures { biased result ≡ vault_balance img.now }
{
    balance(img, default_token(img), VAULT)
}

// What a receiver gets of an amount at a toll.
#[tactic(auto, unfolding(crate::specs::Token::arrives), using(amount::specs::Order::less_is, amount::specs::Order::biased_zero))]
pub fn arrives(toll: Amount, n: Amount) -> Amount
    requires { bias ≤ biased toll }
    ensures { biased result ≡ bias + arrives (biased toll) (biased n) }
{
    if n < toll {
        return Amount::ZERO;
    }
    n - toll
}

// What a receiver gets of an amount of the token.
#[tactic(auto, using(crate::proofs::Steps::toll_range))]
fn after_toll(img: &Image, token: Token, n: Amount) -> Amount
    requires { Good img.now }
    ensures { biased result ≡ bias + arrives (toll img.now (slot token.address)) (biased n) }
{
    arrives(amount::read_amount(img, image::toll_at(token)), n)
}

// What the receiver holds once the sender is left with so much. Here and in the two below,
// from, to and n are SEP-41's arguments, in its order.
#[tactic(auto, using(crate::proofs::Steps::self_left, crate::proofs::Steps::other_left, amount::specs::Laws::biased_below))]
fn before_receipt(img: &Image, token: Token, from: Address, to: Address, left: Amount) -> Amount
    requires { Good img.now }
    ensures { biased result ≡ holding (put_amount img.now (holding_at (slot token.address) from.number) (biased left)) (slot token.address) to.number }
{
    if from == to {
        left
    } else {
        balance(img, token, to)
    }
}

// What a transfer leaves the sender, and what the receiver then holds.
#[derive(Clone, Copy)]
struct Moved {
    token: Token,
    left: Amount,
    received: Amount,
}

#[tactic(auto, unfolding(fields::specs::Rules::verdict, crate::specs::Token::transfer_number), using(amount::specs::Order::less_is, refusal::specs::Laws::refused_if, crate::proofs::Steps::too_much, crate::proofs::Steps::is_room, crate::proofs::Steps::sum_received))]
fn transfer_check(
    img: &Image,
    t: usize,
    from: Address,
    to: Address,
    n: Amount,
) -> Result<Moved, Refusal>
    requires { Good img.now × (bias ≤ biased n) }
    ensures number { code result ≡ transfer_number img.now t from.number to.number (biased n) }
    ensures moved { IfOk result (MovedIs img.now t from.number to.number (biased n)) }
{
    let token = u8::try_from(t)
        .ok()
        .and_then(|t| moving(img, t))
        .ok_or(Refusal::TokenCallFailed)?;
    let held = balance(img, token, from);
    refusal::refuse_if(held < n, Refusal::TokenCallFailed)?;
    let left = held - n;
    let received = before_receipt(img, token, from, to, left)
        .checked_add(after_toll(img, token, n))
        .ok_or(Refusal::TokenCallFailed)?;
    Ok(Moved {
        token,
        left,
        received,
    })
}

// 23 where the transfer fails; it then changes nothing.
#[tactic(auto, unfolding(crate::specs::Token::transferred), using(refusal::specs::Laws::some_number, crate::proofs::Steps::moved))]
pub fn transfer(
    img: &mut Image,
    t: usize,
    from: Address,
    to: Address,
    n: Amount,
) -> Result<(), Refusal>
    requires { Good img.old × (bias ≤ biased n) }
    ensures value { code result ≡ transfer_number img.old t from.number to.number (biased n) }
    ensures img_after { img.new ≡ transferred img.old t from.number to.number (biased n) }
{
    let moved = transfer_check(img, t, from, to, n)?;
    set_balance(img, moved.token, from, moved.left);
    set_balance(img, moved.token, to, moved.received);
    Ok(())
}
