// The token table: a line a transfer, with its number and then the two holdings' low halves. Token 48 moves and takes a toll of 3, token 49 is frozen, the others are absent.
#![tactic(auto)]

use amount::Amount;
use image::{Address, Image, Kind, Token};
use refusal::Refusal;
use std::io;

const MOVING: Token = Token { address: 48 };

const FROZEN: Token = Token { address: 49 };

const ABSENT: Token = Token { address: 50 };

const SENDER: Address = Address { number: 2 };

const RECEIVER: Address = Address { number: 4 };

// It holds 2^127 - 1.
const FULL: Address = Address { number: 5 };

fn show(rt: &impl Print, image: &Image, token: Token, a: Address) -> io::Result<()> {
    let held = token::balance(image, token, a);
    print!(rt; "{} ", held.0 % (1 << 64))
}

// 30 where the image is not good.
#[tactic(auto, using(storage::specs::Facts::facts))]
fn moved(image: &mut Image, t: usize, from: Address, to: Address, n: u64) -> Result<(), Refusal> {
    refusal::refuse_if(!image::good_image(image), Refusal::InvalidImage)?;
    token::transfer(image, t, from, to, Amount::from(n))
}

fn try_transfer(
    rt: &impl Print,
    image: &mut Image,
    token: Token,
    to: Address,
    n: u64,
) -> io::Result<()> {
    let answer = moved(image, usize::from(token.address), SENDER, to, n);
    print!(rt; "{} ", refusal::number(&answer))?;
    show(rt, image, token, SENDER)?;
    show(rt, image, token, to)?;
    println!(rt)
}

// An address that is no token's.
fn try_stranger(rt: &impl Print, image: &mut Image, t: usize) -> io::Result<()> {
    let answer = moved(image, t, SENDER, token::VAULT, 1);
    println!(rt; "{} ", refusal::number(&answer))
}

fn give(image: &mut Image, token: Token, a: Address, n: Amount) {
    amount::write_amount(image, image::holding_at(token, a), n);
}

fn fill(image: &mut Image) {
    image::set_token_kind(image, MOVING, Kind::Moving);
    amount::write_amount(image, image::toll_at(MOVING), Amount::from(3));
    image::set_token_kind(image, FROZEN, Kind::Frozen);
    give(image, MOVING, token::VAULT, Amount::from(10));
    give(image, MOVING, SENDER, Amount::from(100));
    give(image, FROZEN, SENDER, Amount::from(100));
}

// Done, short of the amount, to itself, a toll above the amount, frozen, absent.
fn plain(rt: &impl Print, image: &mut Image) -> io::Result<()> {
    try_transfer(rt, image, MOVING, token::VAULT, 50)?;
    try_transfer(rt, image, MOVING, token::VAULT, 51)?;
    try_transfer(rt, image, MOVING, SENDER, 20)?;
    try_transfer(rt, image, MOVING, RECEIVER, 2)?;
    try_transfer(rt, image, FROZEN, token::VAULT, 1)?;
    try_transfer(rt, image, ABSENT, token::VAULT, 1)
}

// A receiver at 2^127 - 1: past it, and not, since the toll takes all.
fn at_the_end(rt: &impl Print, image: &mut Image) -> io::Result<()> {
    give(image, MOVING, FULL, Amount(i128::MAX));
    try_transfer(rt, image, MOVING, FULL, 4)?;
    try_transfer(rt, image, MOVING, FULL, 3)
}

fn main(rt: HostRuntime) -> io::Result<()> {
    let mut image = [0u8; image::LENGTH];
    fill(&mut image);
    plain(&rt, &mut image)?;
    try_stranger(&rt, &mut image, 47)?;
    try_stranger(&rt, &mut image, 64)?;
    at_the_end(&rt, &mut image)
}
