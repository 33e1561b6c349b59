// Sums, differences, negation, order, sign and bytes of amounts at both ends of their 128 bits.
#![tactic(auto)]

use amount::Amount;
use std::cmp::Ordering;
use std::io;

const MOST: Amount = Amount(i128::MAX);

const LEAST: Amount = Amount(i128::MIN);

const ABOVE_LEAST: Amount = Amount(i128::MIN + 1);

// One more carries into the greatest high half.
const BEFORE_GREATEST_HIGH: Amount = Amount(0x7fff_ffff_ffff_fffe_ffff_ffff_ffff_ffff);

const MINUS_ONE: Amount = Amount(-1);

const ONE: Amount = Amount(1);

fn truth(rt: &impl Print, b: bool) -> io::Result<()> {
    if b {
        println!(rt; "yes")
    } else {
        println!(rt; "no")
    }
}

// The sixteen bytes in hexadecimal, the highest first. `fields_test` prints halves too: tests share no library but what they test.
fn show(rt: &impl Print, a: Amount) -> io::Result<()> {
    let mut s = [0u8; 16];
    amount::write_amount(&mut s, 0, a);
    print!(rt; "{:016x}", fields::get64(&s, 8))?;
    print!(rt; "{:016x}", fields::get64(&s, 0))?;
    println!(rt)
}

fn show_sum(rt: &impl Print, sum: Option<Amount>) -> io::Result<()> {
    match sum {
        Some(v) => show(rt, v),
        None => println!(rt; "overflow"),
    }
}

fn sums(rt: &impl Print) -> io::Result<()> {
    show_sum(rt, MOST.checked_add(Amount::ZERO))?;
    show_sum(rt, MOST.checked_add(ONE))?;
    show_sum(rt, LEAST.checked_add(MINUS_ONE))?;
    show_sum(rt, LEAST.checked_add(MOST))?;
    show_sum(rt, MINUS_ONE.checked_add(ONE))?;
    show_sum(rt, Amount::from(18446744073709551615).checked_add(ONE))?;
    show_sum(rt, ABOVE_LEAST.checked_add(MINUS_ONE))?;
    show_sum(rt, BEFORE_GREATEST_HIGH.checked_add(ONE))
}

fn differences(rt: &impl Print) -> io::Result<()> {
    show_sum(rt, LEAST.checked_sub(ONE))?;
    show_sum(rt, MOST.checked_sub(MINUS_ONE))?;
    show_sum(rt, Amount::ZERO.checked_sub(ONE))?;
    show_sum(rt, MOST.checked_sub(MOST))?;
    show_sum(rt, MINUS_ONE.checked_sub(LEAST))?;
    show_sum(rt, Amount::ZERO.checked_sub(LEAST))
}

fn negations(rt: &impl Print) -> io::Result<()> {
    show_sum(rt, LEAST.checked_neg())?;
    show_sum(rt, MOST.checked_neg())?;
    show_sum(rt, MINUS_ONE.checked_neg())?;
    show_sum(rt, Amount::ZERO.checked_neg())?;
    show_sum(rt, ABOVE_LEAST.checked_neg())?;
    show_sum(rt, Amount(1 << 64).checked_neg())
}

fn orders(rt: &impl Print) -> io::Result<()> {
    truth(rt, LEAST < MOST)?;
    truth(rt, MOST < LEAST)?;
    truth(rt, MINUS_ONE < Amount::ZERO)?;
    truth(rt, Amount::ZERO < MINUS_ONE)?;
    truth(rt, MOST < MOST)?;
    truth(rt, Amount::ZERO < ONE)
}

// 0 below zero, 1 zero, 2 above. Printed as the stored run has it.
fn sign(a: Amount) -> u8 {
    match a.cmp(&Amount::ZERO) {
        Ordering::Less => 0,
        Ordering::Equal => 1,
        Ordering::Greater => 2,
    }
}

fn signs(rt: &impl Print) -> io::Result<()> {
    for a in [LEAST, MINUS_ONE, Amount::ZERO, ONE, MOST] {
        print!(rt; "{}", sign(a))?;
    }
    println!(rt)
}

// Bytes that are read are the bytes that were written.
fn bytes(rt: &impl Print) -> io::Result<()> {
    let mut s = [255u8; 32];
    amount::write_amount(&mut s, 8, LEAST);
    show(rt, amount::read_amount(&s, 8))?;
    show(rt, amount::read_amount(&s, 0))?;
    show(rt, amount::read_amount(&s, 16))
}

fn main(rt: HostRuntime) -> io::Result<()> {
    sums(&rt)?;
    differences(&rt)?;
    negations(&rt)?;
    orders(&rt)?;
    signs(&rt)?;
    bytes(&rt)
}
