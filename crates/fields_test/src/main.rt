// Writes numbers at the edges of their widths and of a slice of 16 bytes, reads them back, and prints what stands there.
#![tactic(auto)]

use std::io;

fn truth(rt: &impl Print, b: bool) -> io::Result<()> {
    if b {
        println!(rt; "yes")
    } else {
        println!(rt; "no")
    }
}

// The sixteen bytes as two numbers in hexadecimal, the upper half first. `amount_test` prints halves too: tests share no library but what they test.
fn halves(rt: &impl Print, s: &[u8; 16]) -> io::Result<()> {
    print!(rt; "{:016x}", fields::get64(s, 8))?;
    println!(rt; "{:016x}", fields::get64(s, 0))
}

fn widths(rt: &impl Print, s: &mut [u8; 16]) -> io::Result<()> {
    fields::put8(s, 15, 255);
    fields::put16(s, 13, 65534);
    fields::put32(s, 9, 4294967293);
    fields::put64(s, 1, 18446744073709551612);
    halves(rt, s)?;
    println!(rt; "{}", fields::get8(s, 15))?;
    println!(rt; "{}", fields::get16(s, 13))?;
    println!(rt; "{}", fields::get32(s, 9))?;
    println!(rt; "{}", fields::get64(s, 1))?;
    println!(rt; "{}", fields::get16(s, 0))
}

fn slices(rt: &impl Print, s: &mut [u8; 16], t: &mut [u8; 16]) -> io::Result<()> {
    *t = *s;
    truth(rt, fields::same_bytes(s, t))?;
    fields::put8(t, 0, 1);
    truth(rt, fields::same_bytes(s, t))
}

fn zeros(rt: &impl Print, t: &mut [u8; 16]) -> io::Result<()> {
    t.fill(0);
    truth(rt, fields::are_zero(t))?;
    fields::put8(t, 7, 128);
    truth(rt, fields::are_zero(&t[..7]))?;
    truth(rt, fields::are_zero(&t[..8]))?;
    truth(rt, fields::are_zero(&t[8..]))?;
    halves(rt, t)
}

fn main(rt: HostRuntime) -> io::Result<()> {
    let mut a = [0u8; 16];
    let mut b = [7u8; 16];
    widths(&rt, &mut a)?;
    slices(&rt, &mut a, &mut b)?;
    zeros(&rt, &mut b)
}
