// The image test: 1 where an image is good. An empty and a working image, wrong lengths, then one byte of the working image changed at a time.
#![tactic(auto)]

use amount::Amount;
use image::Image;
use std::io;

fn show(rt: &impl Print, good: bool) -> io::Result<()> {
    print!(rt; "{} ", u8::from(good))
}

// Owner 2, token 48, operator 3, limits, time to live, approved set, a cap, tracked keys.
fn fill_head(image: &mut Image) {
    fields::put16(image, 0, 13);
    fields::put8(image, 2, 2);
    fields::put8(image, 3, 48);
    fields::put8(image, 4, 3);
    amount::write_amount(image, 8, Amount::from(1000));
    amount::write_amount(image, 24, Amount::from(50));
    fill_sets(image);
}

fn fill_sets(image: &mut Image) {
    fields::put64(image, 48, 604800);
    fields::put64(image, 72, 281474976710656);
    fields::put64(image, 80, 16);
    fields::put64(image, 88, 2);
}

fn fill_middle(image: &mut Image) {
    amount::write_amount(image, 160, Amount::from(7));
    fields::put32(image, 1120, 1);
    fields::put32(image, 1124, 77);
    amount::write_amount(image, 1128, Amount::from(100));
    fields::put16(image, 1504, 1028);
    fields::put16(image, 1506, 3);
}

fn fill_tokens(image: &mut Image) {
    fields::put64(image, 3680, 1);
    amount::write_amount(image, 3688, Amount::from(3));
    amount::write_amount(image, 4080, Amount::from(100));
    amount::write_amount(image, 20496, Amount::from(5));
}

// Puts a byte into the image, and gives the one that stood there; at a place past its end, which the lists below have none of, nothing happens.
fn exchange(image: &mut Image, at: usize, byte: u8) -> u8 {
    match image.get_mut(at) {
        Some(place) => std::mem::replace(place, byte),
        None => byte,
    }
}

// The image with one byte changed; the byte is put back.
fn try_byte(rt: &impl Print, image: &mut Image, at: usize, byte: u8) -> io::Result<()> {
    let old = exchange(image, at, byte);
    let shown = show(rt, image::good_image(image));
    exchange(image, at, old);
    shown
}

// Flags and addresses; limits, pending owner and migration; any approved set is good.
const HEAD: [(usize, u8); 10] = [
    (0, 77),
    (2, 64),
    (3, 49),
    (5, 1),
    (7, 1),
    (23, 128),
    (24, 0),
    (40, 1),
    (64, 1),
    (72, 1),
];

// Capped set, reserved bytes, a cap; snapshots (a negative one is good), keys.
const CAPS: [(usize, u8); 8] = [
    (80, 32),
    (90, 1),
    (160, 0),
    (1120, 2),
    (1143, 128),
    (1144, 1),
    (1505, 5),
    (1508, 1),
];

// Kinds and tolls; holdings and credits of a present token and of an absent one.
const TOKENS: [(usize, u8); 10] = [
    (3680, 3),
    (3681, 1),
    (3703, 128),
    (3712, 1),
    (4095, 128),
    (20511, 128),
    (5088, 1),
    (21472, 1),
    (36831, 1),
    (3680, 2),
];

// A line for the changes, each of the whole image.
fn damage(rt: &impl Print, image: &mut Image, changes: &[(usize, u8)]) -> io::Result<()> {
    for &(at, byte) in changes {
        try_byte(rt, image, at, byte)?;
    }
    println!(rt)
}

// An image of zeros, and a part of it.
fn empty(rt: &impl Print, image: &mut Image) -> io::Result<()> {
    show(rt, image::good_image(image))?;
    show(rt, image::good_image(&image[0..36831]))?;
    show(rt, image::good_image(&image[0..0]))?;
    try_byte(rt, image, 72, 1)?;
    println!(rt)
}

fn fill(rt: &impl Print, image: &mut Image) -> io::Result<()> {
    fill_head(image);
    fill_middle(image);
    fill_tokens(image);
    show(rt, image::good_image(image))?;
    println!(rt)
}

fn main(rt: HostRuntime) -> io::Result<()> {
    let mut image = [0u8; image::LENGTH];
    empty(&rt, &mut image)?;
    fill(&rt, &mut image)?;
    damage(&rt, &mut image, &HEAD)?;
    damage(&rt, &mut image, &CAPS)?;
    damage(&rt, &mut image, &TOKENS)
}
