// Refusal 32: lengths, operations, the bounds of each field, and the fields that each operation reads; then the fields of one record.
#![tactic(auto)]

ghost use Rattle.std.specs.Prelude.{◌<◌};

use amount::Amount;
use record::{Head, Operation, Record};
use std::fmt::Display;
use std::io;

fn number<T: Display + Copy>(rt: &impl Print, n: T) -> io::Result<()> {
    print!(rt; "{n} ")
}

// The number of a record of zeros but for the operation and one byte.
fn try_byte(
    rt: &impl Print,
    rec: &mut Record,
    operation: u8,
    at: usize,
    value: u8,
) -> io::Result<()> {
    rec.fill(0);
    rec[0] = operation;
    if let Some(byte) = rec.get_mut(at) {
        *byte = value;
    }
    number(rt, refusal::number(&record::parse(rec)))
}

fn operations(rt: &impl Print, rec: &mut Record) -> io::Result<()> {
    for operation in [0, 1, 30, 31, 255] {
        try_byte(rt, rec, operation, 0, operation)?;
    }
    println!(rt)
}

// The largest value that each field may have, and one more: addresses, then flag and count.
const ADDRESSES: [(u8, usize, u8); 6] = [
    (2, 1, 63),
    (2, 1, 64),
    (7, 2, 63),
    (7, 2, 64),
    (29, 3, 63),
    (29, 3, 64),
];

const FLAG_AND_COUNT: [(u8, usize, u8); 4] = [(20, 4, 1), (20, 4, 2), (6, 5, 16), (6, 5, 17)];

fn try_bytes(rt: &impl Print, rec: &mut Record, tries: &[(u8, usize, u8)]) -> io::Result<()> {
    for &(operation, at, value) in tries {
        try_byte(rt, rec, operation, at, value)?;
    }
    println!(rt)
}

// The last counted item, one past the count, and an operation that reads no items.
const ITEMS: [(u8, u8, u8, u8); 7] = [
    (4, 16, 15, 63),
    (4, 16, 15, 64),
    (6, 1, 0, 64),
    (6, 15, 14, 64),
    (6, 15, 15, 64),
    (6, 0, 0, 64),
    (5, 16, 0, 64),
];

// The number where item i of the counted ones has the address.
fn items(rt: &impl Print, rec: &mut Record) -> io::Result<()> {
    for (operation, count, i, address) in ITEMS {
        rec.fill(0);
        rec[5] = count;
        if let Some(byte) = rec.get_mut(64 + 24 * usize::from(i)) {
            *byte = address;
        }
        rec[0] = operation;
        number(rt, refusal::number(&record::parse(rec)))?;
    }
    println!(rt)
}

// The operation, whether it is a view, and the numbers where the caller, the token, the other address, the flag and the item count are 255.
fn row(rt: &impl Print, rec: &mut Record, operation: u8) -> io::Result<()> {
    number(rt, operation)?;
    if let Ok(Operation::View(_)) = Operation::try_from(operation) {
        print!(rt; "view ")?;
    }
    for at in 1..6 {
        try_byte(rt, rec, operation, at, 255)?;
    }
    println!(rt)
}

fn rows(rt: &impl Print, rec: &mut Record) -> io::Result<()> {
    for operation in 1..31 {
        row(rt, rec, operation)?;
    }
    Ok(())
}

// Operation and flag as they stand in the bytes.
fn small_fields(rt: &impl Print, rec: &Record, head: Head) -> io::Result<()> {
    print!(rt;
        "{} {} {} {} {} ",
        rec[0], head.caller.number, head.token.number, head.other.number, rec[4]
    )?;
    print!(rt; "{} {} {} ", head.item_count, head.timestamp, head.sequence)?;
    println!(rt; "{} {} ", head.signers, head.time_to_live)
}

// The low half of its sixteen bytes.
fn low(a: Amount) -> i128 {
    a.0 & i128::from(u64::MAX)
}

fn item(rt: &impl Print, rec: &Record, i: usize) -> io::Result<()>
    requires { i < 16 }
{
    print!(rt;
        "{} {} ",
        record::item_address(rec, i),
        low(record::item_amount(rec, i))
    )
}

// The amounts of the head, and the first and the last item.
fn amounts(rt: &impl Print, rec: &Record, head: Head) -> io::Result<()> {
    print!(rt; "{} {} ", low(head.amount), low(head.fee))?;
    item(rt, rec, 0)?;
    item(rt, rec, 15)?;
    println!(rt)
}

// The fields, read as those of operation 24, which asks nothing of most of them.
fn fields_of(rt: &impl Print, rec: &Record) -> io::Result<()> {
    let mut view = *rec;
    view[0] = 24;
    if let Ok(parsed) = record::parse(&view) {
        small_fields(rt, rec, parsed.head)?;
        amounts(rt, rec, parsed.head)?;
    }
    Ok(())
}

// Byte i of the record is i modulo 251.
fn fill(rec: &mut Record) {
    for (i, byte) in rec.iter_mut().enumerate() {
        *byte = (i % 251) as u8;
    }
}

fn lengths(rt: &impl Print) -> io::Result<()> {
    let mut bytes = [0u8; 449];
    bytes[0] = 24;
    for bytes in [&bytes[..447], &bytes, &bytes[..448]] {
        number(rt, refusal::number(&record::parse(bytes)))?;
    }
    println!(rt)
}

fn main(rt: HostRuntime) -> io::Result<()> {
    lengths(&rt)?;
    let mut rec = [0u8; 448];
    operations(&rt, &mut rec)?;
    try_bytes(&rt, &mut rec, &ADDRESSES)?;
    try_bytes(&rt, &mut rec, &FLAG_AND_COUNT)?;
    items(&rt, &mut rec)?;
    rows(&rt, &mut rec)?;
    fill(&mut rec);
    fields_of(&rt, &rec)
}
