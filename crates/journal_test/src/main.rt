// The undo journal over an image of four cells: the number that each call answers, and the bytes of image and journal, as decimals.
#![tactic(auto)]

ghost use Rattle.std.specs.Prelude.{◌≡◌, true, length, IfOk};
ghost use Rattle.journal.specs.Journal.{good_journal};

use refusal::Refusal;
use std::io;

// The number that a call answers: 0, or that of its refusal.
fn print_answer(rt: &impl Print, answer: Result<(), Refusal>) -> io::Result<()> {
    println!(rt; "{}", refusal::number(&answer))
}

// Bytes as decimals with a space behind each: there is no `Display` of a slice.
fn print_bytes(rt: &impl Print, bytes: &[u8]) -> io::Result<()> {
    for byte in bytes {
        print!(rt; "{byte} ")?;
    }
    println!(rt)
}

fn check_journal(journal: &[u8]) -> Result<(), Refusal>
    ensures { IfOk result (λ _. good_journal 4 journal.now ≡ true) }
{
    refusal::refuse_if(!journal::good_journal(journal, 4), Refusal::InvalidJournal)
}

fn check_image(image: &[u8]) -> Result<(), Refusal>
    ensures { IfOk result (λ _. length image.now ≡ 64) }
{
    refusal::refuse_if(image.len() != 64, Refusal::InvalidImage)
}

// The four calls, one function each: as a closure, the journal's function would be asked for by a clause of its own and be named as it is here.
fn begin(journal: &mut [u8]) -> Result<(), Refusal> {
    check_journal(journal)?;
    journal::begin(journal)
}

fn commit(journal: &mut [u8]) -> Result<(), Refusal> {
    check_journal(journal)?;
    journal::commit(journal)
}

fn rollback(image: &mut [u8], journal: &mut [u8]) -> Result<(), Refusal> {
    check_image(image)?;
    check_journal(journal)?;
    journal::rollback(image, journal, 4)
}

fn undo(image: &mut [u8], journal: &mut [u8]) -> Result<(), Refusal> {
    check_image(image)?;
    check_journal(journal)?;
    journal::undo(image, journal, 4)
}

// Stores a byte at a place and at the same place from the end, so in two cells.
// It works on a copy that goes to the image once there is room for the entries.
fn store(image: &mut [u8], journal: &mut [u8], at: usize, x: u8) -> Result<(), Refusal> {
    check_image(image)?;
    check_journal(journal)?;
    refusal::refuse_if(at >= 64, Refusal::InvalidRecord)?;
    let mut new = [0u8; 64];
    new.copy_from_slice(image);
    new[at] = x;
    new[63 - at] = x;
    if journal::is_open(journal) {
        journal::enter(image, &new, journal, 4)?;
    }
    image.copy_from_slice(&new);
    Ok(())
}

// Nothing is open: 35. Open already: 36. No call to undo: 37.
fn refusals(rt: &impl Print, image: &mut [u8], journal: &mut [u8]) -> io::Result<()> {
    print_answer(rt, undo(image, journal))?;
    print_answer(rt, rollback(image, journal))?;
    print_answer(rt, commit(journal))?;
    print_answer(rt, begin(journal))?;
    print_answer(rt, begin(journal))?;
    print_answer(rt, undo(image, journal))
}

// Five entries have places, so the third store is 34, with one entry free.
fn fill(rt: &impl Print, image: &mut [u8], journal: &mut [u8]) -> io::Result<()> {
    print_answer(rt, store(image, journal, 0, 5))?;
    print_answer(rt, store(image, journal, 16, 6))?;
    print_answer(rt, store(image, journal, 1, 7))?;
    print_bytes(rt, image)?;
    print_bytes(rt, journal)
}

// Two calls taken back, one after the other.
fn take_back(rt: &impl Print, image: &mut [u8], journal: &mut [u8]) -> io::Result<()> {
    print_answer(rt, undo(image, journal))?;
    print_bytes(rt, image)?;
    print_bytes(rt, journal)?;
    print_answer(rt, undo(image, journal))?;
    print_bytes(rt, image)?;
    print_bytes(rt, journal)
}

// Rollback puts the image back, where two calls changed the same cells.
fn roll(rt: &impl Print, image: &mut [u8], journal: &mut [u8]) -> io::Result<()> {
    print_answer(rt, store(image, journal, 0, 8))?;
    print_answer(rt, store(image, journal, 0, 9))?;
    print_answer(rt, rollback(image, journal))?;
    print_bytes(rt, image)?;
    print_bytes(rt, journal)
}

// Commit keeps it.
fn close(rt: &impl Print, image: &mut [u8], journal: &mut [u8]) -> io::Result<()> {
    print_answer(rt, begin(journal))?;
    print_answer(rt, store(image, journal, 32, 10))?;
    print_answer(rt, commit(journal))?;
    print_bytes(rt, image)?;
    print_bytes(rt, journal)
}

// A store that changes nothing is a call with no entry.
fn store_again(image: &mut [u8], journal: &mut [u8], times: usize) {
    for _ in 0..times {
        let _ = store(image, journal, 32, 10);
    }
}

// A thousand calls are done, and the next is 34.
fn many(rt: &impl Print, image: &mut [u8], journal: &mut [u8]) -> io::Result<()> {
    print_answer(rt, begin(journal))?;
    store_again(image, journal, 999);
    print_answer(rt, store(image, journal, 32, 10))?;
    print_answer(rt, store(image, journal, 32, 10))?;
    print_bytes(rt, journal)?;
    print_answer(rt, undo(image, journal))?;
    print_bytes(rt, journal)
}

// An open journal with one call of two entries, and one byte of it overwritten: 31, or 36 where it is still good.
fn damage(rt: &impl Print, at: usize, x: u8) -> io::Result<()> {
    let mut image = [0u8; 64];
    let mut journal = [0u8; 144];
    let _ = begin(&mut journal);
    let _ = store(&mut image, &mut journal, 0, 5);
    if let Some(byte) = journal.get_mut(at) {
        *byte = x;
    }
    print_answer(rt, begin(&mut journal))
}

// The head's bytes, and those of the entries.
const DAMAGED_HEADS: [(usize, u8); 10] = [
    (0, 2),
    (0, 0),
    (1, 1),
    (2, 0),
    (2, 2),
    (3, 4),
    (4, 1),
    (4, 6),
    (6, 1),
    (23, 1),
];

const DAMAGED_ENTRIES: [(usize, u8); 10] = [
    (24, 1),
    (24, 3),
    (48, 4),
    (26, 0),
    (26, 2),
    (50, 2),
    (28, 1),
    (32, 9),
    (72, 1),
    (143, 1),
];

fn damage_each(rt: &impl Print, places: &[(usize, u8)]) -> io::Result<()> {
    for &(at, x) in places {
        damage(rt, at, x)?;
    }
    Ok(())
}

// Lengths that no journal has, and an image that is too short.
fn lengths(rt: &impl Print) -> io::Result<()> {
    let mut image = [0u8; 48];
    let mut journal = [0u8; 48];
    print_answer(rt, undo(&mut image, &mut journal))?;
    print_answer(rt, begin(&mut journal))?;
    let mut none = [0u8; 24];
    print_answer(rt, begin(&mut none))?;
    let mut odd = [0u8; 95];
    print_answer(rt, begin(&mut odd))
}

fn main(rt: HostRuntime) -> io::Result<()> {
    let mut image = [0u8; 64];
    let mut journal = [0u8; 144];
    refusals(&rt, &mut image, &mut journal)?;
    fill(&rt, &mut image, &mut journal)?;
    take_back(&rt, &mut image, &mut journal)?;
    roll(&rt, &mut image, &mut journal)?;
    close(&rt, &mut image, &mut journal)?;
    many(&rt, &mut image, &mut journal)?;
    damage_each(&rt, &DAMAGED_HEADS)?;
    damage_each(&rt, &DAMAGED_ENTRIES)?;
    lengths(&rt)
}
