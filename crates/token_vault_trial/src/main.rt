// Writes trial records to standard output (docs/FORMATS.md, "Trial records"). Its arguments, in decimal: START, a starting number; FIRST, the first record's number; and COUNT, how many records.
// Where they are wrong, a line with a number goes to standard error and nothing to standard output; the exit status is 0 all the same.
#![tactic(auto)]

ghost use Rattle.std.specs.Prelude.{◌≡◌, ◌+◌, ◌<◌, ◌≤◌, Some, IfOk, OnOk};
ghost use Rattle.std.specs.Io.KnownBytes.{Appends};
ghost use Rattle.trial_records.specs.Trial.{records_from, reached_from};
ghost use Rattle.token_vault_trial.specs.Arguments.{read_decimal, fault_text, fault_line};
ghost use Rattle.token_vault_trial.specs.Run.{reading_of, number_or_zero, number_of, code, fault_of, IsOrder, IsPiece, RunIs};

mod order;

use order::Records;
use std::env::FillError;
use std::io::Write;
use std::rt::Env;
use std::{fmt, io};
use trial_records::RECORDS_END;

// ---- the arguments
// A plus sign and zeros in front, which `parse` takes, are refused.
fn read_decimal(text: &[u8]) -> Option<u64>
    ensures { reading_of result ≡ read_decimal text.now }
{
    if text.is_empty() || text[0] == b'+' {
        return None;
    }
    if text.len() > 1 && text[0] == b'0' {
        return None;
    }
    // By `let`: after `ok()?` the proof needs laws of its own for what `from_utf8` says of its answer.
    let Ok(text) = str::from_utf8(text) else {
        return None;
    };
    text.parse().ok()
}

// Of more than 20 bytes there is no number below 2^64.
fn read_argument<E: Env>(env: &E, i: usize) -> Option<u64> {
    let mut text = [0u8; 20];
    let n = env.arg(i, &mut text).ok()?;
    read_decimal(&text[..n])
}

// How many arguments there are, the program's own name among them. One that does not fit the buffer is one too.
// By number: there is no end to the arguments but the first that is not there, and `position` would hold the buffer in its closure.
fn count_arguments<E: Env>(env: &E) -> usize {
    let mut text = [0u8; 20];
    for i in 0..usize::MAX {
        if let Err(FillError::NotPresent) = env.arg(i, &mut text) {
            return i;
        }
    }
    usize::MAX
}

// What can be wrong with the arguments.
#[derive(Clone, Copy, Debug, PartialEq, Eq)]
enum Fault {
    NotThree,
    Start,
    First,
    Count,
    FirstIsZero,
    LastTooLarge,
}

impl fmt::Display for Fault {
    ghost output = { λ fault. Some (fault_text (number_of fault)) };

    fn fmt<W: fmt::Write>(&self, f: &mut fmt::Formatter<W>) -> fmt::Result {
        f.write_str(match *self {
            Fault::NotThree => "1: three arguments are wanted: START, FIRST and COUNT",
            Fault::Start => "2: START is not a decimal number from 0 to 18446744073709551615",
            Fault::First => "3: FIRST is not a decimal number from 0 to 18446744073709551615",
            Fault::Count => "4: COUNT is not a decimal number from 0 to 18446744073709551615",
            Fault::FirstIsZero => "5: FIRST is 0: record numbers begin at 1",
            Fault::LastTooLarge => "6: the last record's number would be above 4294967295",
        })
    }
}

// ---- the records
// The arguments as they were read, `words` counting the program's own name too.
#[derive(Clone, Copy)]
struct Arguments {
    words: usize,
    start: Option<u64>,
    first: Option<u64>,
    count: Option<u64>,
}

impl Arguments {
    fn read<E: Env>(env: &E) -> Arguments {
        Arguments {
            words: count_arguments(env),
            start: read_argument(env, 1),
            first: read_argument(env, 2),
            count: read_argument(env, 3),
        }
    }

    // The records that they ask for.
    #[tactic(auto, unfolding(crate::specs::Arguments::argument_fault, fields::specs::Rules::verdict))]
    fn records(self) -> Result<Records, Fault>
        ensures fault { code result ≡ fault_of self }
        ensures numbers { IfOk result (IsOrder (number_or_zero self.start) (number_or_zero self.first) (number_or_zero self.count)) }
    {
        if self.words != 4 {
            return Err(Fault::NotThree);
        }
        let last = self.start.ok_or(Fault::Start)?;
        let next = self.first.ok_or(Fault::First)?;
        let left = self.count.ok_or(Fault::Count)?;
        if next == 0 {
            return Err(Fault::FirstIsZero);
        }
        if next > RECORDS_END || left > RECORDS_END - next {
            return Err(Fault::LastTooLarge);
        }
        Ok(Records { last, next, left })
    }
}

impl Records {
    // Makes the next n records.
    fn next_piece<'a>(&mut self, n: u64, buffer: &'a mut [u8; 57344]) -> &'a [u8]
        requires { (n ≤ 128) × (n ≤ self.old.left) }
        ensures piece { result.now ≡ records_from self.old.last self.old.next n }
        ensures rest { (self.new.last ≡ reached_from self.old.last n) × (self.new.next ≡ self.old.next + n) × (self.new.left + n ≡ self.old.left) }
    {
        // By `as`: there is no `From` of a `u64` for a length.
        let piece = &mut buffer[..448 * n as usize];
        let last = trial_records::trial_records(self.last, self.next, piece).unwrap();
        *self = Records {
            last,
            next: self.next + n,
            left: self.left - n,
        };
        piece
    }
}

// Every byte of standard output goes through here: the n records that follow the first `made` of those that were asked for.
fn write_piece<O: Write>(
    output: &mut O,
    piece: &[u8],
    asked: Records,
    made: u64,
    n: u64,
) -> io::Result<()>
    requires { IsPiece asked.last asked.next made n piece.now }
    ensures { OnOk result (Appends (O.contents output.old) (O.contents output.new) piece.now) }
{
    output.write_all(piece)
}

// Returns how many records were made.
fn write_records<O: Write>(output: &mut O, asked: Records) -> io::Result<u64>
    ensures made { IfOk result (λ made. made ≡ asked.left) }
    ensures written { OnOk result (Appends (O.contents output.old) (O.contents output.new) (records_from asked.last asked.next asked.left)) }
{
    let mut buffer = [0u8; 57344];
    let mut rest = asked;
    for made in (0..asked.left).step_by(128) {
        let n = rest.left.min(128);
        let piece = rest.next_piece(n, &mut buffer);
        write_piece(output, piece, asked, made, n)?;
    }
    Ok(asked.left)
}

// Every byte of standard error goes through here, and all of them are the line of a fault.
fn write_fault_line<E: Write>(error: &mut E, line: &[u8], fault: Fault) -> io::Result<()>
    requires { line.now ≡ fault_line (number_of fault) }
    ensures { OnOk result (Appends (E.contents error.old) (E.contents error.new) (fault_line (number_of fault))) }
{
    error.write_all(line)
}

#[tactic(auto, using(streams::specs::Lines::known_line))]
fn write_fault<E: Write>(error: &mut E, fault: Fault) -> io::Result<()>
    ensures { OnOk result (Appends (E.contents error.old) (E.contents error.new) (fault_line (number_of fault))) }
{
    let line = streams::line::<128, _>(&format_args!("token_vault_trial: {fault}"))?;
    write_fault_line(error, line.as_str().as_bytes(), fault)
}

fn run<O: Write, E: Write>(output: &mut O, error: &mut E, arguments: Arguments) -> io::Result<u64>
    ensures ended { RunIs (fault_of arguments) (number_or_zero arguments.count) result }
    ensures written { fault_of arguments ≡ 0 → OnOk result (Appends (O.contents output.old) (O.contents output.new) (records_from (number_or_zero arguments.start) (number_or_zero arguments.first) (number_or_zero arguments.count))) }
    ensures no_record { 0 < fault_of arguments → output.new ≡ output.old }
    ensures said { 0 < fault_of arguments → OnOk result (Appends (E.contents error.old) (E.contents error.new) (fault_line (fault_of arguments))) }
    ensures nothing_said { fault_of arguments ≡ 0 → error.new ≡ error.old }
{
    match arguments.records() {
        Ok(records) => write_records(output, records),
        Err(fault) => {
            write_fault(error, fault)?;
            Ok(0)
        }
    }
}

fn main(rt: HostRuntime) {
    let arguments = Arguments::read(&rt);
    run(&mut rt.stdout(), &mut rt.stderr(), arguments).ok();
}
