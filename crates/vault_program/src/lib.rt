// The program: an image and then records of 448 bytes from standard input, a line a record to standard output.
#![tactic(auto)]

ghost use Rattle.std.specs.Prelude.{◌≡◌, ◌<◌, ◌≤◌, length, take, [], OnOk, is_ok};
ghost use Rattle.std.specs.Io.KnownBytes.{Consumes, Appends};
ghost use Rattle.amount.specs.Value.{value};
ghost use Rattle.events.specs.Splice.{amount_bytes};
ghost use Rattle.outcome.specs.Outcome.{value_of, count_of};
ghost use Rattle.refusal.specs.Numbers.{code};
ghost use Rattle.vault_program.specs.Program.{signed_at, answer_line, text_of, record_step, IsLine, Prints};
ghost use Rattle.vault_program.specs.Records.{read_text, AnswersRead, TakesRecords, TakesImage, Runs};

use answer_line::Answer;
use outcome::Done;
use record::Record;
use std::io;
use std::io::{Read, Write};

// What is printed of an answer.
#[tactic(auto, using(crate::specs::Program::signed_bytes))]
pub fn printed(answer: outcome::Answer) -> Answer
    ensures { (result.number ≡ code answer) × (value result.value ≡ signed_at (amount_bytes (value_of answer))) × (result.events ≡ count_of answer) }
{
    // A refusal is written with value 0 and no event, here as text.
    let done = answer.unwrap_or(Done::new(0));
    Answer {
        number: refusal::number(&answer),
        value: done.value,
        events: u32::from(done.events),
    }
}

// What is printed for a record. Any record, also a short one, gets its line.
pub fn answer_record(image: &mut [u8], record: &[u8]) -> Answer
    ensures { Prints (record_step image.old «record».now) (text_of result) image.new × (length (text_of result) ≤ 160) }
{
    let mut events = [0u8; events::LENGTH];
    printed(token_vault::call_without_journal(image, record, &mut events))
}

// Every byte of the output goes through here, and all of them are lines of answers.
fn write_answer_line<O: Write>(output: &mut O, line: &[u8]) -> io::Result<()>
    requires { IsLine line.now }
    ensures { OnOk result (Appends (O.contents output.old) (O.contents output.new) line.now) }
{
    output.write_all(line)
}

#[tactic(auto, using(crate::proofs::Lines::line_end, streams::specs::Lines::same_line))]
fn print_answer<O: Write>(output: &mut O, image: &mut [u8], record: &[u8]) -> io::Result<()>
    ensures carried { image.new ≡ (record_step image.old «record».now).state.image }
    ensures printed { OnOk result (Appends (O.contents output.old) (O.contents output.new) (answer_line (record_step image.old «record».now).answer)) }
{
    let answer = answer_record(image, record);
    let line = streams::line::<160, _>(&answer)?;
    write_answer_line(output, line.as_str().as_bytes())
}

// Answers what was read of a record. Where nothing was there is no line.
#[tactic(auto, using(crate::proofs::Taken::text_all, streams::specs::Lines::same_line))]
fn answer_read<O: Write>(output: &mut O, image: &mut [u8], record: &[u8]) -> io::Result<()>
    ensures answered { AnswersRead image.old «record».now (length «record».now) (read_text image.old «record».now (length «record».now)) image.new }
    ensures printed { OnOk result (Appends (O.contents output.old) (O.contents output.new) (read_text image.old «record».now (length «record».now))) }
{
    if record.is_empty() {
        return Ok(());
    }
    print_answer(output, image, record)
}

// How many bytes were read of a record, and whether its line was written.
#[derive(Drop)]
struct AnsweredRecord {
    read: usize,
    written: io::Result<()>,
}

fn next_record<I: Read, O: Write>(
    input: &mut I,
    output: &mut O,
    image: &mut [u8],
    record: &mut Record,
) -> AnsweredRecord
    ensures read { Consumes (I.remaining input.old) (I.remaining input.new) (take result.read «record».new) }
    ensures answered { AnswersRead image.old «record».new result.read (read_text image.old «record».new result.read) image.new × (result.read ≤ 448) }
    ensures printed { OnOk result.written (Appends (O.contents output.old) (O.contents output.new) (read_text image.old «record».new result.read)) }
{
    let read = streams::read_full(input, record);
    let written = answer_read(output, image, &record[..read]);
    AnsweredRecord { read, written }
}

// How many records were taken, how many bytes the last read gave, and whether the last line was written.
#[derive(Drop)]
struct TakenRecords {
    taken: u64,
    read: usize,
    written: io::Result<()>,
}

// A proved loop has to end: it stops at a number of records that no run reaches.
fn all_records<I: Read, O: Write>(input: &mut I, output: &mut O, image: &mut [u8]) -> TakenRecords
    ensures { TakesRecords image.old image.new result.taken result.read (is_ok result.written) }
{
    let mut record = [0u8; record::LENGTH];
    for taken in 0..u64::MAX {
        let AnsweredRecord { read, written } = next_record(input, output, image, &mut record);
        if read == 0 {
            return TakenRecords {
                taken,
                read,
                written,
            };
        }
        if read < record::LENGTH || written.is_err() {
            return TakenRecords {
                taken: taken + 1,
                read,
                written,
            };
        }
    }
    TakenRecords {
        taken: u64::MAX,
        read: record::LENGTH,
        written: Ok(()),
    }
}

// What was read of an image. A short one gets one line, with 30, whatever it holds.
fn run_image<I: Read, O: Write>(input: &mut I, output: &mut O, image: &mut [u8]) -> TakenRecords
    requires { length image.old ≤ 36832 }
    ensures taken { TakesImage image.old (length image.old) (answer_line (record_step image.old []).answer) image.new result.taken result.read (is_ok result.written) }
    ensures printed { length image.old < 36832 → OnOk result.written (Appends (O.contents output.old) (O.contents output.new) (answer_line (record_step image.old []).answer)) }
{
    if image.len() < image::LENGTH {
        let written = print_answer(output, image, &[]);
        return TakenRecords {
            taken: 0,
            read: 0,
            written,
        };
    }
    all_records(input, output, image)
}

// How many bytes were read of the image; and of the records after a whole one, how many were taken and how many bytes the last read gave.
#[derive(Clone, Copy)]
pub struct Run {
    pub image_read: usize,
    pub taken: u64,
    pub read: usize,
    pub is_written: bool,
}

pub fn main_loop<I: Read, O: Write>(input: &mut I, output: &mut O) -> Run
    ensures { Runs result.image_read result.taken result.read result.is_written }
{
    let mut image = [0u8; image::LENGTH];
    let image_read = streams::read_full(input, &mut image);
    let records = run_image(input, output, &mut image[..image_read]);
    Run {
        image_read,
        taken: records.taken,
        read: records.read,
        is_written: records.written.is_ok(),
    }
}
