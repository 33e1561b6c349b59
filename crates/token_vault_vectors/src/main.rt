// Replays the vectors of docs/VECTORS.md: lists of calls from standard input, a line a call to standard output. The stored lines are those of the contract's Rust and of the model. At malformed input the run ends with a line to standard error.
#![tactic(auto)]

ghost use Rattle.std.specs.Prelude.{◌≡◌, ◌<◌, ◌++◌, [], ◌∷◌, length, take, replicate, ltb, Some, Err, IfOk, OnOk};
ghost use Rattle.std.specs.Io.KnownBytes.{Appends};
ghost use Rattle.fields.specs.Logic.{◌and◌, ◌or◌};
ghost use Rattle.journal.specs.Step.{vault};
ghost use Rattle.token_vault.specs.Preview.{request_step};
ghost use Rattle.vault_vectors.specs.Vectors.{PrintsStep, text_of};
ghost use Rattle.token_vault_vectors.specs.declared.Stop.TheVariants.{Faulty, Unwritten};
ghost use Rattle.token_vault_vectors.specs.Faults.{head_fault, call_head_fault, fault_text, fault_line};
ghost use Rattle.token_vault_vectors.specs.Numbers.{number_of, code, fault_of, is_written};
ghost use Rattle.token_vault_vectors.specs.Replay.{IsStepLine, byte_of, asked, TakesCalls, RunsList, TakesList, WithJournal, NextList, IsFault, ListsEnd};
ghost use Rattle.token_vault_vectors.specs.Reading.{IsKind, CallHeadOf, ListHeadOf, ReadsWhole, ReadsCall, ReadsState, TakesCall};

mod heads;

use heads::{CallHead, Kind, ListHead};
use std::io::{Read, Write};
use std::{fmt, io};
use vault_vectors::{StepLine, Transaction};

// What can be wrong with a list, and with a call of it.
#[derive(Clone, Copy, Debug, PartialEq, Eq)]
enum Fault {
    HeadCut,
    ImageTooLong,
    JournalTooLong,
    HeadNotZero,
    ImageCut,
    JournalCut,
    CallCut,
    Kind,
    CallNotZero,
    Needless,
    RecordTooLong,
    EventsTooLong,
    RecordCut,
}

impl fmt::Display for Fault {
    ghost output = { λ fault. Some (fault_text (number_of fault)) };

    fn fmt<W: fmt::Write>(&self, f: &mut fmt::Formatter<W>) -> fmt::Result {
        f.write_str(match *self {
            Fault::HeadCut => "a list's head is cut short",
            Fault::ImageTooLong => "a list's image is longer than 36848 bytes",
            Fault::JournalTooLong => "a list's journal is longer than 48048 bytes",
            Fault::HeadNotZero => "bytes 12 to 15 of a list's head are not zero",
            Fault::ImageCut => "a list's image is cut short",
            Fault::JournalCut => "a list's journal is cut short",
            Fault::CallCut => "a call's head is cut short",
            Fault::Kind => "a call's kind is above 5",
            Fault::CallNotZero => "bytes 6 and 7 of a call's head are not zero",
            Fault::Needless => "a begin, commit, rollback or undo has a record or an event buffer",
            Fault::RecordTooLong => "a call's record is longer than 512 bytes",
            Fault::EventsTooLong => "a call's event buffer is longer than 1024 bytes",
            Fault::RecordCut => "a call's record is cut short",
        })
    }
}

// What ends the lists before the input does.
#[derive(Drop)]
enum Stop {
    Faulty(Fault),
    Unwritten(io::Error),
}

impl From<Fault> for Stop {
    ghost from_gives = { λ fault stop. stop ≡ Faulty fault };

    fn from(fault: Fault) -> Stop {
        Stop::Faulty(fault)
    }
}

impl From<io::Error> for Stop {
    ghost from_gives = { λ error stop. stop ≡ Unwritten error };

    fn from(error: io::Error) -> Stop {
        Stop::Unwritten(error)
    }
}

impl TryFrom<u8> for Kind {
    type Error = Fault;

    ghost try_from_gives = { λ byte result. IsKind byte result };

    fn try_from(byte: u8) -> Result<Kind, Fault> {
        match byte {
            0 => Ok(Kind::Operation),
            1 => Ok(Kind::Transaction(Transaction::Begin)),
            2 => Ok(Kind::Transaction(Transaction::Commit)),
            3 => Ok(Kind::Transaction(Transaction::Rollback)),
            4 => Ok(Kind::Transaction(Transaction::Undo)),
            5 => Ok(Kind::Preview),
            _ => Err(Fault::Kind),
        }
    }
}

impl Kind {
    // Only an operation and its preview have a record and an event buffer.
    fn has_needless(self, record_length: u16, events_length: u16) -> bool
        ensures { result ≡ (ltb 0 (byte_of self) and ltb (byte_of self) 5) and (ltb 0 record_length or ltb 0 events_length) }
    {
        matches!(self, Kind::Transaction(_)) & ((record_length > 0) | (events_length > 0))
    }
}

// The event buffer is filled before the call.
fn answer_call(
    image: &mut [u8],
    journal: &mut [u8],
    head: CallHead,
    record: &[u8; 512],
    events: &mut [u8; 1024],
) -> StepLine
    ensures { PrintsStep (request_step (vault image.old journal.old) (asked head.kind (take head.record_length «record».now) (replicate head.events_length head.fill))) (text_of result ++ (10 ∷ [])) image.new journal.new × (length (text_of result) < 512) }
{
    let record = &record[..head.record_length];
    let events = &mut events[..head.events_length];
    events.fill(head.fill);
    match head.kind {
        Kind::Operation => vault_vectors::answer_operation(image, journal, record, events),
        Kind::Transaction(kind) => kind.answer(image, journal),
        Kind::Preview => vault_vectors::answer_preview(image, journal, record, events),
    }
}

// Every byte of standard output goes through here, and all of them are lines of steps.
fn write_step_line<O: Write>(output: &mut O, line: &[u8]) -> io::Result<()>
    requires { IsStepLine line.now }
    ensures { OnOk result (Appends (O.contents output.old) (O.contents output.new) line.now) }
{
    output.write_all(line)
}

impl CallHead {
    #[tactic(auto, unfolding(crate::specs::Faults::call_head_fault, fields::specs::Rules::verdict))]
    fn parse(bytes: &[u8]) -> Result<CallHead, Fault>
        ensures fault { code result ≡ call_head_fault (length bytes.now) bytes.now }
        ensures head { IfOk result (λ head. CallHeadOf bytes.now head) }
    {
        let Ok(bytes) = <&[u8; 8]>::try_from(bytes) else {
            return Err(Fault::CallCut);
        };
        let kind = Kind::try_from(bytes[0])?;
        let record_length = fields::get16(bytes, 2);
        let events_length = fields::get16(bytes, 4);
        if fields::get16(bytes, 6) != 0 {
            return Err(Fault::CallNotZero);
        }
        if kind.has_needless(record_length, events_length) {
            return Err(Fault::Needless);
        }
        if record_length > 512 {
            return Err(Fault::RecordTooLong);
        }
        if events_length > 1024 {
            return Err(Fault::EventsTooLong);
        }
        Ok(CallHead {
            kind,
            fill: bytes[1],
            record_length: usize::from(record_length),
            events_length: usize::from(events_length),
        })
    }
}

// A buffer that is not read to its end has the fault `cut`.
fn read_whole<I: Read>(input: &mut I, buffer: &mut [u8], cut: Fault) -> Result<(), Fault>
    ensures { ReadsWhole (I.remaining input.old) (I.remaining input.new) buffer.new (number_of cut) (code result) }
{
    if streams::read_full(input, buffer) != buffer.len() {
        return Err(cut);
    }
    Ok(())
}

// A record is read where nothing is wrong with the head.
fn read_call<I: Read>(input: &mut I, record: &mut [u8; 512]) -> Result<CallHead, Fault>
    ensures { ReadsCall (I.remaining input.old) (I.remaining input.new) «record».new result }
{
    let mut bytes = [0u8; 8];
    let n = streams::read_full(input, &mut bytes);
    let head = CallHead::parse(&bytes[..n])?;
    read_whole(input, &mut record[..head.record_length], Fault::RecordCut)?;
    Ok(head)
}

// What the calls of a list are read into, each as long as it may be.
#[derive(Drop)]
struct CallBuffers {
    record: [u8; 512],
    events: [u8; 1024],
}

impl CallBuffers {
    fn new() -> CallBuffers {
        CallBuffers {
            record: [0u8; 512],
            events: [0u8; 1024],
        }
    }
}

fn next_call<I: Read, O: Write>(
    input: &mut I,
    output: &mut O,
    image: &mut [u8],
    journal: &mut [u8],
    buffers: &mut CallBuffers,
) -> Result<(), Stop>
    ensures { TakesCall (I.remaining input.old) (I.remaining input.new) (vault image.old journal.old) buffers.new.«record» (fault_of result) image.new journal.new (λ line. OnOk result (Appends (O.contents output.old) (O.contents output.new) line)) }
{
    let CallBuffers { record, events } = buffers;
    let head = read_call(input, record)?;
    let answer = answer_call(image, journal, head, record, events);
    let line = streams::line::<512, _>(&answer)?;
    write_step_line(output, line.as_str().as_bytes())?;
    Ok(())
}

// How many calls were taken, and how they ended.
#[derive(Drop)]
struct TakenCalls {
    taken: u32,
    ended: Result<(), Stop>,
}

impl From<Fault> for TakenCalls {
    ghost from_gives = { λ fault calls. (calls.taken ≡ 0) × (calls.ended ≡ Err (Faulty fault)) };

    fn from(fault: Fault) -> TakenCalls {
        TakenCalls {
            taken: 0,
            ended: Err(Stop::Faulty(fault)),
        }
    }
}

// A call whose line was not written was taken.
// Image and journal stay two slices: of a struct that holds them nothing says at its end that it still holds those that were lent, so that each contract would have to. Input and output stay two: most functions have one of them, and contracts speak of the output alone.
fn all_calls<I: Read, O: Write>(
    input: &mut I,
    output: &mut O,
    image: &mut [u8],
    journal: &mut [u8],
    count: u32,
) -> TakenCalls
    ensures { TakesCalls (I.remaining input.old) (vault image.old journal.old) (vault image.new journal.new) count result.taken (fault_of result.ended) (is_written result.ended) }
{
    let mut buffers = CallBuffers::new();
    for taken in 0..count {
        match next_call(input, output, image, journal, &mut buffers) {
            Ok(()) => {}
            Err(Stop::Faulty(fault)) => return TakenCalls {
                taken,
                ended: Err(Stop::Faulty(fault)),
            },
            Err(Stop::Unwritten(error)) => return TakenCalls {
                taken: taken + 1,
                ended: Err(Stop::Unwritten(error)),
            },
        }
    }
    TakenCalls {
        taken: count,
        ended: Ok(()),
    }
}

#[tactic(auto, using(crate::proofs::Parsed::image_cut, crate::proofs::Parsed::state_read))]
fn read_state<I: Read>(input: &mut I, image: &mut [u8], journal: &mut [u8]) -> Result<(), Fault>
    ensures { ReadsState (I.remaining input.old) (I.remaining input.new) (vault image.new journal.new) (code result) }
{
    read_whole(input, image, Fault::ImageCut)?;
    read_whole(input, journal, Fault::JournalCut)
}

// A list whose head was read: image and journal have their lengths.
fn run_list<I: Read, O: Write>(
    input: &mut I,
    output: &mut O,
    image: &mut [u8],
    journal: &mut [u8],
    count: u32,
) -> TakenCalls
    ensures { RunsList (I.remaining input.old) image.new journal.new count result.taken (fault_of result.ended) (is_written result.ended) }
{
    match read_state(input, image, journal) {
        Ok(()) => all_calls(input, output, image, journal, count),
        Err(fault) => TakenCalls::from(fault),
    }
}

impl ListHead {
    #[tactic(auto, unfolding(crate::specs::Faults::head_fault, fields::specs::Rules::verdict))]
    fn parse(bytes: &[u8]) -> Result<ListHead, Fault>
        ensures fault { code result ≡ head_fault (length bytes.now) bytes.now }
        ensures head { IfOk result (λ head. ListHeadOf bytes.now head) }
    {
        let Ok(bytes) = <&[u8; 16]>::try_from(bytes) else {
            return Err(Fault::HeadCut);
        };
        // By `as`: there is no `From` of a `u32` for a length.
        let image_length = fields::get32(bytes, 0) as usize;
        let journal_length = fields::get32(bytes, 4) as usize;
        if image_length > 36848 {
            return Err(Fault::ImageTooLong);
        }
        if journal_length > 48048 {
            return Err(Fault::JournalTooLong);
        }
        if fields::get32(bytes, 12) != 0 {
            return Err(Fault::HeadNotZero);
        }
        Ok(ListHead {
            image_length,
            journal_length,
            count: fields::get32(bytes, 8),
        })
    }
}

// What was read of the head is `head`.
fn fit_list<I: Read, O: Write>(
    input: &mut I,
    output: &mut O,
    image: &mut [u8; 36848],
    journal: &mut [u8; 48048],
    head: &[u8],
) -> TakenCalls
    ensures { TakesList (I.remaining input.old) (length head.now) head.now image.new journal.new result.taken (fault_of result.ended) (is_written result.ended) }
{
    match ListHead::parse(head) {
        Ok(head) => {
            let image = &mut image[..head.image_length];
            let journal = &mut journal[..head.journal_length];
            run_list(input, output, image, journal, head.count)
        }
        Err(fault) => TakenCalls::from(fault),
    }
}

// The buffer of the journal stands apart from that of the image, so that no proof has both.
fn with_journal<I: Read, O: Write>(
    input: &mut I,
    output: &mut O,
    image: &mut [u8; 36848],
    head: &[u8],
) -> TakenCalls
    ensures { WithJournal (I.remaining input.old) (length head.now) head.now image.new result.taken (fault_of result.ended) (is_written result.ended) }
{
    let mut journal = [0u8; 48048];
    fit_list(input, output, image, &mut journal, head)
}

// How many bytes were read of the head of a list, and its calls.
#[derive(Drop)]
struct TakenList {
    head_read: usize,
    calls: TakenCalls,
}

// Where none of the head was read the input ends, and there is no list.
fn next_list<I: Read, O: Write>(input: &mut I, output: &mut O) -> TakenList
    ensures { NextList (I.remaining input.old) result.head_read result.calls.taken (fault_of result.calls.ended) (is_written result.calls.ended) }
{
    let mut head = [0u8; 16];
    let mut image = [0u8; 36848];
    let head_read = streams::read_full(input, &mut head);
    if head_read == 0 {
        return TakenList {
            head_read,
            calls: TakenCalls {
                taken: 0,
                ended: Ok(()),
            },
        };
    }
    let calls = with_journal(input, output, &mut image, &head[..head_read]);
    TakenList { head_read, calls }
}

// How many lists were taken to their end; how many bytes were read of the last one's head, and how it ended.
#[derive(Drop)]
struct TakenLists {
    taken: u64,
    head_read: usize,
    ended: Result<(), Stop>,
}

// A proved loop has to end: it stops at a number of lists that no run reaches.
fn all_lists<I: Read, O: Write>(input: &mut I, output: &mut O) -> TakenLists
    ensures { ListsEnd result.taken result.head_read (fault_of result.ended) (is_written result.ended) }
{
    for taken in 0..u64::MAX {
        let TakenList { head_read, calls } = next_list(input, output);
        let TakenCalls { ended, .. } = calls;
        if head_read == 0 || ended.is_err() {
            return TakenLists {
                taken,
                head_read,
                ended,
            };
        }
    }
    TakenLists {
        taken: u64::MAX,
        head_read: 16,
        ended: Ok(()),
    }
}

// Every byte of standard error goes through here, and all of them are the line of a fault that a list has.
fn write_fault_line<E: Write>(error: &mut E, line: &[u8], fault: Fault) -> io::Result<()>
    requires { (line.now ≡ fault_line (number_of fault)) × IsFault (number_of fault) }
    ensures { OnOk result (Appends (E.contents error.old) (E.contents error.new) (fault_line (number_of fault))) }
{
    error.write_all(line)
}

#[tactic(auto, using(streams::specs::Lines::known_line))]
fn write_fault<E: Write>(error: &mut E, fault: Fault) -> io::Result<()>
    requires { IsFault (number_of fault) }
    ensures { OnOk result (Appends (E.contents error.old) (E.contents error.new) (fault_line (number_of fault))) }
{
    let line = streams::line::<128, _>(&format_args!("token_vault_vectors: {fault}"))?;
    write_fault_line(error, line.as_str().as_bytes(), fault)
}

fn main(rt: HostRuntime) {
    let lists = all_lists(&mut rt.stdin(), &mut rt.stdout());
    if let Err(Stop::Faulty(fault)) = lists.ended {
        write_fault(&mut rt.stderr(), fault).ok();
    }
}
