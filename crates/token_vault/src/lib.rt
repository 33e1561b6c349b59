// The token vault: its public calls. Any bytes of any length get an answer.
#![tactic(auto, unfolding(fields::specs::Rules::chain, fields::specs::Rules::or_else, crate::specs::Public::state_number, crate::specs::Public::kept_number, crate::specs::Public::kept_image, crate::specs::Public::kept_journal, crate::specs::Vault::call_number), using(crate::proofs::Accepted::form_zero, crate::proofs::Called::good_over))]

ghost use Rattle.std.specs.Prelude.{◌≡◌, true, false, [], IfOk};
ghost use Rattle.events.specs.Event.{event_buffer};
ghost use Rattle.image.specs.Layout.{cells};
ghost use Rattle.outcome.specs.Outcome.{Views};
ghost use Rattle.storage.specs.Facts.{Good};
ghost use Rattle.operations.specs.Operations.{view_outcome};
ghost use Rattle.journal.specs.Calls.{Call};
ghost use Rattle.journal.specs.Journal.{good_journal};
ghost use Rattle.journal.specs.Step.{vault, operated};
ghost use Rattle.refusal.specs.Numbers.{code};
ghost use Rattle.token_vault.specs.Vault.{call_number, op, vault_step};
ghost use Rattle.token_vault.specs.Demand.{Demand1, Demand3};
ghost use Rattle.token_vault.specs.Cells.{EntersCells};
ghost use Rattle.token_vault.specs.Preview.{preview_answer, Previews};
ghost use Rattle.token_vault.specs.Public.{closed_journal, JournalIs, Replies, Answers, Tries, state_number, kept_number, kept_journal, Keeps};

use events::Buffer;
use image::Image;
use outcome::Answer;
use record::{Head, Operation, Parsed, View};
use refusal::Refusal;

// The cells of sixteen bytes of an image.
const CELLS: usize = 2302;

// A view of a good image, with the token and the account of a record: the event buffer is blank.
fn run_view(image: &Image, view: View, head: Head, events: &mut Buffer) -> Answer
    requires { Good image.now }
    ensures { Views (view_outcome view image.now head.token.number head.caller.number) result × (events.new ≡ event_buffer []) }
{
    events::clear_events(events);
    operations::look(image, view, head)
}

// An operation on good bytes, on a copy of the image.
fn try_operation(copy: &mut Image, parsed: Parsed<'_>, events: &mut Buffer) -> Answer
    requires { Good copy.old }
    ensures { Tries (op copy.old parsed.entry.rec.now events.old) result copy.new events.new }
{
    let answer = operations::operate(copy, parsed, events);
    if answer.is_err() {
        events::clear_events(events);
    }
    answer
}

// 34 where an open journal has no room for the cells in which the copy differs from the image; else they are entered. A closed journal stays.
fn enter_changes(image: &Image, copy: &Image, journal: &mut [u8]) -> Result<(), Refusal>
    requires { good_journal cells journal.old ≡ true }
    ensures { (code result ≡ kept_number image.now copy.now journal.old) × (journal.new ≡ kept_journal image.now copy.now journal.old) }
{
    if !journal::is_open(journal) {
        return Ok(());
    }
    journal::enter(image, copy, journal, CELLS)
}

// What an accepted operation left goes to the image, unless 34 refuses it.
fn keep(image: &mut Image, journal: &mut [u8], copy: &Image) -> Result<(), Refusal>
    requires { good_journal cells journal.old ≡ true }
    ensures { Keeps image.old copy.now journal.old (code result) image.new journal.new }
{
    enter_changes(image, copy, journal)?;
    *image = *copy;
    Ok(())
}

fn run_operation(
    image: &mut Image,
    journal: &mut [u8],
    parsed: Parsed<'_>,
    events: &mut Buffer,
) -> Answer
    requires { Good image.old × (good_journal cells journal.old ≡ true) }
    ensures { Replies (operated cells false (vault image.old journal.old) (op image.old parsed.entry.rec.now events.old)) result events.new image.new journal.new }
{
    let mut copy = *image;
    let done = try_operation(&mut copy, parsed, events)?;
    if let Err(refusal) = keep(image, journal, &copy) {
        events::clear_events(events);
        return Err(refusal);
    }
    Ok(done)
}

// 30, 31. The test of the image is its caller's, so that the compiler keeps it a function of its own.
fn state_check(is_image_good: bool, journal: &[u8]) -> Result<(), Refusal>
    ensures { code result ≡ state_number is_image_good journal.now }
{
    refusal::refuse_if(!is_image_good, Refusal::InvalidImage)?;
    let is_journal_good = journal::good_journal(journal, CELLS);
    refusal::refuse_if(!is_journal_good, Refusal::InvalidJournal)
}

// 32, 33.
fn call_check<'a>(rec: &'a [u8], events: &[u8]) -> Result<Parsed<'a>, Refusal>
    ensures number { code result ≡ call_number rec.now events.now }
    ensures parsed { IfOk result (λ parsed. parsed.rec.now ≡ rec.now) }
{
    let parsed = record::parse(rec)?;
    events::buffer_check(events)?;
    Ok(parsed)
}

// A call: what was done, or the refusal.
pub fn call(image: &mut [u8], journal: &mut [u8], record: &[u8], events: &mut [u8]) -> Answer
    ensures { Replies (vault_step (vault image.old journal.old) (Call.operation «record».now events.old)) result events.new image.new journal.new }
{
    let is_image_good = image::good_image(image);
    state_check(is_image_good, journal)?;
    let parsed = call_check(record, events)?;
    let image: &mut Image = image.as_mut_array().unwrap();
    let events: &mut Buffer = events.as_mut_array().unwrap();
    if let Operation::View(view) = parsed.head.operation {
        return run_view(image, view, parsed.head, events);
    }
    run_operation(image, journal, parsed, events)
}

// A call without a journal: as with a closed one of its own.
#[tactic(auto, unfolding(crate::specs::Public::closed_journal))]
pub fn call_without_journal(image: &mut [u8], record: &[u8], events: &mut [u8]) -> Answer
    ensures answered { Answers (vault_step (vault image.old closed_journal) (Call.operation «record».now events.old)).answer result events.new }
    ensures changed { image.new ≡ (vault_step (vault image.old closed_journal) (Call.operation «record».now events.old)).state.image }
{
    let mut journal = [0u8; 48];
    call(image, &mut journal, record, events)
}

#[tactic(auto, using(crate::proofs::Called::looked))]
fn preview_operation(image: &Image, parsed: Parsed<'_>, events: &mut Buffer) -> Answer
    requires { Good image.now }
    ensures { Answers (op image.now parsed.entry.rec.now events.old).answer result events.new }
{
    // A view reads the image, anything else needs the copy: one arm each.
    match parsed.head.operation {
        Operation::View(view) => run_view(image, view, parsed.head, events),
        _ => {
            let mut copy = *image;
            try_operation(&mut copy, parsed, events)
        }
    }
}

// A preview: what a call without a journal would answer. The image is lent to read, and there is no journal.
pub fn preview(image: &[u8], record: &[u8], events: &mut [u8]) -> Answer
    ensures { Answers (preview_answer image.now «record».now events.old) result events.new }
{
    refusal::refuse_if(!image::good_image(image), Refusal::InvalidImage)?;
    let parsed = call_check(record, events)?;
    let image: &Image = image.as_array().unwrap();
    let events: &mut Buffer = events.as_mut_array().unwrap();
    preview_operation(image, parsed, events)
}

// The four calls of a transaction, for one export of C each: each is a step of its own.
pub fn begin(image: &mut [u8], journal: &mut [u8]) -> Result<(), Refusal>
    ensures { JournalIs (vault_step (vault image.old journal.old) Call.begin) (code result) image.new journal.new }
{
    let is_image_good = image::good_image(image);
    state_check(is_image_good, journal)?;
    journal::begin(journal)
}

pub fn commit(image: &mut [u8], journal: &mut [u8]) -> Result<(), Refusal>
    ensures { JournalIs (vault_step (vault image.old journal.old) Call.commit) (code result) image.new journal.new }
{
    let is_image_good = image::good_image(image);
    state_check(is_image_good, journal)?;
    journal::commit(journal)
}

pub fn rollback(image: &mut [u8], journal: &mut [u8]) -> Result<(), Refusal>
    ensures { JournalIs (vault_step (vault image.old journal.old) Call.rollback) (code result) image.new journal.new }
{
    let is_image_good = image::good_image(image);
    state_check(is_image_good, journal)?;
    journal::rollback(image, journal, CELLS)
}

pub fn undo(image: &mut [u8], journal: &mut [u8]) -> Result<(), Refusal>
    ensures { JournalIs (vault_step (vault image.old journal.old) Call.undo) (code result) image.new journal.new }
{
    let is_image_good = image::good_image(image);
    state_check(is_image_good, journal)?;
    journal::undo(image, journal, CELLS)
}

// Demand 1 of this vault, over the step that the contracts above cite.
#[tactic(auto, using(crate::proofs::Answered::all_answered))]
pub fn demand_one() -> u32
    ensures { Demand1 }
{
    1
}

// Demand 3 of this vault, over the step that the contracts above cite.
#[tactic(auto, using(crate::proofs::Demanded::demanded))]
pub fn demand_three() -> u32
    ensures { Demand3 }
{
    3
}

// Which cells a call of this vault enters, over the step that the contracts above cite.
#[tactic(auto, using(crate::proofs::Demanded::entered_cells))]
pub fn entered_cells() -> u32
    ensures { EntersCells }
{
    2302
}

// What a preview says of the call that follows it, and that calls do not notice it, over the step that the contracts above cite.
#[tactic(auto, using(crate::proofs::Previewed::all_previewed))]
pub fn previews() -> u32
    ensures { Previews }
{
    30
}
