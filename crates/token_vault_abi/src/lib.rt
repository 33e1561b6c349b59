// The seven calls of the token vault, its trial records and its toll bounds for C and Rust: a slice is passed as a pointer and a length, sixteen bytes and each number
// that is written as a pointer.
#![tactic(auto)]

ghost use Rattle.std.specs.Prelude.{◌≡◌};
ghost use Rattle.journal.specs.Calls.{Call};
ghost use Rattle.journal.specs.Step.{vault};
ghost use Rattle.token_vault.specs.Vault.{vault_step};
ghost use Rattle.token_vault.specs.Public.{CallIs, CallAlone, closed_journal, JournalIs};
ghost use Rattle.token_vault.specs.Preview.{preview_answer, PreviewIs};
ghost use Rattle.trial_records.specs.Trial.{trial, TrialIs};
ghost use Rattle.toll_bounds.specs.Bounds.{toll_bounds, BoundsAre};
ghost use Rattle.amount.specs.Biased.{amount_at};
ghost use Rattle.events.specs.Splice.{amount_bytes};
ghost use Rattle.outcome.specs.Outcome.{value_of, count_of};
ghost use Rattle.refusal.specs.Numbers.{code};

use amount::Amount;
use outcome::{Answer, Done};
use toll_bounds::Range;

// An answer as C gets it: value and event count are written out, and the number is returned.
#[tactic(auto, using(events::specs::Splice::put_amount_whole))]
fn write_answer(answer: Answer, value: &mut [u8; 16], event_count: &mut u32) -> u32
    ensures { (result ≡ code answer) × (value.new ≡ amount_bytes (value_of answer)) × (event_count.new ≡ count_of answer) }
{
    // A refusal is written with value 0 and no event, here as bytes.
    let done = answer.unwrap_or(Done::new(0));
    amount::write_amount(value, 0, done.value);
    *event_count = u32::from(done.events);
    refusal::number(&answer)
}

// The holdings that are written for a refusal.
const NO_HOLDINGS: Range = Range {
    least: Amount::ZERO,
    greatest: Amount::ZERO,
};

// A call: its number; value and event count are written for every answer.
#[unsafe(no_mangle)]
pub extern "C" fn token_vault_call(
    image: &mut [u8],
    journal: &mut [u8],
    record: &[u8],
    events: &mut [u8],
    value: &mut [u8; 16],
    event_count: &mut u32,
) -> u32
    ensures { CallIs (vault_step (vault image.old journal.old) (Call.operation «record».now events.old)) result value.new event_count.new events.new image.new journal.new }
{
    let answer = token_vault::call(image, journal, record, events);
    write_answer(answer, value, event_count)
}

// A call without a journal: as with a closed one of its own.
#[unsafe(no_mangle)]
pub extern "C" fn token_vault_call_without_journal(
    image: &mut [u8],
    record: &[u8],
    events: &mut [u8],
    value: &mut [u8; 16],
    event_count: &mut u32,
) -> u32
    ensures { CallAlone (vault_step (vault image.old closed_journal) (Call.operation «record».now events.old)) result value.new event_count.new events.new image.new }
{
    let answer = token_vault::call_without_journal(image, record, events);
    write_answer(answer, value, event_count)
}

// A preview: what a call without a journal would answer. The image is lent to read, and there is no journal.
#[unsafe(no_mangle)]
pub extern "C" fn token_vault_preview(
    image: &[u8],
    record: &[u8],
    events: &mut [u8],
    value: &mut [u8; 16],
    event_count: &mut u32,
) -> u32
    ensures { PreviewIs (preview_answer image.now «record».now events.old) result value.new event_count.new events.new }
{
    let answer = token_vault::preview(image, record, events);
    write_answer(answer, value, event_count)
}

// Opens a transaction.
#[unsafe(no_mangle)]
pub extern "C" fn token_vault_begin(image: &mut [u8], journal: &mut [u8]) -> u32
    ensures { JournalIs (vault_step (vault image.old journal.old) Call.begin) result image.new journal.new }
{
    refusal::number(&token_vault::begin(image, journal))
}

// Keeps what the transaction did, and closes it.
#[unsafe(no_mangle)]
pub extern "C" fn token_vault_commit(image: &mut [u8], journal: &mut [u8]) -> u32
    ensures { JournalIs (vault_step (vault image.old journal.old) Call.commit) result image.new journal.new }
{
    refusal::number(&token_vault::commit(image, journal))
}

// Undoes all that the transaction did, and closes it.
#[unsafe(no_mangle)]
pub extern "C" fn token_vault_rollback(image: &mut [u8], journal: &mut [u8]) -> u32
    ensures { JournalIs (vault_step (vault image.old journal.old) Call.rollback) result image.new journal.new }
{
    refusal::number(&token_vault::rollback(image, journal))
}

// Undoes the last call of the transaction.
#[unsafe(no_mangle)]
pub extern "C" fn token_vault_undo(image: &mut [u8], journal: &mut [u8]) -> u32
    ensures { JournalIs (vault_step (vault image.old journal.old) Call.undo) result image.new journal.new }
{
    refusal::number(&token_vault::undo(image, journal))
}

// Fills the buffer with trial records, and says which number of the generator the last draw reached.
#[unsafe(no_mangle)]
pub extern "C" fn token_vault_trial_records(
    start: u64,
    first: u64,
    records: &mut [u8],
    reached: &mut u64,
) -> u32
    ensures { TrialIs (trial start first records.old) result records.new reached.new }
{
    let last = trial_records::trial_records(start, first, records);
    *reached = last.unwrap_or(start);
    refusal::number(&last)
}

// The least and the greatest holding of the vault after amounts are moved in, where the token's toll is known within bounds. Both are written for every answer.
#[unsafe(no_mangle)]
pub extern "C" fn token_vault_toll_bounds(
    image: &[u8],
    token: u8,
    amounts: &[u8],
    least_toll: &[u8; 16],
    greatest_toll: &[u8; 16],
    least_holding: &mut [u8; 16],
    greatest_holding: &mut [u8; 16],
) -> u32
    ensures { BoundsAre (toll_bounds image.now token amounts.now (amount_at least_toll.now 0) (amount_at greatest_toll.now 0)) result least_holding.new greatest_holding.new }
{
    let tolls = Range {
        least: amount::read_amount(least_toll, 0),
        greatest: amount::read_amount(greatest_toll, 0),
    };
    let bounds = toll_bounds::toll_bounds(image, token, amounts, tolls);
    let holdings = bounds.unwrap_or(NO_HOLDINGS);
    amount::write_amount(least_holding, 0, holdings.least);
    amount::write_amount(greatest_holding, 0, holdings.greatest);
    refusal::number(&bounds)
}
