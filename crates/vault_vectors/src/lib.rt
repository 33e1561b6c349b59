// The line of a call of the vectors: its answer, and the digests of event buffer, image and journal after it (docs/VECTORS.md).
#![tactic(auto)]

ghost use Rattle.std.specs.Prelude.{◌≡◌, ◌<◌, ◌++◌, [], ◌∷◌, Some, length};
ghost use Rattle.answer_line.specs.Decimal.{answer_words};
ghost use Rattle.events.specs.Splice.{amount_bytes};
ghost use Rattle.journal.specs.Calls.{Call};
ghost use Rattle.journal.specs.Step.{vault};
ghost use Rattle.outcome.specs.Outcome.{value_of, count_of};
ghost use Rattle.refusal.specs.Numbers.{code};
ghost use Rattle.token_vault.specs.Vault.{vault_step};
ghost use Rattle.token_vault.specs.Public.{JournalIs};
ghost use Rattle.token_vault.specs.Preview.{Request, request_step};
ghost use Rattle.vault_program.specs.Program.{signed_at};
ghost use Rattle.vault_vectors.specs.Vectors.{digests, kind_of, text_of, transaction, PrintsStep};

use answer_line::{Answer, Hexadecimal};
use outcome::Done;
use refusal::Refusal;
use std::fmt;

// A call's answer, and the SHA-256 of the event buffer, the image and the journal after it.
#[derive(Clone, Copy)]
pub struct StepLine {
    answer: Answer,
    events_digest: [u8; 32],
    image_digest: [u8; 32],
    journal_digest: [u8; 32],
}

impl fmt::Display for StepLine {
    ghost output = { λ l. Some (text_of l) };

    fn fmt<W: fmt::Write>(&self, f: &mut fmt::Formatter<W>) -> fmt::Result {
        let answer = self.answer;
        let events = Hexadecimal(&self.events_digest);
        let image = Hexadecimal(&self.image_digest);
        let journal = Hexadecimal(&self.journal_digest);
        write!(
            f,
            "{answer} event_bytes={events} image={image} journal={journal}"
        )
    }
}

fn step_line(answer: outcome::Answer, events: &[u8], image: &[u8], journal: &[u8]) -> StepLine
    ensures words { text_of result ++ (10 ∷ []) ≡ answer_words (code answer) (signed_at (amount_bytes (value_of answer))) (count_of answer) (digests events.now image.now journal.now) }
    ensures short { length (text_of result) < 512 }
{
    StepLine {
        answer: vault_program::printed(answer),
        events_digest: sha256::sha256(events),
        image_digest: sha256::sha256(image),
        journal_digest: sha256::sha256(journal),
    }
}

pub fn answer_operation(
    image: &mut [u8],
    journal: &mut [u8],
    record: &[u8],
    events: &mut [u8],
) -> StepLine
    ensures { PrintsStep (vault_step (vault image.old journal.old) (Call.operation «record».now events.old)) (text_of result ++ (10 ∷ [])) image.new journal.new × (length (text_of result) < 512) }
{
    let answer = token_vault::call(image, journal, record, events);
    step_line(answer, events, image, journal)
}

// The same for the preview of an operation: image and journal are lent to read.
pub fn answer_preview(image: &[u8], journal: &[u8], record: &[u8], events: &mut [u8]) -> StepLine
    ensures { PrintsStep (request_step (vault image.now journal.now) (Request.preview «record».now events.old)) (text_of result ++ (10 ∷ [])) image.now journal.now × (length (text_of result) < 512) }
{
    let answer = token_vault::preview(image, record, events);
    step_line(answer, events, image, journal)
}

// The calls that have no record, no value and no event buffer.
#[derive(Clone, Copy, Debug, PartialEq, Eq)]
pub enum Transaction {
    Begin,
    Commit,
    Rollback,
    Undo,
}

fn call_transaction(image: &mut [u8], journal: &mut [u8], kind: Transaction) -> Result<(), Refusal>
    ensures { JournalIs (vault_step (vault image.old journal.old) (transaction (kind_of kind))) (code result) image.new journal.new }
{
    match kind {
        Transaction::Begin => token_vault::begin(image, journal),
        Transaction::Commit => token_vault::commit(image, journal),
        Transaction::Rollback => token_vault::rollback(image, journal),
        Transaction::Undo => token_vault::undo(image, journal),
    }
}

impl Transaction {
    pub fn answer(self, image: &mut [u8], journal: &mut [u8]) -> StepLine
        ensures { PrintsStep (vault_step (vault image.old journal.old) (transaction (kind_of self))) (text_of result ++ (10 ∷ [])) image.new journal.new × (length (text_of result) < 512) }
    {
        let answer = call_transaction(image, journal, self).and(Ok(Done::new(0)));
        step_line(answer, &[], image, journal)
    }
}

// Of any number, as `transaction` says of it.
impl From<u8> for Transaction {
    ghost from_gives = { λ kind t. transaction (kind_of t) ≡ transaction kind };

    fn from(kind: u8) -> Transaction {
        match kind {
            1 => Transaction::Begin,
            2 => Transaction::Commit,
            3 => Transaction::Rollback,
            _ => Transaction::Undo,
        }
    }
}

// The same by the number of a kind.
pub fn answer_transaction(image: &mut [u8], journal: &mut [u8], kind: u8) -> StepLine
    ensures { PrintsStep (vault_step (vault image.old journal.old) (transaction kind)) (text_of result ++ (10 ∷ [])) image.new journal.new × (length (text_of result) < 512) }
{
    Transaction::from(kind).answer(image, journal)
}
