// Trial records (docs/FORMATS.md, "Trial records"): records of 448 bytes that any house makes from a starting number, for a load.
// `as` stands where a number is known to fit, and from a place to a `u64`, for which there is no `From`.
#![tactic(auto)]

ghost use Rattle.std.specs.Prelude.{◌≡◌, ◌+◌, ◌*◌, ◌/◌, ◌%◌, ◌^◌, ◌<◌, ◌≤◌, length};
ghost use Rattle.refusal.specs.Numbers.{code};
ghost use Rattle.trial_records.specs.Generator.{next, draw, steps};
ghost use Rattle.trial_records.specs.Trial.{draws_from, laid, head_fields, trial_fields, trial_record, reached_from, records_from, trial_number, trial, TrialIs, reached_or};
ghost use Rattle.trial_records.specs.Parts.{draws_of};
ghost use Rattle.trial_records.specs.Theorems.{TrialRecords};

use amount::Amount;
use record::{LENGTH, Record};
use refusal::Refusal;

const MULTIPLIER: u64 = 6364136223846793005;

const INCREMENT: u64 = 1442695040888963407;

// The last record's number is below it.
pub const RECORDS_END: u64 = 1 << 32;

// The generator, by its last number.
#[derive(Clone, Copy)]
struct Generator {
    last: u64,
}

impl Generator {
    // The upper 32 bits of the next number.
    #[tactic(auto, unfolding(crate::specs::Generator::next, crate::specs::Generator::draw))]
    fn draw(&mut self) -> u32
        ensures reached { self.new.last ≡ next self.old.last }
        ensures drawn { result ≡ draw (next self.old.last) }
    {
        self.last = MULTIPLIER.wrapping_mul(self.last).wrapping_add(INCREMENT);
        (self.last >> 32) as u32
    }

    fn draw_below(&mut self, bound: u8) -> u8
        requires { 0 < bound }
        ensures reached { self.new.last ≡ next self.old.last }
        ensures drawn { (result ≡ draw (next self.old.last) % bound) × (result < bound) }
    {
        (self.draw() % u32::from(bound)) as u8
    }
}

// What six draws make.
#[derive(Clone, Copy)]
struct Draws {
    operation: u8,
    caller: u8,
    token: u8,
    other: u8,
    flag: u8,
    amount: u64,
}

#[tactic(auto, unfolding(crate::specs::Trial::draws_from, crate::specs::Generator::steps))]
fn six_draws(generator: &mut Generator) -> Draws
    ensures drawn { draws_of result ≡ draws_from generator.old.last }
    ensures reached { generator.new.last ≡ steps 6 generator.old.last }
{
    Draws {
        operation: generator.draw_below(30) + 1,
        caller: generator.draw_below(64),
        token: generator.draw_below(64),
        other: generator.draw_below(64),
        flag: generator.draw_below(2),
        amount: u64::from(generator.draw() % 1001),
    }
}

fn put_head(rec: &mut Record, d: Draws)
    ensures { rec.new ≡ laid rec.old (head_fields (draws_of d)) }
{
    fields::put8(rec, 0, d.operation);
    fields::put8(rec, 1, d.caller);
    fields::put8(rec, 2, d.token);
    fields::put8(rec, 3, d.other);
    fields::put8(rec, 4, d.flag);
    fields::put8(rec, 5, 1);
}

#[tactic(auto, using(crate::proofs::Fields::small_put))]
fn put_record(rec: &mut Record, d: Draws, number: u32)
    ensures { rec.new ≡ laid rec.old (trial_fields (draws_of d) number) }
{
    put_head(rec, d);
    fields::put64(rec, 8, u64::from(number));
    fields::put32(rec, 16, number);
    fields::put64(rec, 24, u64::MAX);
    let amount = Amount::from(d.amount);
    amount::write_amount(rec, 32, amount);
    fields::put8(rec, 64, d.other);
    amount::write_amount(rec, 72, amount);
}

#[tactic(auto, unfolding(crate::specs::Trial::trial_record, crate::specs::Trial::record_of))]
fn make_record(generator: &mut Generator, number: u32) -> Record
    ensures made { result ≡ trial_record generator.old.last number }
    ensures reached { generator.new.last ≡ steps 6 generator.old.last }
{
    let mut rec = [0u8; LENGTH];
    put_record(&mut rec, six_draws(generator), number);
    rec
}

// By index: what a slice holds after `chunks_exact_mut` or `as_chunks_mut` is not known.
#[tactic(auto, unfolding(crate::specs::Trial::records_from, crate::specs::Trial::reached_from))]
fn make_records(start: u64, first: u64, records: &mut [u8]) -> u64
    requires { (length records.old % 448 ≡ 0) × (first + length records.old / 448 ≤ 2 ^ 32) }
    ensures { (records.new ≡ records_from start first (length records.old / 448)) × (result ≡ reached_from start (length records.old / 448)) }
{
    let mut generator = Generator { last: start };
    for i in 0..records.len() / LENGTH {
        let number = first + i as u64;
        let rec = make_record(&mut generator, number as u32);
        records[LENGTH * i..LENGTH * i + LENGTH].copy_from_slice(&rec);
    }
    generator.last
}

// A first number above 2^32 comes before the sum, which could pass 2^64.
#[tactic(auto, unfolding(crate::specs::Trial::trial_number, fields::specs::Rules::verdict))]
fn trial_check(first: u64, bytes: usize) -> Result<(), Refusal>
    ensures { code result ≡ trial_number first bytes }
{
    let count = (bytes / LENGTH) as u64;
    let wrong = bytes % LENGTH != 0
        || first == 0
        || first > RECORDS_END
        || first + count > RECORDS_END;
    refusal::refuse_if(wrong, Refusal::InvalidRecord)
}

// Fills the buffer with records from number `first` on, and says which number of the generator the last draw reached.
#[tactic(auto, using(crate::specs::Laws::allowed))]
pub fn trial_records(start: u64, first: u64, records: &mut [u8]) -> Result<u64, Refusal>
    ensures { TrialIs (trial start first records.old) (code result) records.new (reached_or start result) }
{
    trial_check(first, records.len())?;
    Ok(make_records(start, first, records))
}

// What holds of all trial records, over the definition that the contract above cites.
#[tactic(auto, using(crate::proofs::Proved::all_proved))]
pub fn trial_theorems() -> u32
    ensures { TrialRecords }
{
    32
}
