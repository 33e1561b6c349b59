// Operations 21 to 23: the emergency migration of the vault's holding to a destination (lib.rs).
#![tactic(auto, unfolding(fields::specs::Rules::chain, fields::specs::Rules::or_else, fields::specs::Rules::verdict, crate::specs::Migration::proposal_number, crate::specs::Migration::initiate_number, crate::specs::Migration::initiate_outcome, crate::specs::Migration::no_migration_number, crate::specs::Migration::early_number, crate::specs::Migration::execute_checks, crate::specs::Migration::migrate_number, crate::specs::Migration::migrate_holding, crate::specs::Migration::execute_number, crate::specs::Migration::clear_migration, crate::specs::Migration::execute_outcome, crate::specs::Migration::cancel_number, crate::specs::Migration::cancel_outcome), using(outcome::specs::Outcome::refused, outcome::specs::Outcome::announced))]

ghost use Rattle.std.specs.Prelude.{IfOk, OnOk, ◌≡◌, ◌+◌};
ghost use Rattle.refusal.specs.Numbers.{code};
ghost use Rattle.amount.specs.Biased.{biased};
ghost use Rattle.image.specs.Layout.{initialised, destination, executable_at};
ghost use Rattle.storage.specs.Facts.{Good};
ghost use Rattle.token.specs.Token.{vault_balance};
ghost use Rattle.outcome.specs.Outcome.{Does};
ghost use Rattle.migration.specs.Migration.{timelock, proposal_number, initiate_outcome, no_migration_number, execute_checks, migrate_number, migrate_holding, clear_migration, execute_outcome, cancel_outcome};

use amount::Amount;
use events::{Buffer, Event};
use image::{Address, Flag, Image, Migration};
use outcome::Answer;
use record::Head;
use refusal::Refusal;

// EMERGENCY_MIGRATION_TIMELOCK_SECONDS: 48 hours.
const TIMELOCK: u64 = 172_800;

// 14, 7; when the migration may be executed.
fn proposal_check(to: u8, time: u64) -> Result<u64, Refusal>
    ensures number { code result ≡ proposal_number to time }
    ensures executable_at { IfOk result (λ t. t ≡ time + timelock) }
{
    refusal::refuse_if(to == 0, Refusal::InvalidParam)?;
    time.checked_add(TIMELOCK)
        .ok_or(Refusal::ArithmeticOverflow)
}

// 1, 3, 22; 14, 7. Written field by field, as the definition puts them; a writer of an `Option` would match and put the same.
pub fn initiate_emergency_migration(img: &mut Image, head: Head, events: &mut Buffer) -> Answer
    ensures { Does (initiate_outcome img.old head.caller.number head.signers head.other.number head.timestamp) result img.new events.new }
{
    checks::owner_gate(img, head.caller.number, head.signers)?;
    let executable_at = proposal_check(head.other.number, head.timestamp)?;
    storage::set_flag(img, Flag::Migration);
    fields::put8(img, image::DESTINATION, head.other.number);
    fields::put64(img, image::MIGRATION_PROPOSED_AT, head.timestamp);
    fields::put64(img, image::EXECUTABLE_AT, executable_at);
    Ok(outcome::announce(
        events,
        Event::EmergencyMigrationInitiated {
            caller: head.caller.number,
            destination: head.other.number,
            executable_at,
        },
    ))
}

// 20.
fn migration_check(img: &Image) -> Result<Migration, Refusal>
    ensures number { code result ≡ no_migration_number img.now }
    ensures migration { IfOk result (λ m. (m.destination ≡ destination img.now) × (m.executable_at ≡ executable_at img.now)) }
{
    image::proposed_migration(img).ok_or(Refusal::NoMigrationProposed)
}

// 1, 3, 22; 20; 21; where the holding is to go.
fn execute_check(img: &Image, head: Head) -> Result<u8, Refusal>
    ensures number { code result ≡ execute_checks img.now head.caller.number head.signers head.timestamp }
    ensures to { IfOk result (λ to. to ≡ destination img.now) }
{
    checks::owner_gate(img, head.caller.number, head.signers)?;
    let migration = migration_check(img)?;
    refusal::refuse_if(
        head.timestamp < migration.executable_at,
        Refusal::TimelockNotExpired,
    )?;
    Ok(migration.destination)
}

// 23; a holding of 0 makes no transfer.
#[tactic(auto, unfolding(crate::specs::Migration::migrate_number, crate::specs::Migration::migrate_holding), using(token::specs::Laws::transfer_done, refusal::specs::Laws::on_ok))]
fn migrate_holding(img: &mut Image, to: Address, held: Amount) -> Result<(), Refusal>
    requires { Good img.old × (initialised img.old ≡ 1) × (to.number ≡ destination img.old) × (biased held ≡ vault_balance img.old) }
    ensures value { code result ≡ migrate_number img.old }
    ensures img_after { OnOk result (img.new ≡ migrate_holding img.old) }
{
    if !held.is_positive() {
        return Ok(());
    }
    let t = fields::get8(img, image::DEFAULT_TOKEN);
    token::transfer(img, usize::from(t), token::VAULT, to, held)
}

fn clear_migration(img: &mut Image)
    ensures { img.new ≡ clear_migration img.old }
{
    storage::clear_flag(img, Flag::Migration);
    fields::put8(img, image::DESTINATION, 0);
    fields::put64(img, image::MIGRATION_PROPOSED_AT, 0);
    fields::put64(img, image::EXECUTABLE_AT, 0);
}

#[tactic(auto, unfolding(fields::specs::Rules::chain, fields::specs::Rules::or_else, crate::specs::Migration::execute_number, crate::specs::Migration::execute_outcome), using(crate::proofs::Laws::checks_free, crate::proofs::Laws::held_range, crate::proofs::Laws::good_migrate, outcome::specs::Outcome::refused, outcome::specs::Outcome::accepted))]
pub fn execute_emergency_migration(img: &mut Image, head: Head, events: &mut Buffer) -> Answer
    requires { Good img.old }
    ensures { Does (execute_outcome img.old head.caller.number head.signers head.timestamp) result img.new events.new }
{
    let to = Address {
        number: execute_check(img, head)?,
    };
    let held = token::vault_balance(img);
    migrate_holding(img, to, held)?;
    clear_migration(img);
    Ok(outcome::announce_value(
        events,
        Event::EmergencyMigrationExecuted {
            caller: head.caller.number,
            destination: to.number,
            amount: held,
        },
        held,
    ))
}

// 1, 3, 22; 20.
pub fn cancel_emergency_migration(img: &mut Image, head: Head, events: &mut Buffer) -> Answer
    ensures { Does (cancel_outcome img.old head.caller.number head.signers) result img.new events.new }
{
    checks::owner_gate(img, head.caller.number, head.signers)?;
    migration_check(img)?;
    clear_migration(img);
    Ok(outcome::announce(
        events,
        Event::EmergencyMigrationCancelled {
            caller: head.caller.number,
        },
    ))
}
