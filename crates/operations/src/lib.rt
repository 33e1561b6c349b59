// The operations by their names: `operate` runs any of them, `look` a view alone.
#![tactic(auto, unfolding(record::specs::Form::reads_items, record::specs::Form::member), using(crate::specs::Laws::look_does))]

ghost use Rattle.storage.specs.Facts.{Good};
ghost use Rattle.outcome.specs.Outcome.{Does, Views};
ghost use Rattle.operations.specs.Operations.{outcome_of, outcome_by, view_outcome};

use batch_deposits::batch_deposit;
use deposits::deposit_with_failure_report;
use events::Buffer;
use image::Image;
use migration::{
    cancel_emergency_migration, execute_emergency_migration, initiate_emergency_migration,
};
use outcome::Answer;
use record::{Head, Operation, Parsed, View};
use settings::set_operator_withdraw_limit;

pub fn operate(img: &mut Image, parsed: Parsed<'_>, events: &mut Buffer) -> Answer
    requires { Good img.old }
    ensures { Does (outcome_of img.old parsed.entry.rec.now) result img.new events.new }
{
    operate_by_name(img, parsed, events)
}

// One arm a call, each to a function with a contract of its own: a match is the plainer table of functions.
fn operate_by_name(img: &mut Image, parsed: Parsed<'_>, events: &mut Buffer) -> Answer
    requires { Good img.old }
    ensures { Does (outcome_by parsed.entry.head.operation img.old parsed.entry.rec.now parsed.entry.head) result img.new events.new }
{
    let head = parsed.head;
    match head.operation {
        Operation::Initialize => setup::initialize(img, head, events),
        Operation::Deposit => deposits::deposit(img, head, events),
        Operation::DepositWithFee => deposits::deposit_with_fee(img, head, events),
        Operation::BatchDeposit => batch_deposit(img, parsed.items(), head, events),
        Operation::Withdraw => payouts::withdraw(img, head, events),
        Operation::WithdrawBatch => payouts::withdraw_batch(img, parsed.items(), head, events),
        Operation::DepositToken => deposits::deposit_token(img, head, events),
        Operation::WithdrawToken => payouts::withdraw_token(img, head, events),
        Operation::DepositWithFailureReport => deposit_with_failure_report(img, head, events),
        Operation::SetOperatorWithdrawLimit => set_operator_withdraw_limit(img, head, events),
        Operation::SetLimit => settings::set_limit(img, head, events),
        Operation::SetTokenMaxLimit => settings::set_token_max_limit(img, head, events),
        Operation::SetOperator => settings::set_operator(img, head, events),
        Operation::RevokeOperator => settings::revoke_operator(img, head, events),
        Operation::ProposeOwner => handover::propose_owner(img, head, events),
        Operation::AcceptOwner => handover::accept_owner(img, head, events),
        Operation::SetOwnerProposalTtl => handover::set_owner_proposal_ttl(img, head, events),
        Operation::Pause => settings::pause(img, head, events),
        Operation::Unpause => settings::unpause(img, head, events),
        Operation::ApproveToken => setup::approve_token(img, head, events),
        Operation::InitiateEmergencyMigration => initiate_emergency_migration(img, head, events),
        Operation::ExecuteEmergencyMigration => execute_emergency_migration(img, head, events),
        Operation::CancelEmergencyMigration => cancel_emergency_migration(img, head, events),
        Operation::View(view) => {
            events::clear_events(events);
            look(img, view, head)
        }
        Operation::OutsideMove => moves::outside_move(img, head, events),
        Operation::Freeze => moves::freeze(img, head, events),
    }
}

pub fn look(img: &Image, view: View, head: Head) -> Answer
    requires { Good img.now }
    ensures { Views (view_outcome view img.now head.token.number head.caller.number) result }
{
    match view {
        View::Balance => views::balance(img),
        View::EffectiveWithdrawLimit => views::effective_withdraw_limit(img, head),
        View::GetTokenAccountBalance => views::get_token_account_balance(img, head),
        View::IsTokenApproved => views::is_token_approved(img, head),
        View::IsTokenCompliant => views::is_token_compliant(img, head),
    }
}
