// The vault's events (events.rs), and the buffer of 896 bytes that holds up to sixteen of them.
#![tactic(auto)]

ghost use Rattle.std.specs.Prelude.{◌≡◌, [], ◌∷◌, ◌<◌};
ghost use Rattle.refusal.specs.Numbers.{code};
ghost use Rattle.amount.specs.Biased.{biased, num};
ghost use Rattle.events.specs.Event.{written_fields, event_bytes, put_event, event_buffer, buffer_number};
ghost use Rattle.events.specs.Kinds.{fields_of};

use amount::Amount;
use refusal::Refusal;

#[derive(Clone, Copy, Debug, PartialEq, Eq)]
pub enum Event {
    Initialized {
        owner: u8,
        token: u8,
        max_limit: Amount,
    },
    Deposited {
        from: u8,
        amount: Amount,
        new_balance: Amount,
    },
    TokenDeposited {
        from: u8,
        gross_amount: Amount,
        fee_amount: Amount,
        net_amount: Amount,
    },
    Withdrawn {
        caller: u8,
        to: u8,
        amount: Amount,
        new_balance: Amount,
        by_operator: bool,
    },
    LimitSet {
        caller: u8,
        old_limit: Amount,
        new_limit: Amount,
    },
    OperatorWithdrawLimitSet {
        caller: u8,
        old_limit: Amount,
        new_limit: Amount,
    },
    OperatorSet {
        caller: u8,
        operator: u8,
    },
    OperatorRevoked {
        caller: u8,
    },
    Paused {
        caller: u8,
        paused_at: u64,
    },
    Unpaused {
        caller: u8,
        resumed_at: u64,
    },
    OwnerProposed {
        caller: u8,
        new_owner: u8,
    },
    OwnerAccepted {
        caller: u8,
        old_owner: u8,
    },
    OwnerProposalTtlSet {
        caller: u8,
        old_ttl: u64,
        new_ttl: u64,
    },
    EmergencyMigrationInitiated {
        caller: u8,
        destination: u8,
        executable_at: u64,
    },
    EmergencyMigrationExecuted {
        caller: u8,
        destination: u8,
        amount: Amount,
    },
    EmergencyMigrationCancelled {
        caller: u8,
    },
    VaultDepositFailed {
        from: u8,
        token: u8,
        amount: Amount,
    },
    TokenApprovalChanged {
        token: u8,
        approved: bool,
    },
}

// The length of an event's bytes, and of the buffer, which holds sixteen.
pub const EVENT_LENGTH: usize = 56;

pub const LENGTH: usize = 896;

pub type Buffer = [u8; LENGTH];

// What the bytes of an event say; an address or a number that its kind has not is 0.
#[derive(Clone, Copy)]
pub struct Fields {
    pub kind: u8,
    pub first: u8,
    pub second: u8,
    pub yes: bool,
    pub numbers: [Amount; 3],
}

impl Fields {
    fn to_bytes(self) -> [u8; EVENT_LENGTH]
        ensures { result ≡ event_bytes (written_fields self) }
    {
        let mut bytes = [0; EVENT_LENGTH];
        fields::put8(&mut bytes, 0, self.kind);
        fields::put8(&mut bytes, 1, self.first);
        fields::put8(&mut bytes, 2, self.second);
        fields::put8(&mut bytes, 3, u8::from(self.yes));
        fields::put32(&mut bytes, 4, 0);
        amount::write_amount(&mut bytes, 8, self.numbers[0]);
        amount::write_amount(&mut bytes, 24, self.numbers[1]);
        amount::write_amount(&mut bytes, 40, self.numbers[2]);
        bytes
    }
}

// The reason of a failed deposit: the token refused the transfer.
const TOKEN_REFUSED: u64 = 1;

#[tactic(auto, unfolding(crate::specs::Kinds::initialized_event, crate::specs::Kinds::deposited_event, crate::specs::Kinds::token_deposited_event, crate::specs::Kinds::withdrawn_event, crate::specs::Kinds::limit_set_event, crate::specs::Kinds::operator_withdraw_limit_set_event, crate::specs::Kinds::operator_set_event, crate::specs::Kinds::operator_revoked_event, crate::specs::Kinds::paused_event, crate::specs::Kinds::unpaused_event, crate::specs::Kinds::owner_proposed_event, crate::specs::Kinds::owner_accepted_event, crate::specs::Kinds::owner_proposal_ttl_set_event, crate::specs::Kinds::emergency_migration_initiated_event, crate::specs::Kinds::emergency_migration_executed_event, crate::specs::Kinds::emergency_migration_cancelled_event, crate::specs::Kinds::vault_deposit_failed_event, crate::specs::Kinds::token_approval_changed_event), using(amount::specs::Order::biased_zero))]
impl Event {
    // Its kind and its two addresses. One match that gave the numbers too would be of more than a hundred lines, as patterns of three names are laid out.
    fn head(self) -> (u8, u8, u8)
        ensures { (result.0 ≡ (fields_of self).kind) × (result.1 ≡ (fields_of self).first) × (result.2 ≡ (fields_of self).second) }
    {
        match self {
            Event::Initialized { owner, token, .. } => (1, owner, token),
            Event::Deposited { from, .. } => (2, from, 0),
            Event::TokenDeposited { from, .. } => (3, from, 0),
            Event::Withdrawn { caller, to, .. } => (4, caller, to),
            Event::LimitSet { caller, .. } => (5, caller, 0),
            Event::OperatorWithdrawLimitSet { caller, .. } => (6, caller, 0),
            Event::OperatorSet { caller, operator } => (7, caller, operator),
            Event::OperatorRevoked { caller } => (8, caller, 0),
            Event::Paused { caller, .. } => (9, caller, 0),
            Event::Unpaused { caller, .. } => (10, caller, 0),
            Event::OwnerProposed { caller, new_owner } => (11, caller, new_owner),
            Event::OwnerAccepted { caller, old_owner } => (12, caller, old_owner),
            Event::OwnerProposalTtlSet { caller, .. } => (13, caller, 0),
            Event::EmergencyMigrationInitiated {
                caller,
                destination,
                ..
            } => (14, caller, destination),
            Event::EmergencyMigrationExecuted {
                caller,
                destination,
                ..
            } => (15, caller, destination),
            Event::EmergencyMigrationCancelled { caller } => (16, caller, 0),
            Event::VaultDepositFailed { from, token, .. } => (17, from, token),
            Event::TokenApprovalChanged { token, .. } => (18, token, 0),
        }
    }

    fn yes(self) -> bool
        ensures { num result ≡ (fields_of self).yes }
    {
        match self {
            Event::Withdrawn { by_operator, .. } => by_operator,
            Event::TokenApprovalChanged { approved, .. } => approved,
            _ => false,
        }
    }

    fn number0(self) -> Amount
        ensures { biased result ≡ (fields_of self).number0 }
    {
        match self {
            Event::Initialized { max_limit, .. } => max_limit,
            Event::Deposited { amount, .. }
            | Event::Withdrawn { amount, .. }
            | Event::EmergencyMigrationExecuted { amount, .. }
            | Event::VaultDepositFailed { amount, .. } => amount,
            Event::TokenDeposited { gross_amount, .. } => gross_amount,
            Event::LimitSet { old_limit, .. } | Event::OperatorWithdrawLimitSet { old_limit, .. } =>
                old_limit,
            Event::Paused { paused_at, .. } => Amount::from(paused_at),
            Event::Unpaused { resumed_at, .. } => Amount::from(resumed_at),
            Event::OwnerProposalTtlSet { old_ttl, .. } => Amount::from(old_ttl),
            Event::EmergencyMigrationInitiated { executable_at, .. } => Amount::from(executable_at),
            _ => Amount::ZERO,
        }
    }

    fn number1(self) -> Amount
        ensures { biased result ≡ (fields_of self).number1 }
    {
        match self {
            Event::Deposited { new_balance, .. } | Event::Withdrawn { new_balance, .. } =>
                new_balance,
            Event::TokenDeposited { fee_amount, .. } => fee_amount,
            Event::LimitSet { new_limit, .. } | Event::OperatorWithdrawLimitSet { new_limit, .. } =>
                new_limit,
            Event::OwnerProposalTtlSet { new_ttl, .. } => Amount::from(new_ttl),
            Event::VaultDepositFailed { .. } => Amount::from(TOKEN_REFUSED),
            _ => Amount::ZERO,
        }
    }

    fn number2(self) -> Amount
        ensures { biased result ≡ (fields_of self).number2 }
    {
        match self {
            Event::TokenDeposited { net_amount, .. } => net_amount,
            _ => Amount::ZERO,
        }
    }
}

impl From<Event> for Fields {
    ghost from_gives = { λ event fields. written_fields fields ≡ fields_of event };

    #[tactic(auto, unfolding(crate::specs::Event::written_fields))]
    fn from(event: Event) -> Fields {
        let (kind, first, second) = event.head();
        Fields {
            kind,
            first,
            second,
            yes: event.yes(),
            numbers: [event.number0(), event.number1(), event.number2()],
        }
    }
}

// The place is the caller's: operations 4 and 6 count their events as they go over their items.
#[tactic(auto, using(crate::proofs::Laid::laid))]
pub fn put_fields(events: &mut Buffer, i: usize, fields: Fields)
    requires { i < 16 }
    ensures { events.new ≡ put_event events.old i (written_fields fields) }
{
    let at = EVENT_LENGTH * i;
    events[at..at + EVENT_LENGTH].copy_from_slice(&fields.to_bytes());
}

pub fn put_event(events: &mut Buffer, i: usize, event: Event)
    requires { i < 16 }
    ensures { events.new ≡ put_event events.old i (fields_of event) }
{
    put_fields(events, i, Fields::from(event));
}

// The buffer of these fields alone.
#[tactic(auto, using(crate::specs::Buffer::written_one))]
pub fn write_one(events: &mut Buffer, fields: Fields)
    ensures { events.new ≡ event_buffer (written_fields fields ∷ []) }
{
    clear_events(events);
    put_fields(events, 0, fields);
}

#[tactic(auto, using(crate::specs::Buffer::buffer_cleared))]
pub fn clear_events(events: &mut Buffer)
    ensures { events.new ≡ event_buffer [] }
{
    events.fill(0);
}

// 33 where the buffer is not 896 bytes long.
#[tactic(auto, unfolding(crate::specs::Event::buffer_number, fields::specs::Rules::verdict))]
pub fn buffer_check(events: &[u8]) -> Result<(), Refusal>
    ensures { code result ≡ buffer_number events.now }
{
    refusal::refuse_if(events.len() != LENGTH, Refusal::InvalidEventBuffer)
}
