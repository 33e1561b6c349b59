// The operations by name, their numbers, and which fields of a record each reads.
ghost use Rattle.std.specs.Prelude.{◌≡◌, ok_or};
ghost use Rattle.refusal.specs.declared.Refusal.TheVariants.{InvalidRecord};
ghost use Rattle.record.specs.Numbers.{operation_number, operation_at};
ghost use Rattle.record.specs.Form.{reads_caller, reads_token, reads_other, reads_flag, reads_items};

use refusal::Refusal;

#[derive(Clone, Copy, Debug, PartialEq, Eq)]
pub enum View {
    Balance,
    EffectiveWithdrawLimit,
    GetTokenAccountBalance,
    IsTokenApproved,
    IsTokenCompliant,
}

#[derive(Clone, Copy, Debug, PartialEq, Eq)]
pub enum Operation {
    Initialize,
    Deposit,
    DepositWithFee,
    BatchDeposit,
    Withdraw,
    WithdrawBatch,
    DepositToken,
    WithdrawToken,
    DepositWithFailureReport,
    SetOperatorWithdrawLimit,
    SetLimit,
    SetTokenMaxLimit,
    SetOperator,
    RevokeOperator,
    ProposeOwner,
    AcceptOwner,
    SetOwnerProposalTtl,
    Pause,
    Unpause,
    ApproveToken,
    InitiateEmergencyMigration,
    ExecuteEmergencyMigration,
    CancelEmergencyMigration,
    View(View),
    OutsideMove,
    Freeze,
}

// The one place where a number of the format becomes an operation: no cast does, also where variants stand beside their numbers.
impl TryFrom<u8> for Operation {
    type Error = Refusal;

    ghost try_from_gives = { λ n r. r ≡ ok_or (operation_at n) InvalidRecord };

    #[tactic(auto, unfolding(crate::specs::Numbers::operation_at), using(crate::specs::Numbers::no_operation_at))]
    fn try_from(number: u8) -> Result<Operation, Refusal> {
        match number {
            1 => Ok(Operation::Initialize),
            2 => Ok(Operation::Deposit),
            3 => Ok(Operation::DepositWithFee),
            4 => Ok(Operation::BatchDeposit),
            5 => Ok(Operation::Withdraw),
            6 => Ok(Operation::WithdrawBatch),
            7 => Ok(Operation::DepositToken),
            8 => Ok(Operation::WithdrawToken),
            9 => Ok(Operation::DepositWithFailureReport),
            10 => Ok(Operation::SetOperatorWithdrawLimit),
            11 => Ok(Operation::SetLimit),
            12 => Ok(Operation::SetTokenMaxLimit),
            13 => Ok(Operation::SetOperator),
            14 => Ok(Operation::RevokeOperator),
            15 => Ok(Operation::ProposeOwner),
            16 => Ok(Operation::AcceptOwner),
            17 => Ok(Operation::SetOwnerProposalTtl),
            18 => Ok(Operation::Pause),
            19 => Ok(Operation::Unpause),
            20 => Ok(Operation::ApproveToken),
            21 => Ok(Operation::InitiateEmergencyMigration),
            22 => Ok(Operation::ExecuteEmergencyMigration),
            23 => Ok(Operation::CancelEmergencyMigration),
            24 => Ok(Operation::View(View::Balance)),
            25 => Ok(Operation::View(View::EffectiveWithdrawLimit)),
            26 => Ok(Operation::View(View::GetTokenAccountBalance)),
            27 => Ok(Operation::View(View::IsTokenApproved)),
            28 => Ok(Operation::View(View::IsTokenCompliant)),
            29 => Ok(Operation::OutsideMove),
            30 => Ok(Operation::Freeze),
            _ => Err(Refusal::InvalidRecord),
        }
    }
}

#[tactic(auto, unfolding(crate::specs::Form::reads_caller, crate::specs::Form::reads_token, crate::specs::Form::reads_other, crate::specs::Form::reads_flag, crate::specs::Form::reads_items, crate::specs::Form::member, crate::specs::Numbers::operation_at), using(crate::specs::Numbers::operation_at_number))]
impl Operation {
    pub(crate) fn reads_caller(self) -> bool
        ensures { result ≡ reads_caller (operation_number self) }
    {
        !matches!(
            self,
            Operation::BatchDeposit
                | Operation::View(View::Balance | View::IsTokenApproved | View::IsTokenCompliant)
                | Operation::Freeze
        )
    }

    pub(crate) fn reads_token(self) -> bool
        ensures { result ≡ reads_token (operation_number self) }
    {
        matches!(
            self,
            Operation::Initialize
                | Operation::DepositToken
                | Operation::WithdrawToken
                | Operation::SetTokenMaxLimit
                | Operation::ApproveToken
                | Operation::View(
                    View::GetTokenAccountBalance | View::IsTokenApproved | View::IsTokenCompliant
                )
                | Operation::OutsideMove
                | Operation::Freeze
        )
    }

    pub(crate) fn reads_other(self) -> bool
        ensures { result ≡ reads_other (operation_number self) }
    {
        matches!(
            self,
            Operation::Withdraw
                | Operation::WithdrawToken
                | Operation::SetOperator
                | Operation::ProposeOwner
                | Operation::InitiateEmergencyMigration
                | Operation::OutsideMove
        )
    }

    pub(crate) fn reads_flag(self) -> bool
        ensures { result ≡ reads_flag (operation_number self) }
    {
        matches!(self, Operation::ApproveToken | Operation::Freeze)
    }

    pub(crate) fn reads_items(self) -> bool
        ensures { result ≡ reads_items (operation_number self) }
    {
        matches!(self, Operation::BatchDeposit | Operation::WithdrawBatch)
    }
}
