// The cases A to L of docs/FORMATS.md as one proved table: definitions in specs/, and the function that carries it.
#![tactic(auto)]

ghost use Rattle.vault_cases.specs.Cases.{CasesHold};

// Cases A to L hold of the vault's step.
#[tactic(auto, using(crate::proofs::Table::cases_hold))]
pub fn cases() -> u32
    ensures { CasesHold }
{
    12
}
