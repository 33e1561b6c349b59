// The theorem on lists of calls stands in specs/ and proofs/; a function carries its smallest instance.
#![tactic(auto)]

ghost use Rattle.history.specs.Register.{RegisterHistory};

// A vault of one number meets the theorem, so what it asks of operations can be met.
#[tactic(auto, using(crate::proofs::RegisterLaws::register_history))]
pub fn register_history() -> u32
    ensures { RegisterHistory }
{
    1
}
