// The records that are to be made, with the bounds of their numbers.
#![tactic(auto)]

ghost use Rattle.std.specs.Prelude.{◌+◌, ◌^◌, ◌≤◌};

// Records that are to be made: `left` of them, with record numbers from `next` on. `last` is the generator's number.
#[derive(Clone, Copy, Debug, PartialEq, Eq)]
pub(crate) struct Records {
    pub(crate) last: u64,
    pub(crate) next: u64,
    pub(crate) left: u64,
    pub(crate) ghost from_one: { 1 ≤ next },
    pub(crate) ghost within: { next + left ≤ 2 ^ 32 },
}
