// The heads of a list and of a call, with the most that their lengths may be.
#![tactic(auto)]

ghost use Rattle.std.specs.Prelude.{◌≤◌};

use vault_vectors::Transaction;

#[derive(Clone, Copy)]
pub(crate) struct ListHead {
    pub(crate) image_length: usize,
    pub(crate) journal_length: usize,
    pub(crate) count: u32,
    pub(crate) ghost image_fits: { image_length ≤ 36848 },
    pub(crate) ghost journal_fits: { journal_length ≤ 48048 },
}

// What is asked by a call, in the first byte of its head.
#[derive(Clone, Copy, Debug, PartialEq, Eq)]
pub(crate) enum Kind {
    Operation,
    Transaction(Transaction),
    Preview,
}

// The event buffer is filled with `fill` before the call.
#[derive(Clone, Copy)]
pub(crate) struct CallHead {
    pub(crate) kind: Kind,
    pub(crate) fill: u8,
    pub(crate) record_length: usize,
    pub(crate) events_length: usize,
    pub(crate) ghost record_fits: { record_length ≤ 512 },
    pub(crate) ghost events_fit: { events_length ≤ 1024 },
}
