// What the benchmark times of the journal, for C and Rust: the changed cells of two images found a word at a time, as a call finds them, and a byte at a time; and the journal's test. No call of the vault is linked with it.
#![tactic(auto)]

ghost use Rattle.std.specs.Prelude.{◌≡◌};
ghost use Rattle.fields.specs.Rules.{pick};
ghost use Rattle.fields.specs.Same.{same_bytes_of};
ghost use Rattle.journal.specs.Journal.{good_journal};
ghost use Rattle.journal.specs.Parts.{Finds};

use journal::Span;

// The number of changed cells of two images; their entries, of call 1, as far as there are places.
#[unsafe(no_mangle)]
pub extern "C" fn journal_bench_by_words(
    old: &[u8; 36832],
    new: &[u8; 36832],
    places: &mut [u8],
) -> u32
    ensures { Finds 2302 1 old.now new.now places.old result places.new }
{
    journal::enter_cells(old, new, places, 2302, 1) as u32
}

fn same_cell(old: &[u8; 16], new: &[u8; 16]) -> bool
    ensures { result ≡ same_bytes_of old.now new.now }
{
    fields::same_bytes(old, new)
}

// The same, a byte at a time.
#[unsafe(no_mangle)]
pub extern "C" fn journal_bench_by_bytes(
    old: &[u8; 36832],
    new: &[u8; 36832],
    places: &mut [u8],
) -> u32
    ensures { Finds 2302 1 old.now new.now places.old result places.new }
{
    let span = Span {
        cells: 2302,
        first: 0,
        call: 1,
    };
    let changed = journal::enter_span(old, new, places, span, same_cell);
    changed as u32
}

// 1 for a good journal, and else 0.
#[unsafe(no_mangle)]
pub extern "C" fn journal_bench_good(journal: &[u8]) -> u32
    ensures { result ≡ pick (good_journal 2302 journal.now) 1 0 }
{
    u32::from(journal::good_journal(journal, 2302))
}
