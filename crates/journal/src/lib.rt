// The undo journal of an image: whether it is good, the calls that open and close it, and an operation's changed cells entered and taken back.
#![tactic(auto)]

ghost use Rattle.std.specs.Prelude.{◌≡◌, List, [], ◌++◌, ℕ, suc, ◌+◌, ◌-◌, ◌*◌, ◌<◌, ◌≤◌, length, take, drop, replicate};
ghost use Rattle.fields.specs.Bytes.{le, put};
ghost use Rattle.fields.specs.Same.{same_bytes_of};
ghost use Rattle.journal.specs.Journal.{contents_of, good_journal, fits, entry_bytes, restore};
ghost use Rattle.journal.specs.Scan.{in_order_of, scan_head, scan_entries};
ghost use Rattle.journal.specs.Step.{vault, reply, begun, committed, rolled_back, undone};
ghost use Rattle.journal.specs.Parts.{GoodJournal, GoodOver, GoodOpen, Enters, Earlier, Counted, Cells, Compares, place_at, Found, Finds};
ghost use Rattle.refusal.specs.Numbers.{code};

use refusal::Refusal;

// The numbers of a head: the calls and the entries that it counts. Entries are places of a slice, and may be more than a head holds.
#[derive(Clone, Copy)]
struct Counts {
    calls: u16,
    entries: usize,
}

// The numbers of an entry: its cell, and the call that changed it.
#[derive(Clone, Copy, Debug, PartialEq, Eq)]
pub struct EntryHead {
    pub cell: u16,
    pub call: u16,
}

// Cells that stand side by side, the number of the first of them, and the call that they are entered for. The number of cells is a constant
// in a stretch, which the compiler sees here alone; by the slices' length, finding every cell changed took two fifths longer.
#[derive(Clone, Copy, Debug, PartialEq, Eq)]
pub struct Span {
    pub cells: usize,
    pub first: usize,
    pub call: u16,
}

#[tactic(auto, using(crate::proofs::Written::calls_at, crate::proofs::Written::count_at))]
fn read_counts(journal: &[u8]) -> Counts
    requires { 24 ≤ length journal.now }
    ensures bytes { (result.calls ≡ le 2 journal.now 2) × (result.entries ≡ le 2 journal.now 4) }
    ensures contents { (result.calls ≡ (contents_of journal.now).calls) × (result.entries ≡ length (contents_of journal.now).entries) }
    ensures small { result.entries < 65536 }
{
    Counts {
        calls: fields::get16(journal, 2),
        entries: usize::from(fields::get16(journal, 4)),
    }
}

fn read_entry_head(entry: &[u8; 24]) -> EntryHead
    ensures cell { result.cell ≡ le 2 entry.now 0 }
    ensures call { result.call ≡ le 2 entry.now 2 }
{
    EntryHead {
        cell: fields::get16(entry, 0),
        call: fields::get16(entry, 2),
    }
}

#[tactic(auto, unfolding(crate::specs::Journal::fits), using(crate::proofs::Written::known_tests))]
fn good_length(len: usize) -> bool
    ensures { result ≡ fits len }
{
    len % 24 == 0 && 48 <= len && len <= 48024
}

// Counts, the open byte and the unused bytes of the head.
#[tactic(auto, unfolding(crate::specs::Scan::scan_head), using(crate::proofs::Written::known_tests, fields::specs::Zeros::zeros_part))]
fn good_head(journal: &[u8]) -> bool
    requires { 24 ≤ length journal.now }
    ensures { result ≡ scan_head journal.now }
{
    let counts = read_counts(journal);
    let is_open = journal[0] == 1;
    let counted = counts.calls <= 1000 && 24 * (counts.entries + 1) <= journal.len();
    let filled = journal[0] <= 1 && journal[1] == 0 && fields::are_zero(&journal[6..24]);
    let closed = is_open || counts.calls == 0 && counts.entries == 0;
    counted & filled & closed
}

// Whether an entry may stand behind one of call `last` whose next cell would be `next`.
#[tactic(auto, unfolding(crate::specs::Scan::in_order_of), using(crate::proofs::Written::known_tests))]
fn in_order(entry: EntryHead, cells: usize, calls: u16, last: u16, next: usize) -> bool
    ensures { result ≡ in_order_of cells calls last next entry.cell entry.call }
{
    let cell = usize::from(entry.cell);
    let ascends = last < entry.call || next <= cell;
    1 <= entry.call && entry.call <= calls && last <= entry.call && cell < cells && ascends
}

// Whether so many entries in order, and then zeros, stand behind the head.
// The order of an entry depends on the one before it, so `last` and `next` are kept from one to the next.
fn good_entries(journal: &[u8], cells: usize, counts: Counts) -> bool
    requires { 24 * suc counts.entries ≤ length journal.now }
    ensures { result ≡ scan_entries cells counts.calls counts.entries 0 0 (drop 24 journal.now) }
{
    let (places, _) = journal.as_chunks::<24>();
    let mut last = 0;
    let mut next = 0;
    for entry in &places[1..counts.entries + 1] {
        let head = read_entry_head(entry);
        if !in_order(head, cells, counts.calls, last, next) {
            return false;
        }
        if !fields::are_zero(&entry[4..8]) {
            return false;
        }
        last = head.call;
        next = usize::from(head.cell) + 1;
    }
    let end = 24 * (counts.entries + 1);
    fields::are_zero(&journal[end..])
}

#[tactic(auto, using(crate::proofs::Written::fits_long, crate::proofs::Scanned::head_room, crate::proofs::Scanned::bad_length, crate::proofs::Scanned::bad_head, crate::proofs::Scanned::entries_decide))]
pub fn good_journal(journal: &[u8], cells: usize) -> bool
    ensures { result ≡ good_journal cells journal.now }
{
    good_length(journal.len())
        && good_head(journal)
        && good_entries(journal, cells, read_counts(journal))
}

#[tactic(auto, unfolding(crate::specs::Journal::contents_of))]
pub fn is_open(journal: &[u8]) -> bool
    ensures { result ≡ (contents_of journal.now).opened }
{
    journal.first() == Some(&1)
}

#[tactic(auto, using(crate::proofs::Written::good_long, crate::proofs::States::begun_open, crate::proofs::Outcomes::begin_done, refusal::specs::Laws::some_number))]
pub fn begin(journal: &mut [u8]) -> Result<(), Refusal>
    requires { GoodJournal journal.old }
    ensures { (x : List ℕ) → reply (code result) [] (vault x journal.new) ≡ begun (vault x journal.old) }
{
    refusal::refuse_if(is_open(journal), Refusal::TransactionOpen)?;
    journal[0] = 1;
    Ok(())
}

#[tactic(auto, using(crate::proofs::States::committed_open, crate::proofs::States::committed_closed, refusal::specs::Laws::some_number))]
pub fn commit(journal: &mut [u8]) -> Result<(), Refusal>
    requires { GoodJournal journal.old }
    ensures { (x : List ℕ) → reply (code result) [] (vault x journal.new) ≡ committed (vault x journal.old) }
{
    refusal::refuse_if(!is_open(journal), Refusal::NoTransaction)?;
    journal.fill(0);
    Ok(())
}

// Puts the entries behind the first `from` back into the image, the last one first.
// By numbers and not by the slice of entries: the clause speaks of the journal's entries behind the first `from`; `cells` is read by the clauses alone.
#[tactic(auto, using(crate::proofs::Written::good_room, crate::proofs::Written::good_short))]
fn put_back(image: &mut [u8], journal: &[u8], cells: usize, from: usize, count: usize)
    requires good_over { GoodOver cells image.old journal.now }
    requires from_le_count { (from ≤ count) × (count ≡ length (contents_of journal.now).entries) }
    ensures { image.new ≡ restore (drop from (contents_of journal.now).entries) image.old }
{
    let (places, _) = journal.as_chunks::<24>();
    for entry in places[from + 1..count + 1].iter().rev() {
        let lo = 16 * usize::from(read_entry_head(entry).cell);
        image[lo..lo + 16].copy_from_slice(&entry[8..24]);
    }
}

// How many entries are of calls before the last.
#[tactic(auto, using(crate::proofs::Written::good_room, crate::proofs::Written::good_few))]
fn earlier_entries(journal: &[u8], counts: Counts) -> usize
    requires good_journal { GoodJournal journal.now }
    requires counts_of { (counts.calls ≡ (contents_of journal.now).calls) × (counts.entries ≡ length (contents_of journal.now).entries) }
    ensures { Earlier counts.calls (contents_of journal.now).entries result }
{
    let (places, _) = journal.as_chunks::<24>();
    places[1..counts.entries + 1]
        .iter()
        .rposition(|entry| read_entry_head(entry).call != counts.calls)
        .map_or(0, |n| n + 1)
}

// Zeroes the entries behind the first `from`, up to the first `to`. The range of bytes is plainer than the chunks of it.
fn clear_entries(journal: &mut [u8], from: usize, to: usize)
    requires { (from ≤ to) × (24 * suc to ≤ length journal.old) }
    ensures { journal.new ≡ take (24 * suc from) journal.old ++ (replicate (24 * (to - from)) 0 ++ drop (24 * suc to) journal.old) }
{
    journal[24 * (from + 1)..24 * (to + 1)].fill(0);
}

// The cast loses nothing below 65536; `try_from` would need an `unwrap`.
fn write_counts(journal: &mut [u8], counts: Counts)
    requires { (6 ≤ length journal.old) × (counts.entries < 65536) }
    ensures { journal.new ≡ put 2 (put 2 journal.old 2 counts.calls) 4 counts.entries }
{
    fields::put16(journal, 2, counts.calls);
    fields::put16(journal, 4, counts.entries as u16);
}

// `cells` is the number for which the journal is good, here and in `undo`: the definitions name it.
#[tactic(auto, using(crate::proofs::Written::good_long, crate::proofs::States::rolled_open, crate::proofs::States::rolled_closed, refusal::specs::Laws::some_number))]
pub fn rollback(image: &mut [u8], journal: &mut [u8], cells: usize) -> Result<(), Refusal>
    requires { GoodOver cells image.old journal.old }
    ensures { reply (code result) [] (vault image.new journal.new) ≡ rolled_back (vault image.old journal.old) }
{
    refusal::refuse_if(!is_open(journal), Refusal::NoTransaction)?;
    let counts = read_counts(journal);
    put_back(image, journal, cells, 0, counts.entries);
    journal.fill(0);
    Ok(())
}

#[tactic(auto, using(crate::proofs::Written::good_long, crate::proofs::Written::good_room, crate::proofs::States::undone_closed, crate::proofs::Outcomes::undo_none, refusal::specs::Laws::some_number))]
pub fn undo(image: &mut [u8], journal: &mut [u8], cells: usize) -> Result<(), Refusal>
    requires { GoodOver cells image.old journal.old }
    ensures { reply (code result) [] (vault image.new journal.new) ≡ undone (vault image.old journal.old) }
{
    refusal::refuse_if(!is_open(journal), Refusal::NoTransaction)?;
    let counts = read_counts(journal);
    refusal::refuse_if(counts.calls == 0, Refusal::NothingToUndo)?;
    let left = earlier_entries(journal, counts);
    put_back(image, journal, cells, left, counts.entries);
    clear_entries(journal, left, counts.entries);
    write_counts(
        journal,
        Counts {
            calls: counts.calls - 1,
            entries: left,
        },
    );
    Ok(())
}

pub fn entry_bytes(head: EntryHead, old: &[u8; 16]) -> [u8; 24]
    ensures { result ≡ entry_bytes (record { cell = head.cell; call = head.call; old = old.now }) }
{
    let mut bytes = [0; 24];
    bytes[0..2].copy_from_slice(&head.cell.to_le_bytes());
    bytes[2..4].copy_from_slice(&head.call.to_le_bytes());
    bytes[8..24].copy_from_slice(old);
    bytes
}

// The byte at which entry n stands, or the end where there is no place for it.
#[tactic(auto, unfolding(crate::specs::Parts::place_at))]
fn place_at(n: usize, len: usize) -> usize
    requires { n ≤ 65536 }
    ensures { (result ≡ place_at n len) × (result ≤ len) }
{
    len.min(24 * n)
}

fn same_cell(old: &[u8; 16], new: &[u8; 16]) -> bool
    ensures { result ≡ same_bytes_of old.now new.now }
{
    old == new
}

// Writes an entry for each cell that changed, as far as there are places, and counts them all; `same` compares two cells. The cast loses nothing, by `Cells`.
// By index, here and in `enter_cells`: with `zip` and `enumerate`, finding one changed cell in each stretch took half as long again.
pub fn enter_span<F: Fn(&[u8; 16], &[u8; 16]) -> bool>(
    old: &[u8],
    new: &[u8],
    places: &mut [u8],
    span: Span,
    same: F,
) -> usize
    requires cells { Cells span.cells span.first span.call old.now new.now }
    requires compares { Compares (F.pre same) (F.post same) }
    ensures { Found span.cells span.first span.call old.now new.now places.old result places.new }
{
    let (before, _) = old.as_chunks::<16>();
    let (after, _) = new.as_chunks::<16>();
    let mut n = 0;
    for cell in 0..span.cells {
        if !same(&before[cell], &after[cell]) {
            let at = 24 * n;
            let end = at + 24;
            n += 1;
            if end <= places.len() {
                let head = EntryHead {
                    cell: (span.first + cell) as u16,
                    call: span.call,
                };
                places[at..end].copy_from_slice(&entry_bytes(head, &before[cell]));
            }
        }
    }
    n
}

// So many cells are passed over at once where they are all the same.
const STRETCH: usize = 16;

// The bytes of so many cells.
const STRETCH_BYTES: usize = 256;

// `enter_span` of a whole image, stretch by stretch; one that is the same in both images is passed over.
// Two images and their number of cells, here, in `enter_behind` and in `enter`: a struct of them would be made for one call.
pub fn enter_cells(old: &[u8], new: &[u8], places: &mut [u8], cells: usize, call: u16) -> usize
    requires { Cells cells 0 call old.now new.now }
    ensures { Finds cells call old.now new.now places.old result places.new }
{
    let (before, before_rest) = old.as_chunks::<STRETCH_BYTES>();
    let (after, after_rest) = new.as_chunks::<STRETCH_BYTES>();
    let mut n = 0;
    for stretch in 0..cells / STRETCH {
        if !fields::same_words(&before[stretch], &after[stretch]) {
            let at = place_at(n, places.len());
            let span = Span {
                cells: STRETCH,
                first: STRETCH * stretch,
                call,
            };
            n += enter_span(
                &before[stretch],
                &after[stretch],
                &mut places[at..],
                span,
                same_cell,
            );
        }
    }
    let first = STRETCH * (cells / STRETCH);
    let at = place_at(n, places.len());
    let span = Span {
        cells: cells - first,
        first,
        call,
    };
    n + enter_span(before_rest, after_rest, &mut places[at..], span, same_cell)
}

// The changed cells behind the entries that are there: written as far as there are places, and all entries counted.
#[tactic(auto, using(crate::proofs::Written::good_room, crate::proofs::Written::good_few, crate::proofs::Written::good_calls))]
fn enter_behind(old: &[u8], new: &[u8], journal: &mut [u8], cells: usize, counts: Counts) -> usize
    requires good_open { GoodOpen cells old.now new.now journal.old }
    requires counts_of { (counts.calls ≡ (contents_of journal.old).calls) × (counts.entries ≡ length (contents_of journal.old).entries) }
    ensures { Counted cells old.now new.now journal.old result journal.new }
{
    let at = 24 * (counts.entries + 1);
    let more = enter_cells(old, new, &mut journal[at..], cells, counts.calls + 1);
    counts.entries + more
}

// Enters an operation that changed the image from `old` to `new`; where it is refused, the journal stays as it is.
#[tactic(auto, using(crate::proofs::Written::good_long, crate::proofs::Written::good_short, crate::proofs::Written::good_room, crate::proofs::Written::good_few))]
pub fn enter(old: &[u8], new: &[u8], journal: &mut [u8], cells: usize) -> Result<(), Refusal>
    requires { GoodOpen cells old.now new.now journal.old }
    ensures { Enters cells old.now new.now journal.old (code result) journal.new }
{
    let counts = read_counts(journal);
    refusal::refuse_if(counts.calls >= 1000, Refusal::JournalFull)?;
    let entries = enter_behind(old, new, journal, cells, counts);
    let len = journal.len();
    if 24 * (entries + 1) > len {
        clear_entries(journal, counts.entries, len / 24 - 1);
        return Err(Refusal::JournalFull);
    }
    write_counts(
        journal,
        Counts {
            calls: counts.calls + 1,
            entries,
        },
    );
    Ok(())
}
