// Operation 4 `batch_deposit` (lib.rs).
#![tactic(auto, unfolding(fields::specs::Rules::chain, fields::specs::Rules::or_else, crate::specs::Batch::open_number, crate::specs::Batch::item_number))]

ghost use Rattle.std.specs.Prelude.{IfOk, OnOk, ◌≡◌, [], ◌∷◌, ℕ, ◌+◌, ◌<◌, ◌≤◌};
ghost use Rattle.fields.specs.Rules.{chain};
ghost use Rattle.refusal.specs.Numbers.{code};
ghost use Rattle.amount.specs.Biased.{bias, biased};
ghost use Rattle.image.specs.Layout.{slot, holding};
ghost use Rattle.storage.specs.Facts.{Good};
ghost use Rattle.token.specs.Token.{transfer_number};
ghost use Rattle.record.specs.Record.{item_address, item_amount};
ghost use Rattle.events.specs.Event.{event_buffer, put_event};
ghost use Rattle.checks.specs.Checks.{deposit_amount_number, signed_number};
ghost use Rattle.outcome.specs.Outcome.{Does};
ghost use Rattle.batch_deposits.specs.Batch.{count_number, open_number, items_number, items_sum, item_transfer, item_event, transfers_number, transfers_image, transfers_events, collect_outcome, batch_outcome};

use amount::Amount;
use events::{Buffer, Event};
use image::{Image, Token};
use outcome::{Answer, Done};
use record::{Head, Item, Items};
use refusal::Refusal;

// 4: no item.
#[tactic(auto, unfolding(crate::specs::Batch::count_number), using(fields::specs::Rules::only))]
fn count_check(count: u8) -> Result<(), Refusal>
    ensures { code result ≡ count_number count }
{
    refusal::refuse_if(count == 0, Refusal::InvalidAmount)
}

// 8; 4; 1.
fn open_check(img: &Image, count: u8) -> Result<(), Refusal>
    ensures { code result ≡ open_number img.now count }
{
    checks::paused_check(img)?;
    count_check(count)?;
    checks::initialised_check(img)
}

// 4, 5; 22.
fn item_check(item: Item, signers: u64) -> Result<(), Refusal>
    ensures { code result ≡ chain (deposit_amount_number (biased item.amount) ∷ signed_number signers item.address.number ∷ []) }
{
    checks::deposit_amount_check(item.amount)?;
    checks::signed_check(signers, item.address.number)
}

// What the items came to: the first refusal, or the sum.
pub type Tally = Result<Amount, Refusal>;

// Item by item 4, 5; 22. Sixteen amounts of at most 10 ^ 30 stay far below 2 ^ 127. The one of `payouts` tests an item and each sum by other rules.
#[tactic(auto, unfolding(crate::specs::Batch::item_number), using(amount::specs::Order::biased_zero, refusal::specs::Laws::code_passed, refusal::specs::Laws::some_number, fields::specs::Rules::or_go, fields::specs::Rules::or_stop, crate::specs::Laws::item_free, crate::specs::Laws::one_more_fits, crate::specs::Laws::items_end, crate::proofs::Loops::sum_begins, crate::proofs::Loops::number_next, crate::proofs::Loops::sum_next))]
fn add_items(items: Items<'_>, signers: u64) -> Tally
    ensures number { code result ≡ items_number items.entry.count items.entry.rec.now signers 0 }
    ensures total { IfOk result (λ t. biased t ≡ bias + items_sum items.entry.count items.entry.rec.now 0) }
{
    let mut sum = Amount::ZERO;
    for i in 0..usize::from(items.count) {
        let item = items.get(i);
        item_check(item, signers)?;
        sum = sum + item.amount;
    }
    Ok(sum)
}

// The items of a batch, and what its checks have found.
#[derive(Clone, Copy)]
struct Batch<'a> {
    items: Items<'a>,
    token: Token,
    sequence: u32,
    sum: Amount,
    ghost above: { (j : ℕ) → j < items.count → bias < item_amount items.rec.now j },
    ghost not_negative: { bias ≤ biased sum },
}

impl Batch<'_> {
    // One item: its transfer (23), then its event.
    #[tactic(auto, unfolding(fields::specs::Rules::chain, fields::specs::Rules::or_else), using(token::specs::Laws::transfer_done))]
    fn transfer_item(self, img: &mut Image, i: usize, events: &mut Buffer) -> Result<(), Refusal>
        requires { Good img.old × (i < self.items.count) }
        ensures value { code result ≡ transfer_number img.old self.entry.token.address (item_address self.entry.items.rec.now i) 1 (item_amount self.entry.items.rec.now i) }
        ensures img_after { OnOk result (img.new ≡ item_transfer img.old self.entry.items.rec.now self.entry.token.address i) }
        ensures events_after { OnOk result (events.new ≡ put_event events.old i (item_event img.old self.entry.items.rec.now self.entry.token.address i)) }
    {
        let item = self.items.get(i);
        token::transfer(
            img,
            usize::from(self.token.address),
            item.address,
            token::VAULT,
            item.amount,
        )?;
        events::put_event(
            events,
            i,
            Event::Deposited {
                from: item.address.number,
                amount: item.amount,
                new_balance: token::balance(img, self.token, token::VAULT),
            },
        );
        Ok(())
    }

    // All transfers, item by item.
    fn transfer_items(self, img: &mut Image, events: &mut Buffer) -> Result<(), Refusal>
        requires { Good img.old }
        ensures value { code result ≡ transfers_number self.entry.items.count self.entry.items.rec.now self.entry.token.address 0 img.old }
        ensures img_after { OnOk result ((img.new ≡ transfers_image self.entry.items.count self.entry.items.rec.now self.entry.token.address 0 img.old) × (events.new ≡ event_buffer (transfers_events self.entry.items.count self.entry.items.rec.now self.entry.token.address 0 img.old))) }
    {
        events::clear_events(events);
        for i in 0..usize::from(self.items.count) {
            self.transfer_item(img, i, events)?;
        }
        Ok(())
    }

    // 23 item by item; 12 of the sum; then the snapshot.
    #[tactic(auto, unfolding(fields::specs::Rules::chain, fields::specs::Rules::or_else, crate::specs::Batch::collect_outcome), using(outcome::specs::Outcome::refused, outcome::specs::Outcome::accepted, crate::specs::Laws::events_long))]
    fn collect(self, img: &mut Image, events: &mut Buffer) -> Answer
        requires { Good img.old × (holding img.old (slot self.token.address) 1 + biased self.sum < bias + bias + bias) }
        ensures { Does (collect_outcome img.old self.entry.items.rec.now self.entry.token.address self.entry.sequence self.entry.items.count (biased self.entry.sum)) result img.new events.new }
    {
        let expected = token::balance(img, self.token, token::VAULT) + self.sum;
        self.transfer_items(img, events)?;
        let held = token::balance(img, self.token, token::VAULT);
        deposits::expected_check(held, expected)?;
        storage::record_vault_balance(img, self.token, self.sequence, held);
        Ok(Done::new(self.items.count))
    }
}

#[tactic(auto, unfolding(fields::specs::Rules::chain, fields::specs::Rules::or_else, crate::specs::Batch::batch_outcome, crate::specs::Batch::batch_checks), using(outcome::specs::Outcome::refused, crate::specs::Laws::open_free, crate::specs::Laws::items_free, deposits::proofs::Laws::funding_free))]
pub fn batch_deposit(img: &mut Image, items: Items<'_>, head: Head, events: &mut Buffer) -> Answer
    requires { Good img.old }
    ensures { Does (batch_outcome img.old items.entry.rec.now head.signers head.sequence items.entry.count) result img.new events.new }
{
    open_check(img, items.count)?;
    let sum = add_items(items, head.signers)?;
    let token = token::default_token(img);
    deposits::funding_check(img, token, head.sequence, sum)?;
    let batch = Batch {
        items,
        token,
        sequence: head.sequence,
        sum,
    };
    batch.collect(img, events)
}
