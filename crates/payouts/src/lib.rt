// Operations 5 `withdraw`, 6 `withdraw_batch` and 8 `withdraw_token` (lib.rs).
#![tactic(auto, unfolding(fields::specs::Rules::chain, fields::specs::Rules::or_else, crate::specs::Payouts::withdraw_number, crate::specs::Payouts::withdraw_outcome, crate::specs::Payouts::payouts_number, crate::specs::Payouts::payouts_image, crate::specs::Payouts::payouts_events, crate::specs::Parts::put_events, crate::specs::Token::withdraw_token_number, crate::specs::Token::withdraw_token_outcome, crate::specs::Token::withdraw_token_image), using(outcome::specs::Outcome::refused, outcome::specs::Outcome::accepted, events::specs::Buffer::written_one, crate::specs::Laws::checks_passed, crate::specs::Laws::batch_passed, crate::specs::Laws::token_checks_passed, crate::proofs::Whole::all_written, crate::proofs::Whole::all_counted, crate::proofs::Whole::sent_keys))]

ghost use Rattle.std.specs.Prelude.{OnOk, IfOk, ◌≡◌, [], ◌∷◌, ◌+◌, ◌-◌, ◌<◌, ◌≤◌};
ghost use Rattle.refusal.specs.Numbers.{code};
ghost use Rattle.amount.specs.Biased.{bias, biased, num};
ghost use Rattle.image.specs.Layout.{slot, holding, initialised};
ghost use Rattle.storage.specs.Facts.{Good, Keys};
ghost use Rattle.storage.specs.Setters.{record_balance};
ghost use Rattle.token.specs.Token.{transfer_of};
ghost use Rattle.events.specs.Event.{event_buffer};
ghost use Rattle.events.specs.Kinds.{fields_of, withdrawn_event};
ghost use Rattle.outcome.specs.Outcome.{Does};
ghost use Rattle.payouts.specs.Payouts.{payout, items, item_number, items_number, items_sum, withdraw_checks, pay_number, withdraw_outcome};
ghost use Rattle.payouts.specs.Token.{credit_number, take_credit, withdraw_token_checks, withdraw_token_outcome};
ghost use Rattle.payouts.specs.Parts.{withdrawal_of, Pays, Payable};

use amount::Amount;
use events::{Buffer, Event, Fields};
use image::{Address, Image, Token};
use outcome::{Answer, Done};
use record::{Head, Items};
use refusal::Refusal;

// An item whose amount the checks have found above 0; `Item` itself holds any amount.
#[derive(Clone, Copy)]
struct Payout {
    to: Address,
    amount: Amount,
    ghost not_negative: { bias ≤ biased amount },
}

// What the payouts of one call have in common.
#[derive(Clone, Copy)]
struct Withdrawal {
    token: Token,
    sequence: u32,
    caller: Address,
    by_operator: bool,
}

impl Withdrawal {
    fn new(img: &Image, head: Head, token: Token) -> Withdrawal
        ensures { result ≡ withdrawal_of img.now head token }
    {
        Withdrawal {
            token,
            sequence: head.sequence,
            caller: head.caller,
            by_operator: fields::get8(img, image::OWNER) != head.caller.number,
        }
    }

    fn event(self, due: Payout, held: Amount) -> Event
        ensures { fields_of result ≡ withdrawn_event self.caller.number due.to.number (biased due.amount) (biased held) (num self.by_operator) }
    {
        Event::Withdrawn {
            caller: self.caller.number,
            to: due.to.number,
            amount: due.amount,
            new_balance: held,
            by_operator: self.by_operator,
        }
    }

    // 23; 13.
    #[tactic(auto, unfolding(fields::specs::Rules::chain, fields::specs::Rules::or_else, fields::specs::Rules::verdict, crate::specs::Payouts::remaining_number, crate::specs::Payouts::pay_number), using(crate::proofs::Steps::had, crate::proofs::Steps::sent_is, amount::specs::Order::ne_is, refusal::specs::Laws::on_ok))]
    fn send(self, img: &mut Image, due: Payout) -> Result<(), Refusal>
        requires { Good img.old }
        ensures value { code result ≡ pay_number img.old self.token.address due.to.number (biased due.amount) }
        ensures img_after { OnOk result (img.new ≡ transfer_of img.old self.token.address 1 due.to.number (biased due.amount)) }
    {
        let held = token::balance(img, self.token, token::VAULT);
        token::transfer(
            img,
            usize::from(self.token.address),
            token::VAULT,
            due.to,
            due.amount,
        )?;
        refusal::refuse_if(
            token::balance(img, self.token, token::VAULT) != held - due.amount,
            Refusal::WithdrawTransferFailed,
        )
    }

    // One payout, its event in place i.
    #[tactic(auto, unfolding(crate::specs::Payouts::payouts_number, crate::specs::Payouts::payouts_image, crate::specs::Payouts::payouts_events, crate::specs::Payouts::pay_image, crate::specs::Parts::put_events), using(fields::specs::Rules::or_none, refusal::specs::Laws::some_number, refusal::specs::Laws::code_passed))]
    fn pay(self, img: &mut Image, due: Payout, i: usize, events: &mut Buffer) -> Result<(), Refusal>
        requires { Good img.old × (i < 16) }
        ensures { Pays (payout due.to.number (biased due.amount) ∷ []) self.token.address self.sequence self.caller.number (num self.by_operator) img.old events.old i (code result) img.new events.new }
    {
        self.send(img, due)?;
        let held = token::balance(img, self.token, token::VAULT);
        storage::record_vault_balance(img, self.token, self.sequence, held);
        events::put_event(events, i, self.event(due, held));
        Ok(())
    }

    // Payout by payout, each item's event in its place.
    #[tactic(auto, using(crate::proofs::Loops::pay_begins, crate::proofs::Loops::items_next))]
    fn pay_items(
        self,
        img: &mut Image,
        listed: Items<'_>,
        events: &mut Buffer,
    ) -> Result<(), Refusal>
        requires { Good img.old × (initialised img.old ≡ 1) × Payable (items listed.count 0 listed.rec.now) }
        ensures { Pays (items listed.entry.count 0 listed.entry.rec.now) self.token.address self.sequence self.caller.number (num self.by_operator) img.old events.old 0 (code result) img.new events.new }
    {
        for i in 0..usize::from(listed.count) {
            let item = listed.get(i);
            let due = Payout {
                to: item.address,
                amount: item.amount,
            };
            self.pay(img, due, i, events)?;
        }
        Ok(())
    }

    // The caller's credit is lowered only where it covers the amount.
    #[tactic(auto, using(crate::proofs::Steps::credit_lowered, crate::proofs::Steps::credit_kept, amount::specs::Order::lt_true, amount::specs::Order::lt_false))]
    fn take_credit(self, img: &mut Image, due: Payout)
        requires { Keys img.old }
        ensures { img.new ≡ take_credit img.old self.token.address self.caller.number (biased due.amount) }
    {
        let credit = storage::get_token_account_balance(img, self.token, self.caller);
        if credit < due.amount {
            return;
        }
        let left = credit - due.amount;
        storage::set_token_account_balance(img, self.token, self.caller, left);
    }

    // What follows the transfer: credit, snapshot and event.
    fn settle(self, img: &mut Image, due: Payout, events: &mut Buffer)
        requires { Keys img.old }
        ensures img_after { img.new ≡ record_balance (take_credit img.old self.token.address self.caller.number (biased due.amount)) self.token.address self.sequence (holding img.old (slot self.token.address) 1) }
        ensures events_after { events.new ≡ event_buffer (withdrawn_event self.caller.number due.to.number (biased due.amount) (holding img.old (slot self.token.address) 1) (num self.by_operator) ∷ []) }
    {
        let held = token::balance(img, self.token, token::VAULT);
        self.take_credit(img, due);
        storage::record_vault_balance(img, self.token, self.sequence, held);
        events::write_one(events, Fields::from(self.event(due, held)));
    }
}

// The sum of what came before and an item's amount: 4; 7.
#[tactic(auto, unfolding(fields::specs::Rules::verdict, checks::specs::Checks::amount_number, crate::specs::Payouts::item_number), using(crate::proofs::Sums::added_number, crate::proofs::Sums::added_total))]
fn add_item(sum: Amount, n: Amount) -> Result<Amount, Refusal>
    ensures number { code result ≡ item_number (biased sum) (biased n) }
    ensures total { IfOk result (λ t. biased t ≡ biased sum + biased n - bias) }
{
    checks::amount_check(n)?;
    sum.checked_add(n).ok_or(Refusal::ArithmeticOverflow)
}

// Item by item 4, 7. The one of `batch_deposits` tests an item by other rules, and its sum cannot pass 2 ^ 127 - 1.
#[tactic(auto, unfolding(crate::specs::Payouts::items_number, crate::specs::Payouts::items_sum), using(amount::specs::Order::biased_zero, crate::proofs::Loops::sum_begins, crate::proofs::Loops::items_next, crate::proofs::Loops::items_end, fields::specs::Rules::or_go, fields::specs::Rules::or_stop, refusal::specs::Laws::code_passed, refusal::specs::Laws::some_number))]
fn add_items(listed: Items<'_>) -> Result<Amount, Refusal>
    ensures number { code result ≡ items_number (items listed.entry.count 0 listed.entry.rec.now) bias }
    ensures total { IfOk result (λ t. biased t ≡ items_sum (items listed.entry.count 0 listed.entry.rec.now) bias) }
{
    let mut sum = Amount::ZERO;
    for i in 0..usize::from(listed.count) {
        sum = add_item(sum, listed.get(i).amount)?;
    }
    Ok(sum)
}

// 8; 1, 3, 22; 4; 6; 6.
#[tactic(auto, unfolding(fields::specs::Rules::chain, fields::specs::Rules::or_else), using(crate::proofs::Steps::one_checks, checks::specs::Passed::gate_refused, checks::specs::Passed::gate_passed, checks::specs::Passed::gate_free))]
fn withdraw_checks(img: &Image, head: Head) -> Result<(), Refusal>
    requires { Good img.now }
    ensures { code result ≡ withdraw_checks img.now head.caller.number head.signers (payout head.other.number (biased head.amount) ∷ []) }
{
    checks::open_gate(img, head.caller.number, head.signers)?;
    checks::amount_check(head.amount)?;
    checks::cap_check(img, head.caller.number, head.amount)?;
    checks::funds_check(token::vault_balance(img), head.amount)
}

// 8; 1, 3, 22; 4; item by item 4, 7; 6; 6.
#[tactic(auto, unfolding(fields::specs::Rules::chain, fields::specs::Rules::or_else, fields::specs::Rules::verdict), using(crate::proofs::Steps::item_checks, checks::specs::Passed::gate_refused, checks::specs::Passed::gate_passed, checks::specs::Passed::gate_free))]
fn batch_checks(img: &Image, listed: Items<'_>, head: Head) -> Result<(), Refusal>
    requires { Good img.now }
    ensures { code result ≡ withdraw_checks img.now head.caller.number head.signers (items listed.entry.count 0 listed.entry.rec.now) }
{
    checks::open_gate(img, head.caller.number, head.signers)?;
    refusal::refuse_if(listed.count == 0, Refusal::InvalidAmount)?;
    let sum = add_items(listed)?;
    checks::cap_check(img, head.caller.number, sum)?;
    checks::funds_check(token::vault_balance(img), sum)
}

// 6: not the owner, and the credit is below the amount.
#[tactic(auto, unfolding(fields::specs::Rules::verdict, crate::specs::Token::credit_number), using(amount::specs::Order::less_is))]
fn credit_check(img: &Image, token: Token, caller: Address, n: Amount) -> Result<(), Refusal>
    ensures { code result ≡ credit_number img.now token.address caller.number (biased n) }
{
    if fields::get8(img, image::OWNER) == caller.number {
        return Ok(());
    }
    let credit = storage::get_token_account_balance(img, token, caller);
    refusal::refuse_if(credit < n, Refusal::LimitExceeded)
}

// 8; 1, 3, 22; 4; 6; 23; 6; 6.
#[tactic(auto, unfolding(fields::specs::Rules::chain, fields::specs::Rules::or_else, crate::specs::Token::withdraw_token_checks), using(checks::specs::Passed::gate_refused, checks::specs::Passed::gate_passed))]
fn withdraw_token_checks(img: &Image, head: Head) -> Result<Token, Refusal>
    ensures number { code result ≡ withdraw_token_checks img.now head.token.number head.caller.number head.signers (biased head.amount) }
    ensures token { IfOk result (λ token. token.address ≡ head.token.number) }
{
    checks::open_gate(img, head.caller.number, head.signers)?;
    checks::amount_check(head.amount)?;
    checks::cap_check(img, head.caller.number, head.amount)?;
    let token = token::presence_check(img, usize::from(head.token.number))?;
    checks::funds_check(token::balance(img, token, token::VAULT), head.amount)?;
    credit_check(img, token, head.caller, head.amount)?;
    Ok(token)
}

// Operation 5.
pub fn withdraw(img: &mut Image, head: Head, events: &mut Buffer) -> Answer
    requires { Good img.old }
    ensures { Does (withdraw_outcome img.old head.caller.number head.signers head.sequence (payout head.other.number (biased head.amount) ∷ [])) result img.new events.new }
{
    withdraw_checks(img, head)?;
    let paid = Withdrawal::new(img, head, token::default_token(img));
    let due = Payout {
        to: head.other,
        amount: head.amount,
    };
    events::clear_events(events);
    paid.pay(img, due, 0, events)?;
    Ok(Done::new(1))
}

// Operation 6.
pub fn withdraw_batch(img: &mut Image, listed: Items<'_>, head: Head, events: &mut Buffer) -> Answer
    requires { Good img.old }
    ensures { Does (withdraw_outcome img.old head.caller.number head.signers head.sequence (items listed.entry.count 0 listed.entry.rec.now)) result img.new events.new }
{
    batch_checks(img, listed, head)?;
    let paid = Withdrawal::new(img, head, token::default_token(img));
    events::clear_events(events);
    paid.pay_items(img, listed, events)?;
    Ok(Done::new(listed.count))
}

// Operation 8.
pub fn withdraw_token(img: &mut Image, head: Head, events: &mut Buffer) -> Answer
    requires { Good img.old }
    ensures { Does (withdraw_token_outcome img.old head.token.number head.caller.number head.signers head.sequence head.other.number (biased head.amount)) result img.new events.new }
{
    let token = withdraw_token_checks(img, head)?;
    let paid = Withdrawal::new(img, head, token);
    let due = Payout {
        to: head.other,
        amount: head.amount,
    };
    paid.send(img, due)?;
    paid.settle(img, due, events);
    Ok(Done::new(1))
}
