// Operations 2 `deposit`, 3 `deposit_with_fee`, 7 `deposit_token` and 9 `deposit_with_failure_report` (lib.rs).
#![tactic(auto, unfolding(fields::specs::Rules::chain, fields::specs::Rules::or_else, crate::specs::Deposit::funding_number, crate::specs::Deposit::gross_number, crate::specs::Report::credited_number, crate::specs::TokenDeposit::token_cap_number, crate::specs::TokenDeposit::token_funding_number))]

ghost use Rattle.std.specs.Prelude.{IfOk, OnOk, ◌≡◌, [], ◌∷◌, ◌+◌, ◌-◌, ◌<◌, ◌≤◌};
ghost use Rattle.refusal.specs.Numbers.{code};
ghost use Rattle.amount.specs.Biased.{bias, biased};
ghost use Rattle.image.specs.Layout.{slot, holding};
ghost use Rattle.storage.specs.Facts.{Good, Keys};
ghost use Rattle.token.specs.Token.{transfer_number, transferred, transfer_of};
ghost use Rattle.events.specs.Event.{event_buffer};
ghost use Rattle.events.specs.Kinds.{deposited_event};
ghost use Rattle.storage.specs.Setters.{record_balance};
ghost use Rattle.outcome.specs.Outcome.{Does};
ghost use Rattle.deposits.specs.Deposit.{funding_number, overflow_number, expected_number, receive_number, add_credit, deposit_checks, deposit_outcome, deposit, fee_number, gross_number, deposit_with_fee_outcome};
ghost use Rattle.deposits.specs.Report.{credited_number, report_outcome, failure_report_outcome};
ghost use Rattle.deposits.specs.TokenDeposit.{token_cap_number, token_funding_number, token_checks, receive_token_number, deposit_token_outcome};

use amount::Amount;
use events::{Buffer, Event, Fields};
use image::{Address, Image, Token};
use outcome::{Answer, Done};
use record::Head;
use refusal::Refusal;

// 10; 7, 6; 11.
pub fn funding_check(img: &Image, token: Token, sequence: u32, n: Amount) -> Result<(), Refusal>
    requires { bias ≤ biased n }
    ensures { code result ≡ funding_number img.now token.address sequence (biased n) }
{
    checks::approved_check(img, token.address)?;
    let held = token::balance(img, token, token::VAULT);
    checks::limit_check(held, n, amount::read_amount(img, image::VAULT_LIMIT))?;
    storage::check_vault_balance(img, token, sequence, held)
}

// The sum, or 7 where it passes 2 ^ 127 - 1.
#[tactic(auto, using(crate::proofs::Steps::summed_number, crate::proofs::Steps::summed_value))]
fn checked_sum(a: Amount, n: Amount) -> Result<Amount, Refusal>
    requires { bias ≤ biased n }
    ensures number { code result ≡ overflow_number (biased a) (biased n) }
    ensures sum { IfOk result (λ s. biased s ≡ biased a + biased n - bias) }
{
    a.checked_add(n).ok_or(Refusal::ArithmeticOverflow)
}

// 12: the vault's holding is not the one expected.
#[tactic(auto, unfolding(fields::specs::Rules::verdict, crate::specs::Deposit::expected_number), using(amount::specs::Order::ne_is))]
pub fn expected_check(held: Amount, expected: Amount) -> Result<(), Refusal>
    ensures { code result ≡ expected_number (biased held) (biased expected) }
{
    refusal::refuse_if(held != expected, Refusal::DepositTransferFailed)
}

// What a deposit brings, once its amount is found above 0.
#[derive(Clone, Copy)]
struct Payment {
    token: Token,
    from: Address,
    sequence: u32,
    amount: Amount,
    ghost not_negative: { bias ≤ biased amount },
}

impl Payment {
    fn new(head: Head, token: Token) -> Payment
        requires { bias ≤ biased head.amount }
        ensures { (result.token ≡ token) × (result.from ≡ head.caller) × (result.sequence ≡ head.sequence) × (result.amount ≡ head.amount) }
    {
        Payment {
            token,
            from: head.caller,
            sequence: head.sequence,
            amount: head.amount,
        }
    }

    // 23.
    fn transfer(self, img: &mut Image) -> Result<(), Refusal>
        requires { Good img.old }
        ensures value { code result ≡ transfer_number img.old self.token.address self.from.number 1 (biased self.amount) }
        ensures img_after { img.new ≡ transferred img.old self.token.address self.from.number 1 (biased self.amount) }
    {
        token::transfer(
            img,
            usize::from(self.token.address),
            self.from,
            token::VAULT,
            self.amount,
        )
    }

    // 23; 12.
    #[tactic(auto, unfolding(fields::specs::Rules::chain, fields::specs::Rules::or_else, crate::specs::Deposit::receive_number), using(token::specs::Laws::transfer_done, refusal::specs::Laws::on_ok))]
    fn receive(self, img: &mut Image) -> Result<(), Refusal>
        requires { Good img.old × (holding img.old (slot self.token.address) 1 + biased self.amount < bias + bias + bias) }
        ensures value { code result ≡ receive_number img.old self.token.address self.from.number (biased self.amount) }
        ensures img_after { OnOk result (img.new ≡ transfer_of img.old self.token.address self.from.number 1 (biased self.amount)) }
    {
        let expected = token::balance(img, self.token, token::VAULT) + self.amount;
        self.transfer(img)?;
        expected_check(token::balance(img, self.token, token::VAULT), expected)
    }

    // 12; 7 of the credit, once the transfer is made.
    fn credited_check(self, img: &Image, expected: Amount) -> Result<(), Refusal>
        ensures { code result ≡ credited_number img.now self.token.address self.from.number (biased expected) (biased self.amount) }
    {
        expected_check(token::balance(img, self.token, token::VAULT), expected)?;
        let credit = storage::get_token_account_balance(img, self.token, self.from);
        checked_sum(credit, self.amount)?;
        Ok(())
    }

    // 23; 7; 12; 7 of the credit.
    #[tactic(auto, unfolding(fields::specs::Rules::chain, fields::specs::Rules::or_else, crate::specs::TokenDeposit::receive_token_number), using(token::specs::Laws::transfer_done, refusal::specs::Laws::on_ok))]
    fn receive_and_credit_check(self, img: &mut Image) -> Result<(), Refusal>
        requires { Good img.old }
        ensures value { code result ≡ receive_token_number img.old self.token.address self.from.number (biased self.amount) }
        ensures img_after { OnOk result (img.new ≡ transfer_of img.old self.token.address self.from.number 1 (biased self.amount)) }
    {
        let before = token::balance(img, self.token, token::VAULT);
        self.transfer(img)?;
        let expected = checked_sum(before, self.amount)?;
        self.credited_check(img, expected)
    }

    // A credit is added only if it fits.
    #[tactic(auto, unfolding(crate::specs::Deposit::add_credit), using(crate::proofs::Steps::sum_fits, crate::proofs::Steps::sum_is, crate::proofs::Steps::sum_passes))]
    fn add_credit(self, img: &mut Image)
        requires { Keys img.old }
        ensures { img.new ≡ add_credit img.old self.token.address self.from.number (biased self.amount) }
    {
        let old = storage::get_token_account_balance(img, self.token, self.from);
        if let Some(sum) = old.checked_add(self.amount) {
            storage::set_token_account_balance(img, self.token, self.from, sum);
        }
    }

    // What follows the transfer: credit, snapshot and event.
    fn settle(self, img: &mut Image, events: &mut Buffer)
        requires { Keys img.old }
        ensures img_after { img.new ≡ record_balance (add_credit img.old self.token.address self.from.number (biased self.amount)) self.token.address self.sequence (holding img.old (slot self.token.address) 1) }
        ensures events_after { events.new ≡ event_buffer (deposited_event self.from.number (biased self.amount) (holding img.old (slot self.token.address) 1) ∷ []) }
    {
        let held = token::balance(img, self.token, token::VAULT);
        self.add_credit(img);
        storage::record_vault_balance(img, self.token, self.sequence, held);
        events::write_one(
            events,
            Fields::from(Event::Deposited {
                from: self.from.number,
                amount: self.amount,
                new_balance: held,
            }),
        );
    }

    // A failed transfer is done with value 0; else 12; 7.
    #[tactic(auto, unfolding(fields::specs::Rules::chain, fields::specs::Rules::or_else, crate::specs::Deposit::deposit_image, crate::specs::Report::report_outcome), using(outcome::specs::Outcome::refused, outcome::specs::Outcome::accepted, token::specs::Laws::transfer_done, token::specs::Laws::transfer_failed, crate::proofs::Whole::transfer_keys, refusal::specs::Laws::code_is_ok, refusal::specs::Laws::code_is_err))]
    fn report(self, img: &mut Image, events: &mut Buffer) -> Answer
        requires { Good img.old × (holding img.old (slot self.token.address) 1 + biased self.amount < bias + bias + bias) }
        ensures { Does (report_outcome img.old self.token.address self.from.number self.sequence (biased self.amount)) result img.new events.new }
    {
        let expected = token::balance(img, self.token, token::VAULT) + self.amount;
        if self.transfer(img).is_err() {
            return Ok(outcome::announce(
                events,
                Event::VaultDepositFailed {
                    from: self.from.number,
                    token: self.token.address,
                    amount: self.amount,
                },
            ));
        }
        self.credited_check(img, expected)?;
        self.settle(img, events);
        Ok(Done {
            value: Amount::from(1),
            events: 1,
        })
    }
}

// 8; 1, 3, 22; 4, 5; 10; 7, 6; 11.
#[tactic(auto, unfolding(fields::specs::Rules::chain, fields::specs::Rules::or_else, crate::specs::Deposit::deposit_checks), using(checks::specs::Passed::gate_refused, checks::specs::Passed::gate_passed, checks::specs::Passed::gate_free, checks::specs::Passed::deposit_amount_free))]
fn deposit_checks(img: &Image, head: Head) -> Result<(), Refusal>
    requires { Good img.now }
    ensures { code result ≡ deposit_checks img.now head.caller.number head.signers head.sequence (biased head.amount) }
{
    checks::open_gate(img, head.caller.number, head.signers)?;
    checks::deposit_amount_check(head.amount)?;
    funding_check(img, token::default_token(img), head.sequence, head.amount)
}

#[tactic(auto, unfolding(fields::specs::Rules::chain, fields::specs::Rules::or_else, crate::specs::Deposit::deposit_outcome, crate::specs::Deposit::deposit_image), using(outcome::specs::Outcome::refused, outcome::specs::Outcome::accepted, crate::proofs::Laws::checks_passed, crate::proofs::Whole::received_keys))]
pub fn deposit(img: &mut Image, head: Head, events: &mut Buffer) -> Answer
    requires { Good img.old }
    ensures { Does (deposit_outcome img.old head.caller.number head.signers head.sequence (biased head.amount)) result img.new events.new }
{
    deposit_checks(img, head)?;
    let payment = Payment::new(head, token::default_token(img));
    payment.receive(img)?;
    payment.settle(img, events);
    Ok(Done::new(1))
}

// 4 of the gross amount and the fee.
#[tactic(auto, unfolding(crate::specs::Deposit::fee_number), using(crate::proofs::Steps::any_of, crate::proofs::Steps::ge_is, checks::specs::Passed::not_above))]
fn fee_check(gross: Amount, fee: Amount) -> Result<(), Refusal>
    ensures { code result ≡ fee_number (biased gross) (biased fee) }
{
    refusal::refuse_if(
        fee.is_negative() | !gross.is_positive() | (fee >= gross),
        Refusal::InvalidAmount,
    )
}

// 4, 5.
fn gross_check(gross: Amount, fee: Amount) -> Result<(), Refusal>
    ensures { code result ≡ gross_number (biased gross) (biased fee) }
{
    fee_check(gross, fee)?;
    checks::max_deposit_check(gross)
}

#[tactic(auto, unfolding(fields::specs::Rules::chain, fields::specs::Rules::or_else, crate::specs::Deposit::deposit_with_fee_outcome, crate::specs::Deposit::deposit_outcome), using(outcome::specs::Outcome::refused, outcome::specs::Outcome::accepted, crate::proofs::Laws::gross_free, crate::proofs::Whole::written_two))]
pub fn deposit_with_fee(img: &mut Image, head: Head, events: &mut Buffer) -> Answer
    requires { Good img.old }
    ensures { Does (deposit_with_fee_outcome img.old head.caller.number head.signers head.sequence (biased head.amount) (biased head.fee)) result img.new events.new }
{
    gross_check(head.amount, head.fee)?;
    let net = head.amount - head.fee;
    deposit(
        img,
        Head {
            amount: net,
            ..head
        },
        events,
    )?;
    events::put_event(
        events,
        1,
        Event::TokenDeposited {
            from: head.caller.number,
            gross_amount: head.amount,
            fee_amount: head.fee,
            net_amount: net,
        },
    );
    Ok(Done::new(2))
}

#[tactic(auto, unfolding(fields::specs::Rules::chain, fields::specs::Rules::or_else, crate::specs::Report::failure_report_outcome), using(outcome::specs::Outcome::refused, crate::proofs::Laws::checks_passed))]
pub fn deposit_with_failure_report(img: &mut Image, head: Head, events: &mut Buffer) -> Answer
    requires { Good img.old }
    ensures { Does (failure_report_outcome img.old head.caller.number head.signers head.sequence (biased head.amount)) result img.new events.new }
{
    deposit_checks(img, head)?;
    let payment = Payment::new(head, token::default_token(img));
    payment.report(img, events)
}

// With a cap: 7, 6.
fn token_cap_check(img: &Image, token: Token, held: Amount, n: Amount) -> Result<(), Refusal>
    requires { bias ≤ biased n }
    ensures { code result ≡ token_cap_number img.now token.address (biased held) (biased n) }
{
    let address = Address {
        number: token.address,
    };
    match image::cap(img, address) {
        Some(cap) => checks::limit_check(held, n, cap),
        None => Ok(()),
    }
}

// 10; 23; 11; with a cap 7, 6.
fn token_funding_check(img: &Image, head: Head) -> Result<Token, Refusal>
    requires { bias ≤ biased head.amount }
    ensures number { code result ≡ token_funding_number img.now head.token.number head.sequence (biased head.amount) }
    ensures token { IfOk result (λ token. token.address ≡ head.token.number) }
{
    checks::approved_check(img, head.token.number)?;
    let token = token::presence_check(img, usize::from(head.token.number))?;
    let held = token::balance(img, token, token::VAULT);
    storage::check_vault_balance(img, token, head.sequence, held)?;
    token_cap_check(img, token, held, head.amount)?;
    Ok(token)
}

// 8; 1, 3, 22; 4, 5; 10; 23; 11; 7, 6.
#[tactic(auto, unfolding(fields::specs::Rules::chain, fields::specs::Rules::or_else, crate::specs::TokenDeposit::token_checks), using(checks::specs::Passed::gate_refused, checks::specs::Passed::gate_passed, checks::specs::Passed::deposit_amount_free))]
fn token_checks(img: &Image, head: Head) -> Result<Token, Refusal>
    ensures number { code result ≡ token_checks img.now head.caller.number head.signers head.sequence head.token.number (biased head.amount) }
    ensures token { IfOk result (λ token. token.address ≡ head.token.number) }
{
    checks::open_gate(img, head.caller.number, head.signers)?;
    checks::deposit_amount_check(head.amount)?;
    token_funding_check(img, head)
}

#[tactic(auto, unfolding(fields::specs::Rules::chain, fields::specs::Rules::or_else, crate::specs::TokenDeposit::deposit_token_outcome), using(outcome::specs::Outcome::refused, outcome::specs::Outcome::accepted, crate::proofs::Laws::token_passed, crate::proofs::Whole::token_keys, crate::proofs::Swap::token_image))]
pub fn deposit_token(img: &mut Image, head: Head, events: &mut Buffer) -> Answer
    requires { Good img.old }
    ensures { Does (deposit_token_outcome img.old head.caller.number head.signers head.sequence head.token.number (biased head.amount)) result img.new events.new }
{
    let payment = Payment::new(head, token_checks(img, head)?);
    payment.receive_and_credit_check(img)?;
    payment.settle(img, events);
    Ok(Done::new(1))
}
