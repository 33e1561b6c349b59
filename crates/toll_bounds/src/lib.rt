// Toll bounds (docs/FORMATS.md, "Toll bounds"): the least and the greatest holding of the vault after amounts are moved in at a toll that is known within bounds.
#![tactic(auto, unfolding(fields::specs::Rules::chain, fields::specs::Rules::or_else, fields::specs::Rules::verdict, crate::specs::Bounds::list_number, crate::specs::Bounds::tolls_number, crate::specs::Bounds::token_number, crate::specs::Bounds::request_number), using(amount::specs::Order::less_is))]

ghost use Rattle.std.specs.Prelude.{IfOk, true, ◌≡◌, ◌≤◌};
ghost use Rattle.refusal.specs.Numbers.{code};
ghost use Rattle.amount.specs.Biased.{bias, biased};
ghost use Rattle.image.specs.Good.{good_image};
ghost use Rattle.toll_bounds.specs.Bounds.{amount_count, amount_in, list_number, tolls_number, token_number, request_number, amounts_number, toll_bounds, HoldingsAre};
ghost use Rattle.toll_bounds.specs.Parts.{AmountsOf, TallyIs};
ghost use Rattle.toll_bounds.specs.Theorems.{TollBounds};

use amount::Amount;
use image::{Image, Token};
use refusal::Refusal;

// 46: the list's length.
fn list_check(bytes: usize) -> Result<(), Refusal>
    ensures { code result ≡ list_number bytes }
{
    refusal::refuse_if(
        bytes % 16 != 0 || bytes / 16 > 16,
        Refusal::InvalidTollBounds,
    )
}

// A least and a greatest amount: of tolls, or of holdings.
#[derive(Clone, Copy, Debug, PartialEq, Eq)]
pub struct Range {
    pub least: Amount,
    pub greatest: Amount,
}

// 46: the tolls.
fn tolls_check(tolls: Range) -> Result<(), Refusal>
    ensures { code result ≡ tolls_number (biased tolls.least) (biased tolls.greatest) }
{
    refusal::refuse_if(
        tolls.least.is_negative() || tolls.greatest.is_negative() || tolls.greatest < tolls.least,
        Refusal::InvalidTollBounds,
    )
}

// 46: the token.
fn token_check(img: &Image, t: u8) -> Result<Token, Refusal>
    ensures number { code result ≡ token_number img.now t }
    ensures token { IfOk result (λ token. token.address ≡ t) }
{
    token::moving(img, t).ok_or(Refusal::InvalidTollBounds)
}

// 46.
fn request_check(img: &Image, t: u8, bytes: usize, tolls: Range) -> Result<Token, Refusal>
    ensures number { code result ≡ request_number img.now t bytes (biased tolls.least) (biased tolls.greatest) }
    ensures token { IfOk result (λ token. token.address ≡ t) }
{
    list_check(bytes)?;
    tolls_check(tolls)?;
    token_check(img, t)
}

// Each amount of the list, in its sixteen bytes.
#[tactic(auto, using(crate::proofs::Chunks::chunk_amount))]
fn amounts_of(list: &[u8]) -> &[[u8; 16]]
    ensures { AmountsOf list.now result.now }
{
    let (amounts, _) = list.as_chunks::<16>();
    amounts
}

// 4.
fn amounts_check(amounts: &[u8]) -> Result<(), Refusal>
    ensures { code result ≡ amounts_number amounts.now (amount_count amounts.now) }
{
    let are_above = amounts_of(amounts)
        .iter()
        .all(|amount| amount::read_amount(amount, 0).is_positive());
    refusal::refuse_if(!are_above, Refusal::InvalidAmount)
}

// 7, or the holding at a toll.
#[tactic(auto, using(amount::specs::Laws::biased_below, crate::specs::Laws::after_none, crate::specs::Laws::pass_none, crate::proofs::Sums::sum_next, crate::proofs::Sums::sum_passes))]
fn holding_after(toll: Amount, held: Amount, amounts: &[u8]) -> Result<Amount, Refusal>
    requires { bias ≤ biased toll }
    ensures { TallyIs (biased toll) (biased held) (amount_in amounts.now) (amount_count amounts.now) result }
{
    let mut sum = held;
    for amount in amounts_of(amounts) {
        let arrival = token::arrives(toll, amount::read_amount(amount, 0));
        sum = sum.checked_add(arrival).ok_or(Refusal::ArithmeticOverflow)?;
    }
    Ok(sum)
}

// 46, 4, 7, of a good image.
#[tactic(auto, using(crate::specs::Laws::request_free, crate::proofs::Whole::given_is))]
fn holdings_of(image: &Image, t: u8, amounts: &[u8], tolls: Range) -> Result<Range, Refusal>
    requires { good_image image.now ≡ true }
    ensures { HoldingsAre (toll_bounds image.now t amounts.now (biased tolls.least) (biased tolls.greatest)) result }
{
    let token = request_check(image, t, amounts.len(), tolls)?;
    amounts_check(amounts)?;
    let held = token::balance(image, token, token::VAULT);
    let greatest = holding_after(tolls.least, held, amounts)?;
    let least = holding_after(tolls.greatest, held, amounts)?;
    Ok(Range { least, greatest })
}

// 30, 46, 4, 7; or the least and the greatest holding.
// The request as C passes it: each check reads another part.
#[tactic(auto, using(crate::proofs::Whole::refused_30, storage::specs::Facts::facts))]
pub fn toll_bounds(image: &[u8], token: u8, amounts: &[u8], tolls: Range) -> Result<Range, Refusal>
    ensures { HoldingsAre (toll_bounds image.now token amounts.now (biased tolls.least) (biased tolls.greatest)) result }
{
    refusal::refuse_if(!image::good_image(image), Refusal::InvalidImage)?;
    holdings_of(image.try_into().unwrap(), token, amounts, tolls)
}

// What holds of toll bounds, over the definition that the contract above cites.
#[tactic(auto, using(crate::proofs::Proved::all_proved))]
pub fn toll_bounds_theorems() -> u32
    ensures { TollBounds }
{
    46
}
