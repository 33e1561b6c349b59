// The text of an answer, and bytes in hexadecimal digits.
#![tactic(auto)]

ghost use Rattle.std.specs.Prelude.{◌≡◌, true, [], Some};
ghost use Rattle.amount.specs.Value.{value};
ghost use Rattle.answer_line.specs.Decimal.{answer_words};
ghost use Rattle.answer_line.specs.Hexadecimal.{hexadecimal};

use amount::Amount;
use std::fmt;

// What is printed of a call's answer.
#[derive(Clone, Copy, Debug, PartialEq, Eq)]
pub struct Answer {
    pub number: u32,
    pub value: Amount,
    pub events: u32,
}

impl fmt::Display for Answer {
    ghost output = { λ a. Some (answer_words a.number (value a.value) a.events []) };

    fn fmt<W: fmt::Write>(&self, f: &mut fmt::Formatter<W>) -> fmt::Result {
        let Answer {
            number,
            value: Amount(value),
            events,
        } = *self;
        write!(f, "answer={number} value={value} events={events}")
    }
}

// The digits of a digest, which has 32 bytes; false where there is another number of bytes.
fn write_digits(bytes: &[u8], digits: &mut [u8; 64]) -> bool
    ensures { result ≡ true → digits.new ≡ hexadecimal bytes.now }
{
    hex::encode_to_slice(bytes, digits).is_ok()
}

// Two digits a byte.
#[derive(Clone, Copy)]
pub struct Hexadecimal<'a>(pub &'a [u8]);

impl fmt::Display for Hexadecimal<'_> {
    ghost output = { λ h. Some (hexadecimal h.0.now) };

    fn fmt<W: fmt::Write>(&self, f: &mut fmt::Formatter<W>) -> fmt::Result {
        let bytes = self.0;
        // The digits of a digest, at once: printed byte by byte, they take most of the time of a line that says little else.
        let mut digits = [0u8; 64];
        if write_digits(bytes, &mut digits) {
            if let Ok(digits) = str::from_utf8(&digits) {
                return f.write_str(digits);
            }
        }
        for &byte in bytes {
            write!(f, "{byte:02x}")?;
        }
        Ok(())
    }
}
