// Reading of whole buffers and printing of lines: a read that fails ends them as the end of the input does.
#![tactic(auto)]

ghost use Rattle.std.specs.Prelude.{◌≡◌, ◌≤◌, length, take, IfOk, IfSome, OnOk};
ghost use Rattle.std.specs.Fmt.{with_newline};
ghost use Rattle.std.specs.Fmt.InlineText.{inline_text};
ghost use Rattle.std.specs.Io.KnownBytes.{Consumes, Appends};

use std::fmt::{Display, InlineText};
use std::io::{Read, Write};
use std::{fmt, io};

// Reads until `buf` is full, the input ends or a read fails, and returns how many bytes it put at the start of `buf`.
// The count is what the contract's `take` goes by, and what callers compare with a length.
pub fn read_full<R: Read>(reader: &mut R, buf: &mut [u8]) -> usize
    ensures within { result ≤ length buf.new }
    ensures bytes { Consumes (R.remaining reader.old) (R.remaining reader.new) (take result buf.new) }
{
    let mut done = 0;
    // A step is what a read gave, so that there is no range to go over.
    while done < buf.len() {
        let n = reader.read(&mut buf[done..]).unwrap_or(0);
        if n == 0 {
            break;
        }
        done += n;
    }
    done
}

// The text of `value` and a line feed; an error where N bytes have no room for it, or where the value's own printing fails.
fn kept<const N: usize, D: Display>(value: &D) -> Result<InlineText<N>, fmt::Error>
    requires { N ≤ 4096 }
    ensures { IfOk result (λ line. IfSome (with_newline (D.output value.now)) (λ text. inline_text line ≡ text)) }
{
    let mut line = InlineText::<N>::new();
    fmt::Write::writeln(&mut line, value)?;
    Ok(line)
}

// The text of `value` and a line feed, which N bytes have room for. The error is that of a value whose own printing fails.
pub fn line<const N: usize, D: Display>(value: &D) -> io::Result<InlineText<N>>
    requires small { N ≤ 4096 }
    requires fits { IfSome (with_newline (D.output value.now)) (λ text. length text ≤ N) }
    ensures { IfOk result (λ line. IfSome (with_newline (D.output value.now)) (λ text. inline_text line ≡ text)) }
{
    match kept::<N, D>(value) {
        Ok(line) => Ok(line),
        Err(_) => Err(io::Error::other("a line is not whole")),
    }
}

// Writes the text of `value` and a line feed, at once where it has at most N bytes.
pub fn print_line<const N: usize, W: Write, D: Display>(writer: &mut W, value: &D) -> io::Result<()>
    requires { N ≤ 4096 }
    ensures { OnOk result (IfSome (with_newline (D.output value.now)) (Appends (W.contents writer.old) (W.contents writer.new))) }
{
    match kept::<N, D>(value) {
        Ok(line) => writer.write_all(line.as_str().as_bytes()),
        Err(_) => writeln!(writer, "{value}"),
    }
}
