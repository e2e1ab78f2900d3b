// Replies as text. A reply is a form and the numbers that fill it; its text is collected in a buffer,
// which is written to standard output whenever it is full.
#![tactic(auto)]

ghost use Rattle.std.specs.Prelude.{◌≡◌, ◌≤◌, IfErr, IfOk};

use program_io::{Console, decimal, hex};
use std::io;

// How a reply is written. The numbers that tests/README.md lists for a call fill it in their order.
#[derive(Clone, Copy)]
pub enum Form {
    Tokens,
    TokenLines,
    Decoded,
    Mended,
    Refused,
    Broken,
    Two,
    Three,
    Four,
    Hex,
    Stepped,
    SteppedLine,
    Ended,
    NoStep,
    Described,
    Marked,
    FirstBroken,
    Sound,
    Tallied,
    Parted,
    ByBytes,
    // why a line is no call
    TooLong,
    UnknownCall,
    WordCount,
    NotNumber,
    NotHex,
    NotFlag,
    TooMuch,
    // nothing is written: the input has ended
    Nothing,
}

// The time of what the closing word gives: no document has so many bytes. The times stand among numbers, in the errors' memory,
// and so this one is a number too.
pub const AT_END: usize = usize::MAX;

// A form and numbers, and not a variant with data for each: the texts take numbers one by one (must-fail edit ninth_number).
#[derive(Clone, Copy)]
pub struct Reply {
    pub form: Form,
    pub numbers: [usize; 8],
}

// What the calls were lent, with what they wrote there.
#[derive(Clone, Copy)]
struct Lent<'a> {
    bytes: &'a [u8],
    errors: &'a [[usize; 3]],
    tokens: &'a [[usize; 4]],
}

// Writes a reply. It promises that it returns, and fails only where a write did, after which some of the
// reply may be written; no contract can speak of what is.
pub fn print_answer<C: Console>(
    console: &C,
    answer: Reply,
    bytes: &[u8],
    errors: &[[usize; 3]],
    tokens: &[[usize; 4]],
) -> io::Result<()>
    ensures answer { IfOk result (λ nothing. nothing ≡ tt) }
    ensures error { IfErr result C.fails }
{
    let lent = Lent {
        bytes,
        errors,
        tokens,
    };
    let mut out = Out {
        console,
        space: [0; 16384],
        used: 0,
    };
    out.put_answer(answer, lent)?;
    out.flush()
}

// The text of a form: a `#` stands for the next number, a `$` for as many bytes in hex as that
// number says, a `%` for as many errors, a `~` for as many errors after their tokens' spans, a `&` for as
// many tokens, a `@` for as many tokens with their lines, and a `!` for as many tokens each with the time
// at which it was given. A `^` stands for the totals of figures and a `*` for the answers of four calls,
// both of which the errors hold. Any other byte is written as it is.
fn text_of(form: Form) -> &'static [u8] {
    match form {
        Form::Tokens => b"&\n",
        Form::TokenLines => b"@\n",
        Form::Decoded => b"$ | %\n",
        Form::Mended => b"$ | ~\n",
        Form::Refused => b"refused # #\n",
        // a refusal with a value and a length
        Form::Broken => b"refused # # #\n",
        Form::Two => b"# #\n",
        Form::Three => b"# # #\n",
        Form::Four => b"# # # #\n",
        Form::Hex => b"$\n",
        Form::Stepped => b"0 0 | # # # | # #\n",
        Form::SteppedLine => b"0 0 | # # # # | # # #\n",
        Form::Ended => b"0 0 | end | -\n",
        Form::NoStep => b"# # | - | -\n",
        Form::Described => b"# # # $ #\n",
        Form::Marked => b"# # | $\n",
        // a token with its line, and an error
        Form::FirstBroken => b"# # # # | # # #\n",
        Form::Sound => b"-\n",
        Form::Tallied => b"# # | ^\n",
        Form::Parted => b"*\n",
        Form::ByBytes => b"!\n",
        Form::TooLong => b"? too long\n",
        Form::UnknownCall => b"? unknown call\n",
        Form::WordCount => b"? wrong number of words\n",
        Form::NotNumber => b"? not a number\n",
        Form::NotHex => b"? not hex\n",
        Form::NotFlag => b"? not 0 or 1\n",
        Form::TooMuch => b"? more than can be lent\n",
        Form::Nothing => b"",
    }
}

fn number_at(numbers: [usize; 8], k: usize) -> usize {
    if k < 8 {
        return numbers[k];
    }
    0
}

fn takes_number(b: u8) -> bool {
    matches!(b, b'#' | b'$' | b'%' | b'~' | b'&' | b'@' | b'!')
}

// Text on its way to the console: it is collected in `space`, of which `used` bytes are used. By hand, and not by `Display`,
// whose error is not the console's: `print_answer` promises of an error that the console may fail with it.
#[derive(Drop)]
struct Out<'a, C> {
    console: &'a C,
    space: [u8; 16384],
    used: usize,
}

impl<C: Console> Out<'_, C> {
    // A form's text, filled with the numbers.
    fn put_answer(&mut self, answer: Reply, lent: Lent) -> io::Result<()>
        ensures error { IfErr result C.fails }
    {
        let mut k = 0;
        for b in text_of(answer.form) {
            self.put_field(*b, number_at(answer.numbers, k), lent)?;
            if k < 8 && takes_number(*b) {
                k += 1;
            }
        }
        Ok(())
    }

    fn put_field(&mut self, b: u8, number: usize, lent: Lent) -> io::Result<()>
        ensures error { IfErr result C.fails }
    {
        match b {
            b'#' => self.put_number(number),
            b'$' => self.put_hex(lent.bytes, number),
            b'%' => self.put_errors(lent.errors, number),
            b'~' => self.put_listed(lent.tokens, lent.errors, number),
            b'&' => self.put_tokens(lent.tokens, number, 3),
            b'@' => self.put_tokens(lent.tokens, number, 4),
            b'^' => self.put_totals(lent.errors),
            b'*' => self.put_calls(lent.errors, lent.tokens),
            b'!' => self.put_given(lent.errors, lent.tokens, number),
            _ => self.put(&[b]),
        }
    }

    // The first `count` bytes in lower-case hex, or `-` for none.
    fn put_hex(&mut self, bytes: &[u8], count: usize) -> io::Result<()>
        ensures error { IfErr result C.fails }
    {
        if count == 0 {
            return self.put(b"-");
        }
        for b in bytes.iter().take(count) {
            let mut digits = [0u8; 16];
            let n = hex(*b as u64, 2, &mut digits);
            self.put(&digits[..n])?;
        }
        Ok(())
    }

    // The first `count` errors, joined by `; `, or `-` for none.
    fn put_errors(&mut self, errors: &[[usize; 3]], count: usize) -> io::Result<()>
        ensures error { IfErr result C.fails }
    {
        if count == 0 {
            return self.put(b"-");
        }
        for (i, error) in errors.iter().take(count).enumerate() {
            self.put_joint(i, b"; ")?;
            self.put_numbers(error)?;
        }
        Ok(())
    }

    // The first `count` errors, each after the start and the end of its token, joined by `; `, or `-` for none.
    fn put_listed(
        &mut self,
        tokens: &[[usize; 4]],
        errors: &[[usize; 3]],
        count: usize,
    ) -> io::Result<()>
        ensures error { IfErr result C.fails }
    {
        if count == 0 {
            return self.put(b"-");
        }
        for (i, (token, error)) in tokens.iter().zip(errors).take(count).enumerate() {
            self.put_joint(i, b"; ")?;
            self.put_numbers(&token[1..3])?;
            self.put(b" ")?;
            self.put_numbers(error)?;
        }
        Ok(())
    }

    // The first `count` tokens, joined by `; `, or `-` for none; the first `width` numbers of each, of which the fourth is its
    // line.
    fn put_tokens(&mut self, tokens: &[[usize; 4]], count: usize, width: usize) -> io::Result<()>
        requires { width ≤ 4 }
        ensures error { IfErr result C.fails }
    {
        if count == 0 {
            return self.put(b"-");
        }
        for (i, token) in tokens.iter().take(count).enumerate() {
            self.put_joint(i, b"; ")?;
            self.put_numbers(&token[..width])?;
        }
        Ok(())
    }

    // The numbers of the first eleven records: 16, 15 and 2, with a bar between.
    fn put_totals(&mut self, records: &[[usize; 3]]) -> io::Result<()>
        ensures error { IfErr result C.fails }
    {
        let Some(totals) = records.as_flattened().get(..33) else {
            return Ok(());
        };
        self.put_numbers(&totals[..16])?;
        self.put(b" | ")?;
        self.put_numbers(&totals[16..31])?;
        self.put(b" | ")?;
        self.put_numbers(&totals[31..33])
    }

    // The answers of four calls: of each the errors hold the refusal's number, 0 where it answered, with the
    // count of its tokens, or else the refusal's value and length. The tokens of one follow those of another.
    fn put_calls(&mut self, calls: &[[usize; 3]], tokens: &[[usize; 4]]) -> io::Result<()>
        ensures error { IfErr result C.fails }
    {
        let mut rest = tokens;
        for (i, call) in calls.iter().take(4).enumerate() {
            self.put_joint(i, b" | ")?;
            let [refusal, value, length] = *call;
            if refusal == 0 {
                self.put_tokens(rest, value, 4)?;
                rest = rest.get(value..).unwrap_or(rest);
            } else {
                self.put_refusal(refusal, value, length)?;
            }
        }
        Ok(())
    }

    // With refusal 1 both of its numbers.
    fn put_refusal(&mut self, refusal: usize, value: usize, length: usize) -> io::Result<()>
        ensures error { IfErr result C.fails }
    {
        self.put(b"refused ")?;
        if refusal == 1 {
            return self.put_numbers(&[refusal, value, length]);
        }
        self.put_numbers(&[refusal, value])
    }

    // The first `count` tokens, joined by `; `, each with the time at which it was given. Of each the errors
    // hold 0 and that time. A refusal is the last: its value in place of the token; its number, its time and
    // its length in place of the error.
    fn put_given(
        &mut self,
        times: &[[usize; 3]],
        tokens: &[[usize; 4]],
        count: usize,
    ) -> io::Result<()>
        ensures error { IfErr result C.fails }
    {
        for (i, (given, token)) in times.iter().zip(tokens).take(count).enumerate() {
            self.put_joint(i, b"; ")?;
            let [refusal, time, length] = *given;
            if refusal == 0 {
                self.put_numbers(token)?;
            } else {
                self.put_refusal(refusal, token[0], length)?;
            }
            self.put_time(time)?;
        }
        Ok(())
    }

    // How many bytes had been handed in, or that it was at the end.
    fn put_time(&mut self, time: usize) -> io::Result<()>
        ensures error { IfErr result C.fails }
    {
        self.put(b" @")?;
        if time == AT_END {
            return self.put(b"end");
        }
        self.put_number(time)
    }

    // What joins the item of index `i` to the one before it.
    fn put_joint(&mut self, i: usize, joint: &[u8]) -> io::Result<()>
        ensures error { IfErr result C.fails }
    {
        if i == 0 { Ok(()) } else { self.put(joint) }
    }

    // Numbers with a space between.
    fn put_numbers(&mut self, numbers: &[usize]) -> io::Result<()>
        ensures error { IfErr result C.fails }
    {
        for (i, number) in numbers.iter().enumerate() {
            self.put_joint(i, b" ")?;
            self.put_number(*number)?;
        }
        Ok(())
    }

    fn put_number(&mut self, number: usize) -> io::Result<()>
        ensures error { IfErr result C.fails }
    {
        let mut digits = [0u8; 20];
        let n = decimal(number as u64, &mut digits);
        self.put(&digits[..n])
    }

    // Where there is no room for all of the text, what was collected is written first, and the text after it if it is longer
    // than the buffer.
    fn put(&mut self, text: &[u8]) -> io::Result<()>
        ensures error { IfErr result C.fails }
    {
        if self.take(text) {
            return Ok(());
        }
        self.flush()?;
        if self.take(text) {
            return Ok(());
        }
        self.console.write_bytes(text)
    }

    // Collects a text, if there is room for it.
    fn take(&mut self, text: &[u8]) -> bool {
        let used = self.used;
        if used <= self.space.len() && text.len() <= self.space.len() - used {
            self.space[used..used + text.len()].copy_from_slice(text);
            self.used = used + text.len();
            return true;
        }
        false
    }

    // Writes what was collected.
    fn flush(&mut self) -> io::Result<()>
        ensures error { IfErr result C.fails }
    {
        let used = self.used;
        self.used = 0;
        match self.space.get(..used) {
            Some(collected) => self.console.write_bytes(collected),
            None => Ok(()),
        }
    }
}
