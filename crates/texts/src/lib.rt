// Reading a text: the lexer's tokens are read as lent ones are, and what stops the lexer is given its number.
#![tactic(auto)]

ghost use Rattle.std.specs.Prelude.{◌≡◌, ◌*◌, ◌/◌, ◌≤◌, ◌<◌, length};
ghost use Rattle.records.specs.Slots.{slots};
ghost use Rattle.tokens.specs.Input.{peek, size};
ghost use Rattle.steps.specs.Met.{seen, told, Met};
ghost use Rattle.parser.specs.Defs.{parse_defs};
ghost use Rattle.lexer.specs.Text.{lexed};
ghost use Rattle.reading.specs.Answered.{Answered, Countable};
ghost use Rattle.texts.specs.Checked.{parse_checked, Checked};
ghost use Rattle.texts.specs.TextReading.{first_high, foremost, looked_ahead, parse_text, text_reading};

use lexer::gaps::run_end;
use reading::finish_on;
use records::Ground;
use steps::{Source, State, Stop};
use tokens::lent::is_ascii;
use tokens::{Token, token_at};

// Where the first byte above 127 stands, or the text's length.
#[tactic(auto, unfolding(crate::specs::TextReading::is_ascii))]
fn first_high(text: &[u8]) -> usize
    ensures where_it_stands { result ≡ first_high text.now }
    ensures in_the_text { result ≤ length text.now }
{
    run_end(text, 0, |c| c < 128)
}

// The refusal that is met first: d, or what stops the lexer at the next token.
fn foremost(s: &Source, d: Stop) -> Stop
    ensures { told result ≡ foremost (peek (seen s.now) d.taken) (told d) }
{
    let t = token_at(s.tokens, s.end, d.taken);
    if t.is_too_many() {
        return Stop {
            why: Ground::TooMuch,
            place: 0,
            taken: d.taken,
        };
    }
    if !t.is_refused() {
        return d;
    }
    match d.why {
        Ground::RuleName => d,
        _ => Stop {
            why: Ground::NotAToken,
            place: t.pos,
            taken: d.taken,
        },
    }
}

// The definitions that the lexer's tokens are, or the refusal that is met first.
fn parse_lexed(s: &Source, out: &mut [u8]) -> Result<State, Stop>
    requires few { size (seen s.now) ≤ 16385 }
    requires short { length s.now.text.now ≤ 65536 }
    ensures reads { Met (looked_ahead (seen s.now) (parse_defs (seen s.now) 0)) 0 0 out.old out.new result }
    ensures countable { Countable result }
{
    // Kept: a `match`, since after `map_err` nothing is known of the Stop that the closure made, with a clause at the closure or without.
    match parser::parse(s, out) {
        Ok(q) => Ok(q),
        Err(d) => Err(foremost(s, d)),
    }
}

// Those of a text within the limit, with a table that has space for its tokens and for what stops the lexer.
fn parse_within(text: &lexer::Source, table: &mut [u8], out: &mut [u8]) -> Result<State, Stop>
    requires { length (lexed text.now.bytes.now) ≤ slots table.old }
    ensures reads { Met (parse_text text.now.bytes.now) 0 0 out.old out.new result }
    ensures countable { Countable result }
{
    let n = text.lex(table);
    let s = Source {
        tokens: &table[..n * Token::WIDTH],
        text: text.bytes,
        end: text.bytes.len() as u32,
    };
    parse_lexed(&s, out)
}

// The same with a table of N bytes.
fn parse_with<const N: usize>(text: &lexer::Source, out: &mut [u8]) -> Result<State, Stop>
    requires room { length (lexed text.now.bytes.now) ≤ N / 24 }
    requires small { N < 9223372036854775808 }
    ensures reads { Met (parse_text text.now.bytes.now) 0 0 out.old out.new result }
    ensures countable { Countable result }
{
    let mut table = [0u8; N];
    parse_within(text, &mut table, out)
}

// The table by the text's length. The tables are for texts of up to 256, 1,024 and 4,096 bytes, which have no more tokens than bytes, and
// for 16,385 tokens: a table is zero at first, and a short text does not wait for a long one's.
fn parse_plain(text: &lexer::Source, out: &mut [u8]) -> Result<State, Stop>
    ensures reads { Met (parse_text text.now.bytes.now) 0 0 out.old out.new result }
    ensures countable { Countable result }
{
    if text.bytes.len() <= 256 {
        return parse_with::<6144>(text, out);
    }
    if text.bytes.len() <= 1024 {
        return parse_with::<24576>(text, out);
    }
    if text.bytes.len() <= 4096 {
        return parse_with::<98304>(text, out);
    }
    parse_with::<393240>(text, out)
}

// Whether a text is short and below 128; else the refusal: 7 or 41.
fn check(text: &[u8]) -> Result<(), Stop>
    ensures { Checked text.now result }
{
    if 65536 < text.len() {
        return Err(Stop::before_tokens(Ground::TooMuch, 0));
    }
    if !is_ascii(text) {
        let place = first_high(text) as u32;
        return Err(Stop::before_tokens(Ground::NotAscii, place));
    }
    Ok(())
}

// The definitions of a text, once it is checked.
fn parse(text: &[u8], out: &mut [u8]) -> Result<State, Stop>
    ensures reads { Met (parse_checked text.now) 0 0 out.old out.new result }
    ensures countable { Countable result }
{
    check(text)?;
    parse_plain(&lexer::Source { bytes: text }, out)
}

// Any text, any output.
pub fn read_text(text: &[u8], out: &mut [u8]) -> u64
    ensures { Answered (text_reading text.now (slots out.old)) (length out.old) out.new result }
{
    let p = parse(text, out);
    finish_on(out, p)
}
