// Reads a token list from standard input and prints what the reader answers, in unsigned decimal.
// The input: token count, text length and end position, 32 bits each, the most significant byte first; tokens; text.
// What follows the text is ignored.
#![tactic(auto)]

use reading::read;
use records::{Ground, rec_at, slots};
use std::io::{self, ErrorKind, Read};
use tokens::Token;
use trees::Rec;
use words::word;

// The line `refusal place count`.
fn print_result(rt: &impl Print, refusal: u64, place: u64, count: u64) -> io::Result<()> {
    println!(rt; "{refusal} {place} {count}")
}

fn print_refusal(rt: &impl Print, ground: Ground) -> io::Result<()> {
    print_result(rt, ground as u64, 0, 0)
}

// Kind, flags, child count, position, both halves of word 1, word 2.
// Kept: an impl Display would be this same write! in a struct made for it alone, and this is its one use.
fn print_record(rt: &impl Print, r: Rec) -> io::Result<()> {
    let upper = r.word1 / 4294967296;
    let lower = r.word1 % 4294967296;
    println!(rt;
        "{} {} {} {} {upper} {lower} {}",
        r.kind, r.flags, r.count, r.pos, r.word2
    )
}

// The first n records, as far as they are there.
fn print_records(rt: &impl Print, list: &[u8], n: usize) -> io::Result<()> {
    for i in 0..n.min(slots(list)) {
        print_record(rt, rec_at(list, i))?;
    }
    Ok(())
}

fn print_answer(rt: &impl Print, answer: u64, out: &[u8]) -> io::Result<()> {
    let count = answer / 4294967296 % 16777216;
    print_result(rt, answer / 72057594037927936, answer % 4294967296, count)?;
    print_records(rt, out, count as usize)
}

// Room for three records per token, which is as many as an accepted list can take.
fn print_reading(rt: &impl Print, tokens: &[u8], text: &[u8], end: u32) -> io::Result<()> {
    let mut out = [0u8; 36864];
    let answer = read(tokens, text, end, &mut out);
    print_answer(rt, answer, &out)
}

// Whether the input went on for all of the buffer.
// Kept: the program replay has the same function; a library that the two would share for these few lines is no plainer.
fn filled(input: &mut impl Read, buf: &mut [u8]) -> io::Result<bool> {
    match input.read_exact(buf) {
        Ok(()) => Ok(true),
        Err(e) if e.kind() == ErrorKind::UnexpectedEof => Ok(false),
        Err(e) => Err(e),
    }
}

// What the input begins with: how many tokens, how many bytes of text, and the end position.
#[derive(Clone, Copy)]
struct Head {
    tokens: u64,
    chars: u64,
    end: u32,
}

impl Head {
    fn of(bytes: &[u8; 12]) -> Head {
        let sizes = word(bytes, 0);
        Head {
            tokens: sizes / 4294967296,
            chars: sizes % 4294967296,
            end: (word(bytes, 4) % 4294967296) as u32,
        }
    }
}

// The rest of the input: parts of buffers, of just the sizes that the input names, within the limits.
// Kept: the buffers are arrays on the stack, not Vecs of these sizes, since a Vec would be a new way to fail.
fn sheet(rt: &impl Print, input: &mut impl Read, head: Head) -> io::Result<()> {
    if 512 < head.tokens || 8192 < head.chars {
        return print_refusal(rt, Ground::TooMuch);
    }
    let mut token_space = [0u8; 12288];
    let mut text_space = [0u8; 8192];
    let tokens = &mut token_space[..head.tokens as usize * Token::WIDTH];
    let text = &mut text_space[..head.chars as usize];
    if !filled(input, tokens)? || !filled(input, text)? {
        return print_refusal(rt, Ground::PartOfARecord);
    }
    print_reading(rt, tokens, text, head.end)
}

fn main(rt: HostRuntime) -> io::Result<()> {
    let mut input = rt.reader();
    let mut head = [0u8; 12];
    if !filled(&mut input, &mut head)? {
        return print_refusal(&rt, Ground::PartOfARecord);
    }
    sheet(&rt, &mut input, Head::of(&head))
}
