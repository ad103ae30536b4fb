// The tokens through a reader that borrows their bytes, as the Rust's parser holds its lexer. The functions over it are thin:
// below them `tokens::token_at` does the work, above them stand functions with plain parameters.
#![tactic(auto)]

ghost use Rattle.std.specs.Prelude.{◌≡◌, ℕ, ◌+◌, ◌<◌, ◌^◌};
ghost use Rattle.tokens.specs.Token.{token_at};

use tokens::{Token, token_at};

// The token bytes, and the index of the next token.
#[derive(Drop)]
pub struct Reader<'a> {
    pub tokens: &'a [u8],
    pub at: usize,
}

impl<'a> Reader<'a> {
    // The next token, or what stands past the last one.
    pub fn peek(self, end: u32) -> Token
        ensures { result ≡ token_at self.entry.tokens.now end self.entry.at }
    {
        token_at(self.tokens, end, self.at)
    }

    // The reader after the next token.
    pub fn advance(self) -> Reader<'a>
        requires { self.at < 2 ^ 63 }
        ensures { (result.tokens ≡ self.entry.tokens) × (result.at ≡ self.entry.at + 1) }
    {
        Reader {
            tokens: self.tokens,
            at: self.at + 1,
        }
    }
}

// The token at an index, or what stands past the last one.
pub fn peek(tokens: &[u8], end: u32, at: usize) -> Token
    ensures { result ≡ token_at tokens.now end at }
{
    Reader { tokens, at }.peek(end)
}

// The index after the token at an index.
pub fn after(tokens: &[u8], at: usize) -> usize
    requires { at < 2 ^ 63 }
    ensures { result ≡ at + 1 }
{
    Reader { tokens, at }.advance().at
}

// The token after the one at an index.
pub fn peek_second(tokens: &[u8], end: u32, at: usize) -> Token
    requires { at < 2 ^ 63 }
    ensures { result ≡ token_at tokens.now end (at + 1) }
{
    let next = after(tokens, at);
    peek(tokens, end, next)
}
