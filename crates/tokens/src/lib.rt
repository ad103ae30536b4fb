// Token records: one read by value, its tests, the judgement of a whole lent list; identifiers.
#![tactic(auto)]

pub mod lent;
pub mod names;

ghost use Rattle.std.specs.Prelude.{◌≡◌, ℕ, Bool, ◌+◌, ◌≤◌, ◌<◌, length};
ghost use Rattle.std.specs.List.{list_all};
ghost use Rattle.tokens.specs.Kind.{kind_number};
ghost use Rattle.tokens.specs.Token.{token_count, token_at, kind_at, is_lparen, is_rparen, is_symbol, is_int, is_at, is_refused, is_too_many, is_const, is_word};

use names::spelling;
use words::{same, word};

// The kinds of tokens. The last two are never lent: what stands behind the tokens of a text where the lexer refuses the next one, and where
// there is one too many. A lent record may have any number below 16 as its kind.
#[derive(Clone, Copy, Debug, PartialEq, Eq)]
pub enum TokenKind {
    Nothing = 0,
    LParen = 1,
    RParen = 2,
    Symbol = 3,
    Int = 4,
    At = 5,
    Refused = 6,
    TooMany = 7,
}

impl TokenKind {
    // Its number in a record.
    pub fn number(self) -> u8
        ensures { result ≡ kind_number self }
    {
        self as u8
    }
}

// A token by value, as the Rust's lookahead. Past the last token the kind is `Nothing` and the position that of the end.
#[derive(Clone, Copy)]
pub struct Token {
    pub kind: u8,
    pub pos: u32,
    pub word1: u64,
    pub word2: u64,
}

impl Token {
    // The bytes of a token record, and the numbers of the kinds.
    // Kept: document 01 names this form, and a lent record may have any number below 16 as its kind.
    pub const WIDTH: usize = 24;

    pub const NONE: u8 = TokenKind::Nothing as u8;

    pub const LPAREN: u8 = TokenKind::LParen as u8;

    pub const RPAREN: u8 = TokenKind::RParen as u8;

    pub const SYMBOL: u8 = TokenKind::Symbol as u8;

    pub const INT: u8 = TokenKind::Int as u8;

    pub const AT: u8 = TokenKind::At as u8;

    pub const REFUSED: u8 = TokenKind::Refused as u8;

    pub const TOO_MANY: u8 = TokenKind::TooMany as u8;

    #[tactic(auto, unfolding(crate::specs::Token::is_lparen))]
    pub fn is_lparen(self) -> bool
        ensures { result ≡ is_lparen self }
    {
        self.kind == Token::LPAREN
    }

    #[tactic(auto, unfolding(crate::specs::Token::is_rparen))]
    pub fn is_rparen(self) -> bool
        ensures { result ≡ is_rparen self }
    {
        self.kind == Token::RPAREN
    }

    #[tactic(auto, unfolding(crate::specs::Token::is_symbol))]
    pub fn is_symbol(self) -> bool
        ensures { result ≡ is_symbol self }
    {
        self.kind == Token::SYMBOL
    }

    #[tactic(auto, unfolding(crate::specs::Token::is_int))]
    pub fn is_int(self) -> bool
        ensures { result ≡ is_int self }
    {
        self.kind == Token::INT
    }

    #[tactic(auto, unfolding(crate::specs::Token::is_at))]
    pub fn is_at(self) -> bool
        ensures { result ≡ is_at self }
    {
        self.kind == Token::AT
    }

    #[tactic(auto, unfolding(crate::specs::Token::is_refused))]
    pub fn is_refused(self) -> bool
        ensures { result ≡ is_refused self }
    {
        self.kind == Token::REFUSED
    }

    #[tactic(auto, unfolding(crate::specs::Token::is_too_many))]
    pub fn is_too_many(self) -> bool
        ensures { result ≡ is_too_many self }
    {
        self.kind == Token::TOO_MANY
    }

    // Whether the token is a symbol that starts with `$`.
    #[tactic(auto, unfolding(crate::specs::Token::is_const))]
    pub fn is_const(self, text: &[u8]) -> bool
        ensures { result ≡ is_const text.now self }
    {
        if self.kind == Token::SYMBOL {
            matches!(spelling(text, self.word1), [b'$', ..])
        } else {
            false
        }
    }

    // Whether the token is the symbol w.
    #[tactic(auto, unfolding(crate::specs::Token::is_word))]
    pub fn is_word(self, text: &[u8], w: &[u8]) -> bool
        ensures { result ≡ is_word text.now w.now self }
    {
        if self.kind == Token::SYMBOL {
            same(spelling(text, self.word1), w)
        } else {
            false
        }
    }
}

// Whether all bytes pass a test. It goes on to the end in any case, so that the compiler takes many bytes at once.
// Kept: a `for` loop: with a `fold`, which is proved too, reading a text took a tenth more time.
fn all_pass<F: Fn(u8) -> bool>(s: &[u8], test: F) -> bool
    ghost passes: { ℕ → Bool }
    requires callable { F.IsAlwaysCallable test }
    requires tells { (c : ℕ) (r : Bool) → F.post test c r → r ≡ passes c }
    ensures { result ≡ list_all passes s.now }
{
    let mut all = true;
    for c in s {
        all = all & test(*c);
    }
    all
}

// The token at an index, or what stands past the last one.
#[tactic(auto, unfolding(crate::specs::Token::token_at))]
pub fn token_at(tokens: &[u8], end: u32, at: usize) -> Token
    ensures { result ≡ token_at tokens.now end at }
{
    if at < tokens.len() / Token::WIDTH {
        let k = at * Token::WIDTH;
        let first = word(tokens, k);
        Token {
            kind: (first / 1152921504606846976) as u8,
            pos: (first % 4294967296) as u32,
            word1: word(tokens, k + 8),
            word2: word(tokens, k + 16),
        }
    } else {
        Token {
            kind: Token::NONE,
            pos: end,
            word1: 0,
            word2: 0,
        }
    }
}

// Its kind alone, for a test of what stands next; compiled, it reads one byte.
#[tactic(auto, unfolding(crate::specs::Token::kind_at))]
pub fn kind_at(tokens: &[u8], at: usize) -> u8
    ensures { result ≡ kind_at tokens.now at }
{
    if at < tokens.len() / Token::WIDTH {
        (word(tokens, at * Token::WIDTH) / 1152921504606846976) as u8
    } else {
        Token::NONE
    }
}

// Its position alone.
#[tactic(auto, unfolding(crate::specs::Token::token_at))]
pub fn pos_at(tokens: &[u8], end: u32, at: usize) -> u32
    ensures { result ≡ (token_at tokens.now end at).pos }
{
    if at < tokens.len() / Token::WIDTH {
        (word(tokens, at * Token::WIDTH) % 4294967296) as u32
    } else {
        end
    }
}
