// A lent token list: the first record that is no good token (refusal 2).
ghost use Rattle.std.specs.Prelude.{◌≡◌, ℕ, ◌+◌, ◌*◌, ◌≤◌, ◌<◌, length, unwrap_or, IfSome};
ghost use Rattle.tokens.specs.Token.{token_count};
ghost use Rattle.tokens.specs.Lent.{ascii, reach, good_value, good_words, good_token, first_bad};

use crate::names::spelling;
use crate::{Token, all_pass};
use words::word;

// Whether all bytes are below 128: whether the highest is.
// Kept: a loop of its own beside `all_pass`: with that, a list of few tokens over a long text took a third more time.
#[tactic(auto, using(crate::proofs::LentLaws::ascii_on, crate::proofs::LentLaws::ascii_end))]
pub fn is_ascii(s: &[u8]) -> bool
    ensures { result ≡ ascii s.now }
{
    let mut highest = 0;
    for c in s {
        highest = highest.max(*c);
    }
    highest < 128
}

// A token list, its text and the position of the end; and whether all of the text is below 128.
#[derive(Clone, Copy)]
struct Lent<'a> {
    tokens: &'a [u8],
    text: &'a [u8],
    end: u32,
    plain: bool,
    ghost is_plain: { plain ≡ ascii text.now },
}

impl Lent<'_> {
    // How far a token's range may reach: a symbol's to the end of the text, the others have none.
    #[tactic(auto, unfolding(crate::specs::Lent::reach))]
    fn reach(&self, kind: u8) -> u64
        ensures { result ≡ reach self.now.text.now kind }
    {
        if kind == Token::SYMBOL {
            self.text.len() as u64
        } else {
            0
        }
    }

    // A symbol's bytes are looked at only where the whole text is not below 128.
    fn is_good_value(&self, kind: u8, b: u64, c: u64) -> bool
        ensures { result ≡ good_value self.now.text.now kind b c }
    {
        if kind == Token::INT {
            return true;
        }
        if c != 0 {
            return false;
        }
        if self.reach(kind) < b / 4294967296 + b % 4294967296 {
            return false;
        }
        if self.plain {
            return true;
        }
        is_ascii(spelling(self.text, b))
    }

    #[tactic(auto, unfolding(crate::specs::Lent::good_words))]
    fn is_good_words(&self, a: u64, b: u64, c: u64) -> bool
        ensures { result ≡ good_words self.now.text.now self.now.end a b c }
    {
        let kind = (a / 1152921504606846976) as u8;
        if kind == Token::NONE {
            return false;
        }
        if Token::AT < kind {
            return false;
        }
        if a / 4294967296 % 268435456 != 0 {
            return false;
        }
        if u64::from(self.end) < a % 4294967296 {
            return false;
        }
        self.is_good_value(kind, b, c)
    }

    // Whether the token at an index is a good one.
    #[tactic(auto, unfolding(crate::specs::Lent::good_token))]
    fn is_good(&self, at: usize) -> bool
        requires { at < token_count self.now.tokens.now }
        ensures { result ≡ good_token self.now.tokens.now self.now.text.now self.now.end at }
    {
        let k = at * Token::WIDTH;
        let a = word(self.tokens, k);
        let b = word(self.tokens, k + 8);
        let c = word(self.tokens, k + 16);
        self.is_good_words(a, b, c)
    }
}

// The index of the first token that is not good, where there is one.
pub fn first_bad(tokens: &[u8], text: &[u8], end: u32) -> Option<usize>
    ensures inside { IfSome result (λ i. i < token_count tokens.now) }
    ensures first { unwrap_or result (token_count tokens.now) ≡ first_bad tokens.now text.now end }
{
    let count = tokens.len() / Token::WIDTH;
    let lent = Lent {
        tokens,
        text,
        end,
        plain: is_ascii(text),
    };
    for i in 0..count {
        if !lent.is_good(i) {
            return Some(i);
        }
    }
    None
}
