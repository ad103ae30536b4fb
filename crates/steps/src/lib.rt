// The parser, and the steps that every parse function is made of: a token expected, a name read, a node begun and closed.
// Tokens are read and passed through `reader`, records are written through `tally`.
#![tactic(auto)]

pub mod names;
pub mod nodes;
pub mod parts;

ghost use Rattle.std.specs.Prelude.{◌≡◌, ℕ, ◌+◌, ◌-◌, ◌≤◌, ◌<◌, not, IfOk};
ghost use Rattle.tokens.specs.Token.{token_at, kind_at, is_kind, is_lparen, is_rparen, is_at, is_word};
ghost use Rattle.tokens.specs.Input.{peek, pos_at, size};
ghost use Rattle.tokens.specs.Kind.{kind_number};
ghost use Rattle.records.specs.Grounds.{number};
ghost use Rattle.steps.specs.Outcome.{refusal, unexpected, expect_at, expect-lparen, expect-rparen, expect-at, expect-word, refuse_at, refuse_after, ate, eat};
ghost use Rattle.steps.specs.Met.{seen, told, told_as, state, inside};
ghost use Rattle.steps.specs.Read.{read_by, Read, Passed, Begun, Same, Went};

use reader::{after, peek, peek_second};
use records::Ground;
use tokens::{Token, TokenKind, kind_at, pos_at};

// What is read: the tokens, the text that symbols lie in, and the end position.
#[derive(Clone, Copy)]
pub struct Source<'a> {
    pub tokens: &'a [u8],
    pub text: &'a [u8],
    pub end: u32,
}

// How far reading is: the index of the next token, the slot of the next record and how many trees were read in this row.
#[derive(Clone, Copy)]
pub struct State {
    pub next: usize,
    pub count: usize,
    pub items: usize,
}

impl State {
    // Before the first token, with nothing read.
    pub const START: State = State {
        next: 0,
        count: 0,
        items: 0,
    };
}

// Why reading stopped, where, and how many tokens were consumed.
#[derive(Clone, Copy)]
pub struct Stop {
    pub why: Ground,
    pub place: u32,
    pub taken: usize,
}

impl Stop {
    // A refusal before the first token is consumed.
    pub fn before_tokens(why: Ground, place: u32) -> Stop
        ensures { told result ≡ refusal (number why) place 0 }
    {
        Stop {
            why,
            place,
            taken: 0,
        }
    }
}

// The same in document 01's number, of any refusal.
#[derive(Clone, Copy)]
pub struct Refusal {
    pub code: u8,
    pub place: u32,
    pub taken: usize,
}

impl From<Stop> for Refusal {
    ghost from_gives = { λ d e. told_as e ≡ told d };

    fn from(d: Stop) -> Refusal {
        Refusal {
            code: d.why as u8,
            place: d.place,
            taken: d.taken,
        }
    }
}

// What is read, the output that the records go to, and how far reading is: Parser of the Rust.
// Kept: that the tokens are few and the text short is a premise (`Begins`) and no ghost field here: next_token, expect_lparen and others ask nothing
// of it, and a ghost field would ask it of all who make a parser. So are that a token is the next one, that a node is near and that records are few:
// they are of an argument, and of one moment.
#[derive(Drop)]
pub struct Parser<'a> {
    pub source: Source<'a>,
    pub out: &'a mut [u8],
    pub state: State,
}

// The refusal of the token t at an index where another is expected.
#[tactic(auto, unfolding(crate::specs::Outcome::unexpected))]
fn unexpected(t: Token, at: usize) -> Stop
    ensures { told result ≡ unexpected t at }
{
    let why = if t.kind == Token::NONE {
        Ground::UnexpectedEnd
    } else {
        Ground::UnexpectedToken
    };
    Stop {
        why,
        place: t.pos,
        taken: at,
    }
}

impl Parser<'_> {
    // The next token.
    pub fn next_token(&self) -> Token
        ensures { result ≡ peek (read_by self.now) self.now.state.next }
    {
        peek(self.source.tokens, self.source.end, self.state.next)
    }

    // The token after the next one.
    pub fn second_token(&self) -> Token
        requires { self.now.state.next < 4294967296 }
        ensures { result ≡ peek (read_by self.now) (self.now.state.next + 1) }
    {
        peek_second(self.source.tokens, self.source.end, self.state.next)
    }

    // The kind of the next token.
    pub fn next_kind(&self) -> u8
        ensures { result ≡ (peek (read_by self.now) self.now.state.next).kind }
    {
        kind_at(self.source.tokens, self.state.next)
    }

    // The kind of the token after the next one.
    pub fn second_kind(&self) -> u8
        requires { self.now.state.next < 4294967296 }
        ensures { result ≡ (peek (read_by self.now) (self.now.state.next + 1)).kind }
    {
        kind_at(
            self.source.tokens,
            after(self.source.tokens, self.state.next),
        )
    }

    // The position of the next token.
    pub fn next_pos(&self) -> u32
        ensures { result ≡ pos_at (read_by self.now) self.now.state.next }
    {
        pos_at(self.source.tokens, self.source.end, self.state.next)
    }

    // The position of the token at an index.
    pub fn pos_at(&self, at: usize) -> u32
        ensures { result ≡ pos_at (read_by self.now) at }
    {
        pos_at(self.source.tokens, self.source.end, at)
    }

    // Whether the word w stands next.
    pub fn stands(&self, w: &[u8]) -> bool
        ensures { result ≡ is_word self.now.source.text.now w.now (peek (read_by self.now) self.now.state.next) }
    {
        self.next_token().is_word(self.source.text, w)
    }

    // Whether the word w stands after the next token.
    pub fn stands_second(&self, w: &[u8]) -> bool
        requires { self.now.state.next < 4294967296 }
        ensures { result ≡ is_word self.now.source.text.now w.now (peek (read_by self.now) (self.now.state.next + 1)) }
    {
        self.second_token().is_word(self.source.text, w)
    }

    // The next token is passed.
    pub fn pass(&mut self)
        requires { self.old.state.next < size (read_by self.old) }
        ensures next { self.new.state ≡ state (self.old.state.next + 1) self.old.state.count self.old.state.items }
        ensures unwritten { self.new.out.now ≡ self.old.out.now }
        ensures same { Same self.old self.new }
    {
        self.state.next = after(self.source.tokens, self.state.next);
    }

    // A token of this kind, passed.
    fn expect_kind(&mut self, kind: TokenKind) -> Result<(), Stop>
        requires { 0 < kind_number kind }
        ensures reads { Read (λ s. expect_at s.tokens s.end (is_kind (kind_number kind))) self.old self.new result }
        ensures within { IfOk result (λ _. Went 1 3 0 self.old self.new) }
    {
        if self.next_kind() == kind.number() {
            self.pass();
            return Ok(());
        }
        let t = self.next_token();
        Err(unexpected(t, self.state.next))
    }

    pub fn expect_lparen(&mut self) -> Result<(), Stop>
        ensures reads { Read expect-lparen self.old self.new result }
        ensures within { IfOk result (λ _. Went 1 3 0 self.old self.new) }
    {
        self.expect_kind(TokenKind::LParen)
    }

    // The same by the next token t.
    // Kept: beside expect_lparen: the caller has read the token, and to read it once more takes time; expect_lparen reads its kind alone.
    pub fn expect_lparen_of(&mut self, t: Token) -> Result<(), Stop>
        requires { t ≡ peek (read_by self.old) self.old.state.next }
        ensures reads { Read expect-lparen self.old self.new result }
        ensures within { IfOk result (λ _. Went 1 3 0 self.old self.new) }
    {
        if t.is_lparen() {
            self.pass();
            return Ok(());
        }
        Err(unexpected(t, self.state.next))
    }

    pub fn expect_rparen(&mut self) -> Result<(), Stop>
        ensures reads { Read expect-rparen self.old self.new result }
        ensures within { IfOk result (λ _. Went 1 3 0 self.old self.new) }
    {
        self.expect_kind(TokenKind::RParen)
    }

    pub fn expect_at(&mut self) -> Result<(), Stop>
        ensures reads { Read expect-at self.old self.new result }
        ensures within { IfOk result (λ _. Went 1 3 0 self.old self.new) }
    {
        self.expect_kind(TokenKind::At)
    }

    // eat_sym_str of the Rust, where the symbol w is known to stand.
    pub fn expect_word(&mut self, w: &[u8]) -> Result<(), Stop>
        ensures reads { Read (λ s. expect-word s w.now) self.old self.new result }
        ensures within { IfOk result (λ _. Went 1 3 0 self.old self.new) }
    {
        let t = self.next_token();
        self.expect_word_of(w, t)
    }

    // The same by the next token t, which its caller has read already.
    pub fn expect_word_of(&mut self, w: &[u8], t: Token) -> Result<(), Stop>
        requires { t ≡ peek (read_by self.old) self.old.state.next }
        ensures reads { Read (λ s. expect-word s w.now) self.old self.new result }
        ensures within { IfOk result (λ _. Went 1 3 0 self.old self.new) }
    {
        if t.is_word(self.source.text, w) {
            self.pass();
            return Ok(());
        }
        Err(unexpected(t, self.state.next))
    }

    // eat_sym_str of the Rust: whether the word w stands next; it is passed then.
    pub fn eat(&mut self, w: &[u8]) -> bool
        requires { self.old.state.next < 4294967296 }
        ensures stands { result ≡ is_word self.old.source.text.now w.now (peek (read_by self.old) self.old.state.next) }
        ensures reads { Passed (λ s. eat s w.now) self.old self.new }
        ensures within { Went 0 0 0 self.old self.new }
    {
        if !self.stands(w) {
            return false;
        }
        self.pass();
        true
    }

    // A node is begun: its own record's slot is left free. The state that it begins at.
    pub fn begin(&mut self) -> State
        requires { self.old.state.count < 4294967296 }
        ensures start { result ≡ self.old.state }
        ensures begun { Begun self.old self.new }
    {
        let node = self.state;
        self.state.count += 1;
        self.state.items = 0;
        node
    }

    // A refusal at the next token.
    pub fn refuse_at(&self, why: Ground) -> Result<(), Stop>
        ensures { Read (λ s. refuse_at s (number why)) self.now self.now result }
    {
        Err(Stop {
            why,
            place: self.next_pos(),
            taken: self.state.next,
        })
    }

    // A refusal at a token that is consumed, where it is of this kind.
    pub fn refuse_after(&self, kind: TokenKind, why: Ground) -> Result<(), Stop>
        requires { self.now.state.next < 4294967296 }
        ensures { Read (λ s. refuse_after s (kind_number kind) (number why)) self.now self.now result }
    {
        let t = self.next_token();
        if t.kind == kind.number() {
            return Err(Stop {
                why,
                place: t.pos,
                taken: after(self.source.tokens, self.state.next),
            });
        }
        Err(unexpected(t, self.state.next))
    }
}
