// Parts that are read where others stand around them: in parentheses after a word, or one after another in a row.
ghost use Rattle.std.specs.Prelude.{◌≡◌, ℕ, Bool, ◌+◌, ◌≤◌, ◌<◌, IfOk};
ghost use Rattle.tokens.specs.Token.{is_rparen};
ghost use Rattle.tokens.specs.Input.{Input, peek, size};
ghost use Rattle.steps.specs.Outcome.{◌⊳◌, Reader, many_at, row, expect-lparen, expect-rparen, expect-word, parse_ident};
ghost use Rattle.steps.specs.Read.{read_by, Read, ReadAt, Begins, Went};

use crate::{Parser, Stop};
use tokens::Token;

// What stands in parentheses after a word: how it is read.
pub trait Part {
    ghost reader: { Input → Reader };

    fn parse(p: &mut Parser) -> Result<(), Stop>
        requires { Begins 1 p.old }
        ensures reads { Read reader p.old p.new result }
        ensures within { IfOk result (λ _. Went 0 0 1 p.old p.new) };
}

// What stands in a row: how it is read, and that it takes a token at least; where the row ends.
pub trait Item {
    ghost reader: { Input → ℕ → Reader };

    ghost stop: { Input → ℕ → Bool };

    fn parse(p: &mut Parser) -> Result<(), Stop>
        requires { Begins 4 p.old }
        ensures reads { ReadAt reader p.old p.new result }
        ensures within { IfOk result (λ _. Went 1 0 0 p.old p.new) };

    fn ends(p: &Parser) -> bool
        requires { p.now.state.next < 4294967296 }
        ensures { result ≡ stop (read_by p.now) p.now.state.next };
}

// An identifier in a row that ends at a `)`.
pub struct Ident;

impl Item for Ident {
    ghost reader = { λ s _. parse_ident s };

    ghost stop = { λ s i. is_rparen (peek s i) };

    fn parse(p: &mut Parser) -> Result<(), Stop> {
        p.parse_ident()
    }

    fn ends(p: &Parser) -> bool {
        p.at_rparen()
    }
}

impl Parser<'_> {
    // `(w ..)`, where u is the second token, the word w.
    pub fn parse_worded<P: Part>(&mut self, w: &[u8], u: Token) -> Result<(), Stop>
        requires ready { Begins 5 self.old }
        requires second { u ≡ peek (read_by self.old) (self.old.state.next + 1) }
        ensures reads { Read (λ s. expect-lparen s ⊳ expect-word s w.now ⊳ P.reader s ⊳ expect-rparen s) self.old self.new result }
        ensures within { IfOk result (λ _. Went 1 1 0 self.old self.new) }
    {
        self.expect_lparen()?;
        self.expect_word_of(w, u)?;
        P::parse(self)?;
        self.expect_rparen()
    }

    // Whether a `)` stands next.
    pub fn at_rparen(&self) -> bool
        ensures { result ≡ is_rparen (peek (read_by self.now) self.now.state.next) }
    {
        self.next_kind() == Token::RPAREN
    }

    // The items of a row, as many as there are.
    // Kept: a `while` loop, since each item starts where the one before it ends, so that no iterator has the items.
    pub fn parse_row<I: Item>(&mut self) -> Result<(), Stop>
        requires { Begins 4 self.old }
        ensures reads { ReadAt (λ s. many_at (size s) (I.stop s) (I.reader s)) self.old self.new result }
        ensures within { IfOk result (λ _. Went 0 0 0 self.old self.new) }
    {
        while !I::ends(self) {
            I::parse(self)?;
        }
        Ok(())
    }

    // Identifiers up to a `)`, which is left.
    pub fn parse_idents(&mut self) -> Result<(), Stop>
        requires { Begins 4 self.old }
        ensures reads { Read (λ s. row s (parse_ident s)) self.old self.new result }
        ensures within { IfOk result (λ _. Went 0 0 0 self.old self.new) }
    {
        self.parse_row::<Ident>()
    }
}
