// Names: identifiers, constants without their `$`, and names that are refused for a reason of their own.
ghost use Rattle.std.specs.Prelude.{◌≡◌, ℕ, ◌+◌, ◌≤◌, ◌<◌, length, IfOk};
ghost use Rattle.trees.specs.Names.{spelled, Nonempty, without_first};
ghost use Rattle.records.specs.Grounds.{number, code};
ghost use Rattle.tokens.specs.Ident.{ident_refusal};
ghost use Rattle.steps.specs.Outcome.{name_by, refused_as, pragma_refusal, const_refusal, ident_at, parse_ident, parse_const};
ghost use Rattle.steps.specs.Met.{state, Near, SymbolAt, Named};
ghost use Rattle.steps.specs.Read.{read_by, Read, ReadAs, Begins, Went};

use crate::{Parser, Refusal, State, Stop, unexpected};
use reader::after;
use records::Ground;
use tally::emit_at;
use tokens::Token;
use tokens::names::{check_ident, spelling};
use trees::{Head, Kind};

// Whether s is an identifier that starts with `$` and goes on, and otherwise why not.
fn check_const(s: &[u8]) -> Result<(), Ground>
    ensures { code result ≡ const_refusal s.now }
{
    check_ident(s)?;
    if s[0] != b'$' {
        return Err(Ground::NotAConstant);
    }
    if s.len() == 1 {
        return Err(Ground::NotAConstant);
    }
    Ok(())
}

// strip_prefix of the Rust, once the name is judged: the `$` of a symbol of this range is cut off, and what is left starts one later and is one shorter.
// Other than there, a `$` alone is refused, so what is left is not empty.
fn cut_dollar(text: &[u8], range: u64) -> Result<u64, Ground>
    requires { length text.now ≤ 65536 }
    ensures { Named (const_refusal (spelled text.now range)) (without_first range) result }
{
    check_const(spelling(text, range))?;
    Ok(range + 4294967295)
}

// The name of a symbol of this range, which is an identifier.
fn ident_name(text: &[u8], range: u64) -> Result<u64, Ground>
    ensures { Named (ident_refusal (spelled text.now range)) range result }
{
    check_ident(spelling(text, range))?;
    Ok(range)
}

// The same, where one that is none is refused for this reason.
fn name_or(text: &[u8], range: u64, why: Ground) -> Result<u64, Ground>
    ensures { Named (refused_as (number why) (spelled text.now range)) range result }
{
    ident_name(text, range).map_err(|_| why)
}

// Why a pragma's name is refused: none is known.
fn pragma_ground(s: &[u8]) -> Ground
    ensures { number result ≡ pragma_refusal s.now }
{
    check_ident(s).err().unwrap_or(Ground::UnknownPragma)
}

impl Parser<'_> {
    // The next token, a symbol.
    fn symbol(&self) -> Result<Token, Stop>
        ensures { SymbolAt (read_by self.now) self.now.state result }
    {
        let t = self.next_token();
        if t.is_symbol() {
            return Ok(t);
        }
        Err(unexpected(t, self.state.next))
    }

    // The Ident of the next token t, whose name has this range; or why it is refused. Every Ident of what is read is written here, and its name
    // is not empty.
    fn put_ident(&mut self, t: Token, name: Result<u64, Ground>) -> Result<(), Stop>
        requires near { Near self.old.state }
        requires nonempty { IfOk name Nonempty }
        ensures reads { (c w : ℕ) → Named c w name → Read (λ s. ident_at t.pos w c) self.old self.new result }
        ensures one { IfOk result (λ _. self.new.state ≡ state (self.old.state.next + 1) (self.old.state.count + 1) (self.old.state.items + 1)) }
    {
        let next = after(self.source.tokens, self.state.next);
        match name {
            Ok(range) => {
                let h = Head {
                    word1: range,
                    ..Head::plain(Kind::Ident, 0, t.pos)
                };
                let count = emit_at(self.out, self.state.count, h.over(0));
                self.state = State {
                    next,
                    count,
                    items: self.state.items + 1,
                };
                Ok(())
            }
            Err(why) => Err(Stop {
                why,
                place: t.pos,
                taken: next,
            }),
        }
    }

    // That of a symbol t.
    pub fn put_name(&mut self, t: Token) -> Result<(), Stop>
        requires { Near self.old.state }
        ensures reads { Read (λ s. ident_at t.pos t.word1 (ident_refusal (spelled s.text t.word1))) self.old self.new result }
        ensures one { IfOk result (λ _. self.new.state ≡ state (self.old.state.next + 1) (self.old.state.count + 1) (self.old.state.items + 1)) }
    {
        let name = ident_name(self.source.text, t.word1);
        self.put_ident(t, name)
    }

    // That of a constant t, without its `$`.
    pub fn put_const(&mut self, t: Token) -> Result<(), Stop>
        requires near { Near self.old.state }
        requires short { length self.old.source.text.now ≤ 65536 }
        ensures reads { Read (λ s. ident_at t.pos (without_first t.word1) (const_refusal (spelled s.text t.word1))) self.old self.new result }
        ensures one { IfOk result (λ _. self.new.state ≡ state (self.old.state.next + 1) (self.old.state.count + 1) (self.old.state.items + 1)) }
    {
        let name = cut_dollar(self.source.text, t.word1);
        self.put_ident(t, name)
    }

    pub fn parse_ident(&mut self) -> Result<(), Stop>
        requires { Begins 8 self.old }
        ensures reads { Read parse_ident self.old self.new result }
        ensures within { IfOk result (λ _. Went 1 2 0 self.old self.new) }
    {
        let t = self.symbol()?;
        self.put_name(t)
    }

    // The name of a constant, without its `$`.
    pub fn parse_const(&mut self) -> Result<(), Stop>
        requires { Begins 8 self.old }
        ensures reads { Read parse_const self.old self.new result }
        ensures within { IfOk result (λ _. Went 1 2 0 self.old self.new) }
    {
        let t = self.symbol()?;
        self.put_const(t)
    }

    // An identifier, refused with `code`, which is not 0, where it is none.
    // Kept: of any number; its contract has landed and may not ask more. parse_name_on is for a ground.
    pub fn parse_name_or(&mut self, code: u8) -> Result<(), Refusal>
        requires ready { Begins 8 self.old }
        requires code_nonzero { 0 < code }
        ensures reads { ReadAs (λ s. name_by s (refused_as code) (λ w. w)) self.old self.new result }
        ensures within { IfOk result (λ _. Went 1 2 0 self.old self.new) }
    {
        let t = self.symbol()?;
        match self.put_name(t) {
            Ok(()) => Ok(()),
            Err(d) => Err(Refusal {
                code,
                place: d.place,
                taken: d.taken,
            }),
        }
    }

    // The same for one of the grounds.
    pub fn parse_name_on(&mut self, why: Ground) -> Result<(), Stop>
        requires { Begins 8 self.old }
        ensures reads { Read (λ s. name_by s (refused_as (number why)) (λ w. w)) self.old self.new result }
        ensures within { IfOk result (λ _. Went 1 2 0 self.old self.new) }
    {
        let t = self.symbol()?;
        let name = name_or(self.source.text, t.word1, why);
        self.put_ident(t, name)
    }

    // A name after which reading is refused with 17, or with what the name is refused for.
    pub fn parse_pragma_name(&mut self) -> Result<(), Stop>
        requires { self.old.state.next < 4294967296 }
        ensures reads { Read (λ s. name_by s pragma_refusal (λ w. w)) self.old self.new result }
        ensures within { IfOk result (λ _. Went 1 2 0 self.old self.new) }
    {
        let t = self.symbol()?;
        Err(Stop {
            why: pragma_ground(spelling(self.source.text, t.word1)),
            place: t.pos,
            taken: after(self.source.tokens, self.state.next),
        })
    }
}
