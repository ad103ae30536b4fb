// The if-lets of a rule, and the expression that ends it.
ghost use Rattle.std.specs.Prelude.{◌≡◌, ℕ, ◌+◌, ◌≤◌, ◌<◌, IfOk};
ghost use Rattle.tokens.specs.Input.{size};
ghost use Rattle.steps.specs.Outcome.{many};
ghost use Rattle.steps.specs.Read.{read_by, Read, Begins, Went};
ghost use Rattle.exprs.specs.Expr.{parse_iflet, parse_iflet_if, parse_iflet_or_expr, no_iflet};

use crate::parse_expr;
use patterns::parse_pattern;
use steps::parts::{Item, Part};
use steps::{Parser, Stop};
use trees::Kind;

// After `if-let`: a pattern and an expression.
pub struct IfLet;

impl Part for IfLet {
    ghost reader = { parse_iflet };

    fn parse(p: &mut Parser) -> Result<(), Stop> {
        let node = p.begin();
        parse_pattern(p, 64)?;
        parse_expr(p, 64)?;
        p.close_at(node, Kind::IfLet as u8, 0);
        Ok(())
    }
}

// After `if`: an expression, with a wildcard for the pattern.
pub struct If;

impl Part for If {
    ghost reader = { parse_iflet_if };

    fn parse(p: &mut Parser) -> Result<(), Stop> {
        let node = p.begin();
        let wildcard = p.begin();
        p.close_at(wildcard, Kind::PatternWildcard as u8, 0);
        parse_expr(p, 64)?;
        p.close_at(node, Kind::IfLet as u8, 0);
        Ok(())
    }
}

// An if-let, or the expression that ends a rule.
pub fn parse_iflet_or_expr(p: &mut Parser) -> Result<(), Stop>
    requires { Begins 4 p.old }
    ensures reads { Read parse_iflet_or_expr p.old p.new result }
    ensures within { IfOk result (λ _. Went 1 1 0 p.old p.new) }
{
    if p.next_token().is_lparen() {
        let u = p.second_token();
        if u.is_word(p.source.text, b"if-let") {
            return p.parse_worded::<IfLet>(b"if-let", u);
        }
        if u.is_word(p.source.text, b"if") {
            return p.parse_worded::<If>(b"if", u);
        }
        return parse_expr(p, 64);
    }
    parse_expr(p, 64)
}

// Whether no more if-let stands next.
fn no_iflet(p: &Parser) -> bool
    requires { p.now.state.next < 4294967296 }
    ensures { result ≡ no_iflet (read_by p.now) p.now.state.next }
{
    if p.next_token().is_lparen() {
        let u = p.second_token();
        if u.is_word(p.source.text, b"if-let") {
            return false;
        }
        return !u.is_word(p.source.text, b"if");
    }
    true
}

// What stands in the row of if-lets before the expression that ends a rule.
pub struct IfLets;

impl Item for IfLets {
    ghost reader = { λ s _. parse_iflet_or_expr s };

    ghost stop = { no_iflet };

    fn parse(p: &mut Parser) -> Result<(), Stop> {
        parse_iflet_or_expr(p)
    }

    fn ends(p: &Parser) -> bool {
        no_iflet(p)
    }
}

// The if-lets before the expression that ends a rule.
pub fn parse_iflets(p: &mut Parser) -> Result<(), Stop>
    requires { Begins 4 p.old }
    ensures reads { Read (λ s. many (size s) (no_iflet s) (parse_iflet_or_expr s)) p.old p.new result }
    ensures within { IfOk result (λ _. Went 0 0 0 p.old p.new) }
{
    p.parse_row::<IfLets>()
}
