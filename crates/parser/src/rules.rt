// Rules: parse_rule.
ghost use Rattle.std.specs.Prelude.{◌≡◌, ℕ, ◌+◌, ◌≤◌, ◌<◌, IfOk};
ghost use Rattle.steps.specs.Outcome.{◌⊳◌};
ghost use Rattle.steps.specs.Read.{read_by, Read, Begins, Went};
ghost use Rattle.parser.specs.Defs.{rule_name, is_i64, rule_priority, rule_flags, rule_parts, parse_rule};

use exprs::iflets::{parse_iflet_or_expr, parse_iflets};
use patterns::parse_pattern;
use reader::after;
use records::Ground;
use steps::{Parser, Stop};
use tokens::TokenKind;
use trees::{Head, Kind};

// The first symbol after `rule` is its name, and a refusal of the token behind it is one of the name.
fn rule_name(p: &mut Parser) -> Result<(), Stop>
    requires { Begins 4 p.old }
    ensures reads { Read rule_name p.old p.new result }
    ensures within { IfOk result (λ _. Went 0 0 0 p.old p.new) }
{
    if p.next_token().is_symbol() {
        if p.second_token().is_refused() {
            return p.refuse_after(TokenKind::Symbol, Ground::RuleName);
        }
        return p.parse_name_on(Ground::RuleName);
    }
    Ok(())
}

fn is_i64(upper: u64, lower: u64) -> bool
    ensures { result ≡ is_i64 upper lower }
{
    if lower < 9223372036854775808 {
        return upper == 0;
    }
    upper == 18446744073709551615
}

// The next integer is the rule's priority; a refusal stands at `place`.
fn rule_priority(p: &mut Parser, place: u32) -> Result<(), Stop>
    requires { Begins 4 p.old }
    ensures reads { Read (λ s. rule_priority s place) p.old p.new result }
    ensures within { IfOk result (λ _. Went 0 0 0 p.old p.new) }
{
    let t = p.next_token();
    if !t.is_int() {
        return Ok(());
    }
    if !is_i64(t.word1, t.word2) {
        return Err(Stop {
            why: Ground::Priority,
            place,
            taken: after(p.source.tokens, p.state.next),
        });
    }
    p.put_leaf(Head {
        word1: t.word2,
        ..Head::plain(Kind::Priority, 0, 0)
    });
    Ok(())
}

// 1 named, 2 has priority.
fn rule_flags(p: &Parser) -> u8
    requires { p.now.state.next < 4294967296 }
    ensures { result ≡ rule_flags (read_by p.now) p.now.state.next }
{
    let t = p.next_token();
    if t.is_symbol() {
        return 1 + 2 * u8::from(p.second_token().is_int());
    }
    2 * u8::from(t.is_int())
}

// The name and the priority.
fn rule_head(p: &mut Parser, place: u32) -> Result<(), Stop>
    requires { Begins 4 p.old }
    ensures reads { Read (λ s. rule_name s ⊳ rule_priority s place) p.old p.new result }
    ensures within { IfOk result (λ _. Went 0 0 0 p.old p.new) }
{
    rule_name(p)?;
    rule_priority(p, place)
}

// What a rule is made of; 24 stands at `place`.
fn rule_parts(p: &mut Parser, place: u32) -> Result<(), Stop>
    requires { Begins 4 p.old }
    ensures reads { Read (λ s. rule_parts s place) p.old p.new result }
    ensures within { IfOk result (λ _. Went 1 1 0 p.old p.new) }
{
    rule_head(p, place)?;
    parse_pattern(p, 64)?;
    parse_iflets(p)?;
    parse_iflet_or_expr(p)
}

// After `rule`: name, priority, pattern, if-lets, expression.
pub fn parse_rule(p: &mut Parser) -> Result<(), Stop>
    requires { Begins 2 p.old }
    ensures reads { Read parse_rule p.old p.new result }
    ensures within { IfOk result (λ _. Went 1 0 0 p.old p.new) }
{
    let flags = rule_flags(p);
    let place = p.next_pos();
    let node = p.begin();
    rule_parts(p, place)?;
    p.close_at(node, Kind::Rule as u8, flags);
    Ok(())
}
