// parse_pattern of the Rust: a pattern's records from its tokens. The functions that read a pattern's parts call it again,
// with one level of depth less.
#![tactic(auto)]

ghost use Rattle.std.specs.Prelude.{◌≡◌, ℕ, ◌+◌, ◌-◌, ◌≤◌, ◌<◌, IfOk};
ghost use Rattle.trees.specs.Ast.{kind_pattern_bind, kind_pattern_and, kind_pattern_term};
ghost use Rattle.tokens.specs.Input.{peek};
ghost use Rattle.steps.specs.Keywords.{word_and};
ghost use Rattle.steps.specs.Outcome.{◌⊳◌, parent, row, expect-lparen, expect-rparen, expect-at, expect-word, parse_ident};
ghost use Rattle.steps.specs.Read.{read_by, Read, Begins, Went};
ghost use Rattle.patterns.specs.Pattern.{compound, parse_pattern};

use records::Ground;
use steps::{Parser, Stop};
use tokens::Token;
use trees::Kind;

// The next pattern, of at most this depth.
#[cycle(pattern)]
pub fn parse_pattern(p: &mut Parser, depth: usize) -> Result<(), Stop>
    requires { Begins 4 p.old }
    ensures reads { Read (λ s. parse_pattern s depth) p.old p.new result }
    ensures within { IfOk result (λ _. Went 1 1 0 p.old p.new) }
{
    if depth == 0 {
        return p.refuse_at(Ground::TooDeep);
    }
    let t = p.next_token();
    if t.is_int() {
        p.int_of(Kind::PatternConstInt, t);
        return Ok(());
    }
    if t.is_const(p.source.text) {
        return p.const_node_of(Kind::PatternConstPrim as u8, t);
    }
    if t.is_word(p.source.text, b"_") {
        p.leaf_of(Kind::PatternWildcard as u8, 0, t);
        return Ok(());
    }
    if t.is_word(p.source.text, b"true") {
        p.leaf_of(Kind::PatternConstBool as u8, 1, t);
        return Ok(());
    }
    if t.is_word(p.source.text, b"false") {
        p.leaf_of(Kind::PatternConstBool as u8, 0, t);
        return Ok(());
    }
    parse_compound(p, depth - 1, t)
}

// A pattern that is a name, bound or not, or stands in parentheses, by the next token t; the patterns inside are of at most this depth.
#[cycle(pattern)]
fn parse_compound(p: &mut Parser, depth: usize, t: Token) -> Result<(), Stop>
    requires ready { Begins 4 p.old }
    requires next { t ≡ peek (read_by p.old) p.old.state.next }
    ensures reads { Read (λ s. compound s (parse_pattern s depth)) p.old p.new result }
    ensures within { IfOk result (λ _. Went 1 1 0 p.old p.new) }
{
    if t.is_symbol() {
        if p.second_kind() == Token::AT {
            return parse_bind(p, depth, t);
        }
        return p.ident_node_of(Kind::PatternVar as u8, t);
    }
    if t.is_lparen() {
        let u = p.second_token();
        if u.is_word(p.source.text, b"and") {
            return parse_and(p, depth, t);
        }
        return parse_term(p, depth, t);
    }
    p.refuse_at(Ground::Pattern)
}

// A name, `@` and the pattern that it is bound over; here and below t is the next token.
#[cycle(pattern)]
fn parse_bind(p: &mut Parser, depth: usize, t: Token) -> Result<(), Stop>
    requires ready { Begins 4 p.old }
    requires next { t ≡ peek (read_by p.old) p.old.state.next }
    ensures reads { Read (λ s. parent s kind_pattern_bind 0 (parse_ident s ⊳ expect-at s ⊳ parse_pattern s depth)) p.old p.new result }
    ensures within { IfOk result (λ _. Went 1 1 0 p.old p.new) }
{
    let node = p.begin();
    p.parse_ident()?;
    p.expect_at()?;
    parse_pattern(p, depth)?;
    p.close_of(node, Kind::PatternBind as u8, 0, t);
    Ok(())
}

// `(and ..)`
#[cycle(pattern)]
fn parse_and(p: &mut Parser, depth: usize, t: Token) -> Result<(), Stop>
    requires ready { Begins 4 p.old }
    requires next { t ≡ peek (read_by p.old) p.old.state.next }
    ensures reads { Read (λ s. parent s kind_pattern_and 0 (expect-lparen s ⊳ expect-word s word_and ⊳ row s (parse_pattern s depth) ⊳ expect-rparen s)) p.old p.new result }
    ensures within { IfOk result (λ _. Went 1 1 0 p.old p.new) }
{
    let node = p.begin();
    p.expect_lparen_of(t)?;
    p.expect_word(b"and")?;
    parse_patterns(p, depth)?;
    p.expect_rparen()?;
    p.close_of(node, Kind::PatternAnd as u8, 0, t);
    Ok(())
}

// `(term ..)`
#[cycle(pattern)]
fn parse_term(p: &mut Parser, depth: usize, t: Token) -> Result<(), Stop>
    requires ready { Begins 4 p.old }
    requires next { t ≡ peek (read_by p.old) p.old.state.next }
    ensures reads { Read (λ s. parent s kind_pattern_term 0 (expect-lparen s ⊳ parse_ident s ⊳ row s (parse_pattern s depth) ⊳ expect-rparen s)) p.old p.new result }
    ensures within { IfOk result (λ _. Went 1 1 0 p.old p.new) }
{
    let node = p.begin();
    p.expect_lparen_of(t)?;
    p.parse_ident()?;
    parse_patterns(p, depth)?;
    p.expect_rparen()?;
    p.close_of(node, Kind::PatternTerm as u8, 0, t);
    Ok(())
}

// Patterns up to a `)`, which is left.
// Kept: a loop of its own beside `Parser::parse_row`, since a cycle that goes through a trait's method gets no proof; a closure in a cycle would
// want its clauses written out here, which are longer than the loop.
#[cycle(pattern)]
fn parse_patterns(p: &mut Parser, depth: usize) -> Result<(), Stop>
    requires { Begins 4 p.old }
    ensures reads { Read (λ s. row s (parse_pattern s depth)) p.old p.new result }
    ensures within { IfOk result (λ _. Went 0 0 0 p.old p.new) }
{
    while !p.at_rparen() {
        parse_pattern(p, depth)?;
    }
    Ok(())
}
