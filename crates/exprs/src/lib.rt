// Expressions of the Rust's parser: parse_expr, parse_expr_inner_parens and parse_letdef call one another, with one level of
// depth less for the expressions inside.
#![tactic(auto)]

pub mod iflets;

ghost use Rattle.std.specs.Prelude.{◌≡◌, ℕ, ◌+◌, ◌-◌, ◌≤◌, ◌<◌, IfOk};
ghost use Rattle.tokens.specs.Input.{peek};
ghost use Rattle.trees.specs.Ast.{kind_expr_let};
ghost use Rattle.steps.specs.Outcome.{◌⊳◌, parent, row, expect-lparen};
ghost use Rattle.steps.specs.Read.{read_by, Read, Begins, Went};
ghost use Rattle.exprs.specs.Expr.{parse_letdef, let_inside, parse_expr_inner_parens, parse_expr};

use records::Ground;
use steps::{Parser, Stop};
use tokens::Token;
use trees::Kind;

// The next expression, of at most this depth.
#[cycle(expr)]
pub fn parse_expr(p: &mut Parser, depth: usize) -> Result<(), Stop>
    requires { Begins 4 p.old }
    ensures reads { Read (λ s. parse_expr s depth) p.old p.new result }
    ensures within { IfOk result (λ _. Went 1 1 0 p.old p.new) }
{
    if depth == 0 {
        return p.refuse_at(Ground::TooDeep);
    }
    let t = p.next_token();
    if t.is_lparen() {
        return parse_expr_inner_parens(p, depth - 1, t);
    }
    if t.is_const(p.source.text) {
        return p.const_node_of(Kind::ExprConstPrim as u8, t);
    }
    if t.is_word(p.source.text, b"true") {
        p.leaf_of(Kind::ExprConstBool as u8, 1, t);
        return Ok(());
    }
    if t.is_word(p.source.text, b"false") {
        p.leaf_of(Kind::ExprConstBool as u8, 0, t);
        return Ok(());
    }
    if t.is_symbol() {
        return p.ident_node_of(Kind::ExprVar as u8, t);
    }
    if t.is_int() {
        p.int_of(Kind::ExprConstInt, t);
        return Ok(());
    }
    p.refuse_at(Ground::Expression)
}

// `(let ..)` or `(term ..)`, the `(` standing next as t; the expressions inside are of at most this depth.
#[cycle(expr)]
fn parse_expr_inner_parens(p: &mut Parser, depth: usize, t: Token) -> Result<(), Stop>
    requires ready { Begins 4 p.old }
    requires next { t ≡ peek (read_by p.old) p.old.state.next }
    ensures reads { Read (λ s. parse_expr_inner_parens s (parse_expr s depth)) p.old p.new result }
    ensures within { IfOk result (λ _. Went 1 1 0 p.old p.new) }
{
    if p.stands_second(b"let") {
        return parse_let_parens(p, depth, t);
    }
    let node = p.begin();
    p.expect_lparen_of(t)?;
    p.parse_ident()?;
    parse_exprs(p, depth)?;
    p.expect_rparen()?;
    p.close_of(node, Kind::ExprTerm as u8, 0, t);
    Ok(())
}

// `(let ..)`
#[cycle(expr)]
fn parse_let_parens(p: &mut Parser, depth: usize, t: Token) -> Result<(), Stop>
    requires ready { Begins 4 p.old }
    requires next { t ≡ peek (read_by p.old) p.old.state.next }
    ensures reads { Read (λ s. parent s kind_expr_let 0 (expect-lparen s ⊳ let_inside s (parse_expr s depth))) p.old p.new result }
    ensures within { IfOk result (λ _. Went 1 1 0 p.old p.new) }
{
    let node = p.begin();
    p.expect_lparen_of(t)?;
    parse_let(p, depth)?;
    p.close_of(node, Kind::ExprLet as u8, 0, t);
    Ok(())
}

// The inside of a let: `let (definitions) body)`.
#[cycle(expr)]
fn parse_let(p: &mut Parser, depth: usize) -> Result<(), Stop>
    requires { Begins 4 p.old }
    ensures reads { Read (λ s. let_inside s (parse_expr s depth)) p.old p.new result }
    ensures within { IfOk result (λ _. Went 1 1 0 p.old p.new) }
{
    p.expect_word(b"let")?;
    p.expect_lparen()?;
    parse_letdefs(p, depth)?;
    p.expect_rparen()?;
    parse_expr(p, depth)?;
    p.expect_rparen()
}

// `(name type value)`
#[cycle(expr)]
fn parse_letdef(p: &mut Parser, depth: usize) -> Result<(), Stop>
    requires { Begins 4 p.old }
    ensures reads { Read (λ s. parse_letdef s (parse_expr s depth)) p.old p.new result }
    ensures within { IfOk result (λ _. Went 1 1 0 p.old p.new) }
{
    let node = p.begin();
    p.expect_lparen()?;
    p.parse_ident()?;
    p.parse_ident()?;
    parse_expr(p, depth)?;
    p.expect_rparen()?;
    p.close_at(node, Kind::LetDef as u8, 0);
    Ok(())
}

// Let definitions up to a `)`, which is left.
// Kept: a loop of its own beside `Parser::parse_row`, since a cycle that goes through a trait's method gets no proof; a closure in a cycle would
// want its clauses written out here, which are longer than the loop.
#[cycle(expr)]
fn parse_letdefs(p: &mut Parser, depth: usize) -> Result<(), Stop>
    requires { Begins 4 p.old }
    ensures reads { Read (λ s. row s (parse_letdef s (parse_expr s depth))) p.old p.new result }
    ensures within { IfOk result (λ _. Went 0 0 0 p.old p.new) }
{
    while !p.at_rparen() {
        parse_letdef(p, depth)?;
    }
    Ok(())
}

// Expressions up to a `)`, which is left.
// Kept: as at `parse_letdefs`.
#[cycle(expr)]
fn parse_exprs(p: &mut Parser, depth: usize) -> Result<(), Stop>
    requires { Begins 4 p.old }
    ensures reads { Read (λ s. row s (parse_expr s depth)) p.old p.new result }
    ensures within { IfOk result (λ _. Went 0 0 0 p.old p.new) }
{
    while !p.at_rparen() {
        parse_expr(p, depth)?;
    }
    Ok(())
}
