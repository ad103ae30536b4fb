// Definitions of the Rust's parser: parse_defs, parse_def and the functions for the covered forms.
#![tactic(auto)]

pub mod attrs;
pub mod decls;
pub mod rules;
pub mod types;

ghost use Rattle.std.specs.Prelude.{◌≡◌, ℕ, ◌+◌, ◌≤◌, ◌<◌, leb, IfOk};
ghost use Rattle.trees.specs.Choice.{pick};
ghost use Rattle.records.specs.Grounds.{number};
ghost use Rattle.tokens.specs.Input.{size, peek};
ghost use Rattle.steps.specs.Met.{seen, state, Chained, Ready, Within};
ghost use Rattle.steps.specs.Read.{read_by, Read, Begins, Went};
ghost use Rattle.parser.specs.Types.{parse_type};
ghost use Rattle.parser.specs.Defs.{parse_pragma, parse_decl, parse_attr, parse_rule, parse_etor, parse_extern, parse_converter, is_uncovered, other_def, rest_def, parse_def, parse_defs};

use attrs::parse_attr;
use decls::{parse_converter, parse_decl, parse_etor, parse_extern, parse_pragma};
use records::Ground;
use rules::parse_rule;
use steps::parts::{Item, Part};
use steps::{Parser, Source, State, Stop};
use tokens::{Token, TokenKind};
use types::parse_type;

// The definitions, each by what stands after its word.
struct Pragma;

impl Part for Pragma {
    ghost reader = { parse_pragma };

    fn parse(p: &mut Parser) -> Result<(), Stop> {
        parse_pragma(p)
    }
}

struct TypeDef;

impl Part for TypeDef {
    ghost reader = { parse_type };

    fn parse(p: &mut Parser) -> Result<(), Stop> {
        parse_type(p)
    }
}

struct Decl;

impl Part for Decl {
    ghost reader = { parse_decl };

    fn parse(p: &mut Parser) -> Result<(), Stop> {
        parse_decl(p)
    }
}

struct Attr;

impl Part for Attr {
    ghost reader = { parse_attr };

    fn parse(p: &mut Parser) -> Result<(), Stop> {
        parse_attr(p)
    }
}

struct Rule;

impl Part for Rule {
    ghost reader = { parse_rule };

    fn parse(p: &mut Parser) -> Result<(), Stop> {
        parse_rule(p)
    }
}

struct Extractor;

impl Part for Extractor {
    ghost reader = { parse_etor };

    fn parse(p: &mut Parser) -> Result<(), Stop> {
        parse_etor(p)
    }
}

struct Extern;

impl Part for Extern {
    ghost reader = { parse_extern };

    fn parse(p: &mut Parser) -> Result<(), Stop> {
        parse_extern(p)
    }
}

struct Converter;

impl Part for Converter {
    ghost reader = { parse_converter };

    fn parse(p: &mut Parser) -> Result<(), Stop> {
        parse_converter(p)
    }
}

// Whether a token is a word that is not covered.
#[tactic(auto, unfolding(crate::specs::Defs::is_uncovered))]
fn is_uncovered(t: Token, text: &[u8]) -> bool
    ensures { result ≡ is_uncovered text.now t }
{
    t.is_word(text, b"spec")
        || t.is_word(text, b"macro")
        || t.is_word(text, b"state")
        || t.is_word(text, b"model")
        || t.is_word(text, b"form")
        || t.is_word(text, b"instantiate")
}

// Why a definition with that word is refused, which is none of the covered ones.
fn unread_ground(u: Token, text: &[u8]) -> Ground
    ensures { number result ≡ pick (is_uncovered text.now u) 27 12 }
{
    if is_uncovered(u, text) {
        return Ground::UncoveredWord;
    }
    Ground::UnknownDefinition
}

// A definition whose word is none of the covered ones.
fn other_def(p: &mut Parser, u: Token) -> Result<(), Stop>
    requires ready { Begins 4 p.old }
    requires second { u ≡ peek (read_by p.old) (p.old.state.next + 1) }
    ensures reads { Read other_def p.old p.new result }
    ensures within { IfOk result (λ _. Went 1 0 0 p.old p.new) }
{
    let why = unread_ground(u, p.source.text);
    p.expect_lparen()?;
    p.refuse_after(TokenKind::Symbol, why)
}

// A definition by the word after its `(`: the less frequent words.
fn parse_def_rest(p: &mut Parser, u: Token) -> Result<(), Stop>
    requires ready { Begins 4 p.old }
    requires second { u ≡ peek (read_by p.old) (p.old.state.next + 1) }
    ensures reads { Read rest_def p.old p.new result }
    ensures within { IfOk result (λ _. Went 1 0 0 p.old p.new) }
{
    if u.is_word(p.source.text, b"rule") {
        return p.parse_worded::<Rule>(b"rule", u);
    }
    if u.is_word(p.source.text, b"extractor") {
        return p.parse_worded::<Extractor>(b"extractor", u);
    }
    if u.is_word(p.source.text, b"extern") {
        return p.parse_worded::<Extern>(b"extern", u);
    }
    if u.is_word(p.source.text, b"convert") {
        return p.parse_worded::<Converter>(b"convert", u);
    }
    other_def(p, u)
}

fn parse_def(p: &mut Parser) -> Result<(), Stop>
    requires { Begins 4 p.old }
    ensures reads { Read parse_def p.old p.new result }
    ensures within { IfOk result (λ _. Went 1 0 0 p.old p.new) }
{
    let u = p.second_token();
    if u.is_word(p.source.text, b"pragma") {
        return p.parse_worded::<Pragma>(b"pragma", u);
    }
    if u.is_word(p.source.text, b"type") {
        return p.parse_worded::<TypeDef>(b"type", u);
    }
    if u.is_word(p.source.text, b"decl") {
        return p.parse_worded::<Decl>(b"decl", u);
    }
    if u.is_word(p.source.text, b"attr") {
        return p.parse_worded::<Attr>(b"attr", u);
    }
    parse_def_rest(p, u)
}

// A definition, in the row that ends with the tokens.
struct Def;

impl Item for Def {
    ghost reader = { λ s _. parse_def s };

    ghost stop = { λ s i. leb (size s) i };

    fn parse(p: &mut Parser) -> Result<(), Stop> {
        parse_def(p)
    }

    fn ends(p: &Parser) -> bool {
        p.source.tokens.len() / Token::WIDTH <= p.state.next
    }
}

// All definitions, to the last token.
pub fn parse_defs(p: &mut Parser) -> Result<(), Stop>
    requires { Begins 4 p.old }
    ensures reads { Read parse_defs p.old p.new result }
    ensures within { IfOk result (λ _. Went 0 0 0 p.old p.new) }
    ensures same_output { p.new.out.ghost_name ≡ p.old.out.ghost_name }
{
    p.parse_row::<Def>()
}

// parse of the Rust: the definitions that the tokens are, written from the first slot on.
pub fn parse(s: &Source, out: &mut [u8]) -> Result<State, Stop>
    requires { Ready 4 (seen s.now) (state 0 0 0) }
    ensures reads { Chained (parse_defs (seen s.now)) (state 0 0 0) out.old out.new result }
    ensures within { IfOk result (Within 0 0 0 (seen s.now) (state 0 0 0)) }
{
    let mut p = Parser {
        source: *s,
        out,
        state: State::START,
    };
    parse_defs(&mut p)?;
    Ok(p.state)
}
