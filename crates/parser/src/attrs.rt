// Attributes: parse_attr, parse_attr_kind, parse_attr_kind_veri.
ghost use Rattle.std.specs.Prelude.{◌≡◌, ℕ, ◌≤◌, ◌<◌, IfOk};
ghost use Rattle.trees.specs.Ast.{kind_attr_kind_tag};
ghost use Rattle.trees.specs.KindNumber.{kind_number};
ghost use Rattle.tokens.specs.Token.{is_rparen};
ghost use Rattle.tokens.specs.Input.{peek};
ghost use Rattle.steps.specs.Outcome.{bare, row, expect-word, parse_ident};
ghost use Rattle.steps.specs.Read.{Read, Begins, Went};
ghost use Rattle.parser.specs.Defs.{parse_attr_kind_veri, parse_attr_kind, parse_attr};

use records::Ground;
use steps::parts::{Item, Part};
use steps::{Parser, Stop};
use tokens::TokenKind;
use trees::Kind;

// A record without position and children, of the one word w.
fn word_kind(p: &mut Parser, kind: Kind, w: &[u8]) -> Result<(), Stop>
    requires { Begins 4 p.old }
    ensures reads { Read (λ s. bare (kind_number kind) (expect-word s w.now)) p.old p.new result }
    ensures within { IfOk result (λ _. Went 1 0 0 p.old p.new) }
{
    let node = p.begin();
    p.expect_word(w)?;
    p.close_bare(node, kind);
    Ok(())
}

fn parse_attr_kind_veri(p: &mut Parser) -> Result<(), Stop>
    requires { Begins 4 p.old }
    ensures reads { Read parse_attr_kind_veri p.old p.new result }
    ensures within { IfOk result (λ _. Went 1 0 0 p.old p.new) }
{
    let t = p.next_token();
    if t.is_word(p.source.text, b"chain") {
        return word_kind(p, Kind::AttrKindChain, b"chain");
    }
    if t.is_word(p.source.text, b"priority") {
        return word_kind(p, Kind::AttrKindPriority, b"priority");
    }
    p.refuse_after(TokenKind::Symbol, Ground::VerificationAttribute)
}

// What stands after `veri`.
struct Veri;

impl Part for Veri {
    ghost reader = { parse_attr_kind_veri };

    fn parse(p: &mut Parser) -> Result<(), Stop> {
        parse_attr_kind_veri(p)
    }
}

// After `tag`: a record without position over its name.
struct Tag;

impl Part for Tag {
    ghost reader = { λ s. bare kind_attr_kind_tag (parse_ident s) };

    fn parse(p: &mut Parser) -> Result<(), Stop> {
        let node = p.begin();
        p.parse_ident()?;
        p.close_bare(node, Kind::AttrKindTag);
        Ok(())
    }
}

fn parse_attr_kind(p: &mut Parser) -> Result<(), Stop>
    requires { Begins 4 p.old }
    ensures reads { Read parse_attr_kind p.old p.new result }
    ensures within { IfOk result (λ _. Went 1 0 0 p.old p.new) }
{
    let u = p.second_token();
    if u.is_word(p.source.text, b"veri") {
        return p.parse_worded::<Veri>(b"veri", u);
    }
    if u.is_word(p.source.text, b"tag") {
        return p.parse_worded::<Tag>(b"tag", u);
    }
    p.expect_lparen()?;
    p.refuse_after(TokenKind::Symbol, Ground::Attribute)
}

// An attribute, in the row after a target.
struct AttrKinds;

impl Item for AttrKinds {
    ghost reader = { λ s _. parse_attr_kind s };

    ghost stop = { λ s i. is_rparen (peek s i) };

    fn parse(p: &mut Parser) -> Result<(), Stop> {
        parse_attr_kind(p)
    }

    fn ends(p: &Parser) -> bool {
        p.at_rparen()
    }
}

fn attr_kind_row(p: &mut Parser) -> Result<(), Stop>
    requires { Begins 4 p.old }
    ensures reads { Read (λ s. row s (parse_attr_kind s)) p.old p.new result }
    ensures within { IfOk result (λ _. Went 0 0 0 p.old p.new) }
{
    p.parse_row::<AttrKinds>()
}

// After `attr`: `rule` or not, the target, the attributes.
pub fn parse_attr(p: &mut Parser) -> Result<(), Stop>
    requires { Begins 4 p.old }
    ensures reads { Read parse_attr p.old p.new result }
    ensures within { IfOk result (λ _. Went 1 0 0 p.old p.new) }
{
    let node = p.begin();
    let rule = p.eat(b"rule");
    p.parse_ident()?;
    attr_kind_row(p)?;
    p.close_at(node, Kind::Attr as u8, u8::from(rule));
    Ok(())
}
