// Types: parse_type, parse_typevalue, parse_type_variant, parse_fields and what they read.
ghost use Rattle.std.specs.Prelude.{◌≡◌, ℕ, Bool, ◌+◌, ◌*◌, ◌≤◌, ◌<◌, IfOk};
ghost use Rattle.trees.specs.Ast.{kind_variant, kind_fields_unit};
ghost use Rattle.tokens.specs.Token.{is_rparen};
ghost use Rattle.tokens.specs.Input.{size, peek};
ghost use Rattle.steps.specs.Outcome.{◌⊳◌, parent, bare, nothing, many_at, row, expect-lparen, expect-rparen, expect-word, parse_ident};
ghost use Rattle.steps.specs.Met.{state, Near};
ghost use Rattle.steps.specs.Read.{read_by, Read, ReadAt, Passed, Begins, Went};
ghost use Rattle.parser.specs.Types.{parse_struct_field, parse_tuple_field, parse_fields, parse_type_variant, parse_typevalue, parse_type};
ghost use Rattle.parser.specs.Modified.{flags_of, TurnedTo, Modified, no_modifier};

use reader::after;
use records::Ground;
use steps::parts::{Item, Part};
use steps::{Parser, Stop};
use tokens::{Token, TokenKind};
use trees::{Head, Kind};

// `(name type)`
fn parse_struct_field(p: &mut Parser) -> Result<(), Stop>
    requires { Begins 4 p.old }
    ensures reads { Read parse_struct_field p.old p.new result }
    ensures within { IfOk result (λ _. Went 1 0 0 p.old p.new) }
{
    let node = p.begin();
    p.expect_lparen()?;
    p.parse_ident()?;
    p.parse_ident()?;
    p.expect_rparen()?;
    p.close_at(node, Kind::StructField as u8, 0);
    Ok(())
}

// A field with a name, in the row of a struct's fields.
struct StructField;

impl Item for StructField {
    ghost reader = { λ s _. parse_struct_field s };

    ghost stop = { λ s i. is_rparen (peek s i) };

    fn parse(p: &mut Parser) -> Result<(), Stop> {
        parse_struct_field(p)
    }

    fn ends(p: &Parser) -> bool {
        p.at_rparen()
    }
}

// A type; its index is how many stand before it.
fn parse_tuple_field(p: &mut Parser) -> Result<(), Stop>
    requires { Begins 4 p.old }
    ensures reads { ReadAt parse_tuple_field p.old p.new result }
    ensures within { IfOk result (λ _. Went 1 0 0 p.old p.new) }
{
    let node = p.begin();
    p.parse_ident()?;
    let h = Head {
        word1: node.items as u64,
        ..Head::plain(Kind::TupleField, 0, p.pos_at(node.next))
    };
    p.close(node, h);
    Ok(())
}

// A field without a name, in the row of a tuple's fields.
struct TupleField;

impl Item for TupleField {
    ghost reader = { parse_tuple_field };

    ghost stop = { λ s i. is_rparen (peek s i) };

    fn parse(p: &mut Parser) -> Result<(), Stop> {
        parse_tuple_field(p)
    }

    fn ends(p: &Parser) -> bool {
        p.at_rparen()
    }
}

// The fields of a struct or a tuple, in a row up to a `)`.
fn fields<I: Item>(p: &mut Parser, kind: u8) -> Result<(), Stop>
    requires { Begins 2 p.old }
    ensures reads { Read (λ s. parent s kind 0 (many_at (size s) (I.stop s) (I.reader s) 0)) p.old p.new result }
    ensures within { IfOk result (λ _. Went 0 0 1 p.old p.new) }
{
    let node = p.begin();
    p.parse_row::<I>()?;
    p.close_at(node, kind, 0);
    Ok(())
}

// No fields, which take no token.
fn unit_fields(p: &mut Parser)
    requires { Near p.old.state }
    ensures reads { Passed (λ _. bare kind_fields_unit nothing) p.old p.new }
    ensures one { p.new.state ≡ state p.old.state.next (p.old.state.count + 1) (p.old.state.items + 1) }
{
    let node = p.begin();
    p.close_bare(node, Kind::FieldsUnit);
}

fn parse_fields(p: &mut Parser) -> Result<(), Stop>
    requires { Begins 2 p.old }
    ensures reads { Read parse_fields p.old p.new result }
    ensures within { IfOk result (λ _. Went 0 0 1 p.old p.new) }
{
    let t = p.next_token();
    if t.is_rparen() {
        unit_fields(p);
        return Ok(());
    }
    if t.is_lparen() {
        return fields::<StructField>(p, Kind::FieldsStruct as u8);
    }
    fields::<TupleField>(p, Kind::FieldsTuple as u8)
}

// `(name fields)`
fn variant_parens(p: &mut Parser) -> Result<(), Stop>
    requires { Begins 4 p.old }
    ensures reads { Read (λ s. parent s kind_variant 0 (expect-lparen s ⊳ parse_ident s ⊳ parse_fields s ⊳ expect-rparen s)) p.old p.new result }
    ensures within { IfOk result (λ _. Went 1 0 0 p.old p.new) }
{
    let node = p.begin();
    p.expect_lparen()?;
    p.parse_ident()?;
    parse_fields(p)?;
    p.expect_rparen()?;
    p.close_at(node, Kind::Variant as u8, 0);
    Ok(())
}

fn variant_unit(p: &mut Parser) -> Result<(), Stop>
    requires { Begins 4 p.old }
    ensures reads { Read (λ s. parent s kind_variant 0 (parse_ident s ⊳ bare kind_fields_unit nothing)) p.old p.new result }
    ensures within { IfOk result (λ _. Went 1 0 0 p.old p.new) }
{
    let node = p.begin();
    p.parse_ident()?;
    unit_fields(p);
    p.close_at(node, Kind::Variant as u8, 0);
    Ok(())
}

fn parse_type_variant(p: &mut Parser) -> Result<(), Stop>
    requires { Begins 4 p.old }
    ensures reads { Read parse_type_variant p.old p.new result }
    ensures within { IfOk result (λ _. Went 1 0 0 p.old p.new) }
{
    if p.next_token().is_symbol() {
        return variant_unit(p);
    }
    variant_parens(p)
}

// A variant, in the row of an enum's variants.
struct Variant;

impl Item for Variant {
    ghost reader = { λ s _. parse_type_variant s };

    ghost stop = { λ s i. is_rparen (peek s i) };

    fn parse(p: &mut Parser) -> Result<(), Stop> {
        parse_type_variant(p)
    }

    fn ends(p: &Parser) -> bool {
        p.at_rparen()
    }
}

// What stands after `primitive`, `enum` and `struct`.
struct Primitive;

impl Part for Primitive {
    ghost reader = { parse_ident };

    fn parse(p: &mut Parser) -> Result<(), Stop> {
        p.parse_ident()
    }
}

struct Enum;

impl Part for Enum {
    ghost reader = { λ s. row s (parse_type_variant s) };

    fn parse(p: &mut Parser) -> Result<(), Stop> {
        p.parse_row::<Variant>()
    }
}

struct Struct;

impl Part for Struct {
    ghost reader = { parse_fields };

    fn parse(p: &mut Parser) -> Result<(), Stop> {
        parse_fields(p)
    }
}

// `(primitive name)`, `(enum variants)` or `(struct fields)`, by the second token u, which is the word w.
fn value<P: Part>(p: &mut Parser, kind: u8, w: &[u8], u: Token) -> Result<(), Stop>
    requires ready { Begins 4 p.old }
    requires second { u ≡ peek (read_by p.old) (p.old.state.next + 1) }
    ensures reads { Read (λ s. parent s kind 0 (expect-lparen s ⊳ expect-word s w.now ⊳ P.reader s ⊳ expect-rparen s)) p.old p.new result }
    ensures within { IfOk result (λ _. Went 1 0 0 p.old p.new) }
{
    let node = p.begin();
    p.parse_worded::<P>(w, u)?;
    p.close_at(node, kind, 0);
    Ok(())
}

fn parse_typevalue(p: &mut Parser) -> Result<(), Stop>
    requires { Begins 4 p.old }
    ensures reads { Read parse_typevalue p.old p.new result }
    ensures within { IfOk result (λ _. Went 1 0 0 p.old p.new) }
{
    let u = p.second_token();
    if u.is_word(p.source.text, b"primitive") {
        return value::<Primitive>(p, Kind::TypeValuePrimitive as u8, b"primitive", u);
    }
    if u.is_word(p.source.text, b"enum") {
        return value::<Enum>(p, Kind::TypeValueEnum as u8, b"enum", u);
    }
    if u.is_word(p.source.text, b"struct") {
        return value::<Struct>(p, Kind::TypeValueStruct as u8, b"struct", u);
    }
    p.refuse_after(TokenKind::LParen, Ground::TypeDefinition)
}

// The modifiers that stood behind a type's name.
#[derive(Clone, Copy)]
struct Modifiers {
    external: bool,
    nodebug: bool,
}

impl Modifiers {
    fn flags(self) -> u8
        ensures { result ≡ flags_of self }
    {
        u8::from(self.external) + u8::from(self.nodebug) * 2
    }

    // These and the next token, where it is a modifier.
    fn and_next(self, p: &Parser) -> Option<Modifiers>
        ensures { TurnedTo (read_by p.now) self p.now.state.next result }
    {
        let t = p.next_token();
        if t.is_word(p.source.text, b"extern") {
            return Some(Modifiers {
                external: true,
                ..self
            });
        }
        if t.is_word(p.source.text, b"nodebug") {
            return Some(Modifiers {
                nodebug: true,
                ..self
            });
        }
        None
    }
}

// The modifiers behind a type's name are passed, in any order and repeated: their flags.
// Kept: each turn passes a token and keeps which modifiers were met, and the first token that is none ends it.
fn pass_modifiers(p: &mut Parser) -> u8
    requires { Begins 5 p.old }
    ensures { Modified p.old p.new result }
{
    let mut met = Modifiers {
        external: false,
        nodebug: false,
    };
    while let Some(more) = met.and_next(p) {
        met = more;
        p.pass();
    }
    met.flags()
}

// A symbol behind the modifiers is refused, at the token after it.
fn no_modifier(p: &Parser) -> Result<(), Stop>
    requires { p.now.state.next < 4294967296 }
    ensures { Read no_modifier p.now p.now result }
{
    if p.next_token().is_symbol() {
        return Err(Stop {
            why: Ground::TypeModifier,
            place: p.second_token().pos,
            taken: after(p.source.tokens, p.state.next),
        });
    }
    Ok(())
}

// After `type`: a name, modifiers, a value.
pub fn parse_type(p: &mut Parser) -> Result<(), Stop>
    requires { Begins 4 p.old }
    ensures reads { Read parse_type p.old p.new result }
    ensures within { IfOk result (λ _. Went 1 0 0 p.old p.new) }
{
    let node = p.begin();
    p.parse_ident()?;
    let flags = pass_modifiers(p);
    no_modifier(p)?;
    parse_typevalue(p)?;
    p.close_at(node, Kind::TypeDef as u8, flags);
    Ok(())
}
