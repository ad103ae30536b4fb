// Declarations, externs, extractors, converters and pragmas.
ghost use Rattle.std.specs.Prelude.{◌≡◌, ℕ, ◌+◌, ◌-◌, ◌≤◌, ◌<◌, IfOk};
ghost use Rattle.trees.specs.Ast.{kind_extern_constructor, kind_extern_extractor, kind_extern_const};
ghost use Rattle.steps.specs.Keywords.{word_constructor, word-extractor, word_infallible, word_const};
ghost use Rattle.steps.specs.Outcome.{◌⊳◌, parent, flagged, ate, eat, expect-word, parse_ident, parse_const};
ghost use Rattle.steps.specs.Read.{read_by, Read, Passed, Begins, Went};
ghost use Rattle.parser.specs.Defs.{decl_flags, decl_modifiers, decl_names, parse_decl, parse_extern, etor_head, parse_etor, parse_converter, parse_pragma};

use patterns::parse_pattern;
use records::Ground;
use steps::{Parser, Stop};
use trees::Kind;

// The modifiers of a declaration, in the order pure, multi, partial, rec: the flags.
fn decl_modifiers(p: &mut Parser) -> u8
    requires { Begins 5 p.old }
    ensures flags { result ≡ decl_flags (read_by p.old) p.old.state.next }
    ensures reads { Passed decl_modifiers p.old p.new }
    ensures within { Went 0 0 0 p.old p.new }
{
    let pure = p.eat(b"pure");
    let multi = p.eat(b"multi");
    let partial = p.eat(b"partial");
    let rec = p.eat(b"rec");
    u8::from(pure) + u8::from(multi) * 2 + u8::from(partial) * 4 + u8::from(rec) * 8
}

// After `decl`: modifiers, the term, its argument types, its result.
pub fn parse_decl(p: &mut Parser) -> Result<(), Stop>
    requires { Begins 4 p.old }
    ensures reads { Read parse_decl p.old p.new result }
    ensures within { IfOk result (λ _. Went 1 0 0 p.old p.new) }
{
    let node = p.begin();
    let flags = decl_modifiers(p);
    decl_names(p)?;
    p.close_at(node, Kind::Decl as u8, flags);
    Ok(())
}

// The names of a declaration: the term, its argument types, its result.
fn decl_names(p: &mut Parser) -> Result<(), Stop>
    requires { Begins 5 p.old }
    ensures reads { Read decl_names p.old p.new result }
    ensures within { IfOk result (λ _. Went 1 1 0 p.old p.new) }
{
    p.parse_ident()?;
    p.expect_lparen()?;
    p.parse_idents()?;
    p.expect_rparen()?;
    p.parse_ident()
}

// `constructor term func`
fn extern_constructor(p: &mut Parser) -> Result<(), Stop>
    requires { Begins 4 p.old }
    ensures reads { Read (λ s. parent s kind_extern_constructor 0 (expect-word s word_constructor ⊳ parse_ident s ⊳ parse_ident s)) p.old p.new result }
    ensures within { IfOk result (λ _. Went 1 0 0 p.old p.new) }
{
    let node = p.begin();
    p.expect_word(b"constructor")?;
    p.parse_ident()?;
    p.parse_ident()?;
    p.close_at(node, Kind::ExternConstructor as u8, 0);
    Ok(())
}

// `extractor infallible term func`, infallible or not
fn extern_extractor(p: &mut Parser) -> Result<(), Stop>
    requires { Begins 4 p.old }
    ensures reads { Read (λ s. flagged s kind_extern_extractor (λ i. ate s word_infallible (i + 1) - (i + 1)) (expect-word s word-extractor ⊳ eat s word_infallible ⊳ parse_ident s ⊳ parse_ident s)) p.old p.new result }
    ensures within { IfOk result (λ _. Went 1 0 0 p.old p.new) }
{
    let node = p.begin();
    p.expect_word(b"extractor")?;
    let infallible = p.eat(b"infallible");
    p.parse_ident()?;
    p.parse_ident()?;
    p.close_at(node, Kind::ExternExtractor as u8, u8::from(infallible));
    Ok(())
}

// A constant's name and type.
fn extern_const(p: &mut Parser) -> Result<(), Stop>
    requires { Begins 4 p.old }
    ensures reads { Read (λ s. parent s kind_extern_const 0 (parse_const s ⊳ parse_ident s)) p.old p.new result }
    ensures within { IfOk result (λ _. Went 1 0 0 p.old p.new) }
{
    let node = p.begin();
    p.parse_const()?;
    p.parse_ident()?;
    p.close_at(node, Kind::ExternConst as u8, 0);
    Ok(())
}

// After `extern`.
pub fn parse_extern(p: &mut Parser) -> Result<(), Stop>
    requires { Begins 4 p.old }
    ensures reads { Read parse_extern p.old p.new result }
    ensures within { IfOk result (λ _. Went 1 0 0 p.old p.new) }
{
    let t = p.next_token();
    if t.is_word(p.source.text, b"constructor") {
        return extern_constructor(p);
    }
    if t.is_word(p.source.text, b"extractor") {
        return extern_extractor(p);
    }
    if t.is_word(p.source.text, b"const") {
        p.expect_word(b"const")?;
        return extern_const(p);
    }
    p.refuse_at(Ground::Extern)
}

// After `extractor`: `(term parameters)` and the template.
pub fn parse_etor(p: &mut Parser) -> Result<(), Stop>
    requires { Begins 4 p.old }
    ensures reads { Read parse_etor p.old p.new result }
    ensures within { IfOk result (λ _. Went 1 0 0 p.old p.new) }
{
    let node = p.begin();
    etor_head(p)?;
    parse_pattern(p, 64)?;
    p.close_at(node, Kind::Extractor as u8, 0);
    Ok(())
}

// `(term parameters)`
fn etor_head(p: &mut Parser) -> Result<(), Stop>
    requires { Begins 5 p.old }
    ensures reads { Read etor_head p.old p.new result }
    ensures within { IfOk result (λ _. Went 1 1 0 p.old p.new) }
{
    p.expect_lparen()?;
    p.parse_ident()?;
    p.parse_idents()?;
    p.expect_rparen()
}

// After `convert`: inner type, outer type, term.
pub fn parse_converter(p: &mut Parser) -> Result<(), Stop>
    requires { Begins 4 p.old }
    ensures reads { Read parse_converter p.old p.new result }
    ensures within { IfOk result (λ _. Went 1 0 0 p.old p.new) }
{
    let node = p.begin();
    p.parse_ident()?;
    p.parse_ident()?;
    p.parse_ident()?;
    p.close_at(node, Kind::Converter as u8, 0);
    Ok(())
}

// After `pragma`: a name, and no pragma is known.
pub fn parse_pragma(p: &mut Parser) -> Result<(), Stop>
    requires { p.old.state.next < 4294967296 }
    ensures reads { Read parse_pragma p.old p.new result }
    ensures within { IfOk result (λ _. Went 1 0 0 p.old p.new) }
{
    p.parse_pragma_name()
}
