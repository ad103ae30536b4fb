// Names: their bytes in the text, and which are identifiers.
ghost use Rattle.std.specs.Prelude.{◌≡◌};
ghost use Rattle.std.specs.List.{list_all};
ghost use Rattle.trees.specs.Names.{spelled};
ghost use Rattle.records.specs.Grounds.{code};
ghost use Rattle.tokens.specs.Ident.{letter, starts, goes_on, all_go_on, ident_refusal};

use crate::all_pass;
use records::Ground;

// The bytes of the text at a range, start * 2^32 + length; what lies past the text's end is left out.
#[tactic(auto, using(crate::proofs::NameLaws::spelled_is))]
pub fn spelling(text: &[u8], range: u64) -> &[u8]
    ensures { result.now ≡ spelled text.now range }
{
    let start = (range / 4294967296) as usize;
    let len = (range % 4294967296) as usize;
    let from = start.min(text.len());
    let upto = from + len.min(text.len() - from);
    &text[from..upto]
}

// The tests of a byte are all made and joined by `|` and `&`, so that the compiler has no branch to make.
#[tactic(auto, unfolding(crate::specs::Ident::letter))]
fn is_letter(c: u8) -> bool
    ensures { result ≡ letter c }
{
    ((b'A' <= c) & (c <= b'Z')) | ((b'a' <= c) & (c <= b'z'))
}

#[tactic(auto, unfolding(crate::specs::Ident::starts))]
fn may_start(c: u8) -> bool
    ensures { result ≡ starts c }
{
    is_letter(c) | ((c == b'_') | (c == b'$'))
}

#[tactic(auto, unfolding(crate::specs::Ident::goes_on))]
fn may_follow(c: u8) -> bool
    ensures { result ≡ goes_on c }
{
    may_start(c) | ((c == b'.') | ((b'0' <= c) & (c <= b'9')))
}

// Of a short name the first wrong byte ends the loop; a long one is judged many bytes at once, which does not pay for a short one.
fn all_follow_short(s: &[u8]) -> bool
    ensures { result ≡ list_all goes_on s.now }
{
    s.iter().all(|c| may_follow(*c))
}

#[tactic(auto, using(crate::proofs::NameLaws::all_are))]
fn may_all_follow(s: &[u8]) -> bool
    ensures { result ≡ all_go_on s.now }
{
    if s.len() < 24 {
        return all_follow_short(s);
    }
    all_pass(s, may_follow)
}

// str_to_ident of the Rust: whether s is an identifier, and otherwise why not. A byte that may start may follow too, so
// the first one is asked again with the others.
pub fn check_ident(s: &[u8]) -> Result<(), Ground>
    ensures { code result ≡ ident_refusal s.now }
{
    if s.is_empty() {
        return Err(Ground::EmptyIdentifier);
    }
    if !may_start(s[0]) {
        return Err(Ground::FirstCharacter);
    }
    if !may_all_follow(s) {
        return Err(Ground::LaterCharacter);
    }
    Ok(())
}
