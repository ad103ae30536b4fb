// A record of the source as it is written, and what it calls.
ghost use Rattle.std.specs.Prelude.{◌≡◌, ◌+◌, ◌<◌, length, drop, IfSome};
ghost use Rattle.trees.specs.Names.{spelled};
ghost use Rattle.records.specs.Slots.{rec_at, recs};
ghost use Rattle.expansion.specs.Templates.{position};
ghost use Rattle.expansion.specs.Flat.{stands_at};
ghost use Rattle.opening.specs.Made.{params_at, Params, Located, Makeable, Sought, MadeAt, call_number};

use crate::ends::Forest;
use judging::table::Extractors;
use names::row::Names;
use records::rec_at;
use trees::{Kind, Rec};

// The parameters of a template: the index of the first of them, and how many they are.
#[derive(Clone, Copy)]
pub struct Parameters {
    pub first: usize,
    pub count: usize,
}

// A record that is written, and the index of the source at which to go on.
#[derive(Clone, Copy)]
pub struct Made {
    pub rec: Rec,
    pub next: usize,
}

// The number of the first parameter that has the name w.
fn parameter(text: &[u8], src: &[u8], params: Parameters, w: u64) -> Option<usize>
    requires { Params src.now params.first params.count }
    ensures { Sought params.count (position text.now (spelled text.now w) (params_at src.now params.first params.count)) result }
{
    let names = Names {
        text,
        src,
        from: params.first,
        n: params.count,
    };
    names.seek(w)
}

// The parameter that the record k stands for.
fn stands_at(text: &[u8], src: &[u8], params: Parameters, k: usize) -> Option<usize>
    requires params_there { Params src.now params.first params.count }
    requires located { Located src.now k }
    ensures { Sought params.count (stands_at text.now (params_at src.now params.first params.count) (rec_at src.now k) (drop (k + 1) (recs src.now))) result }
{
    let r = rec_at(src, k);
    if r.kind == Kind::PatternVar as u8 {
        let name = rec_at(src, k + 1);
        return parameter(text, src, params, name.word1);
    }
    if r.kind != Kind::PatternBind as u8 {
        return None;
    }
    let name = rec_at(src, k + 1);
    let below = rec_at(src, k + 2);
    if below.kind != Kind::PatternWildcard as u8 {
        return None;
    }
    parameter(text, src, params, name.word1)
}

// The record k, which is no call, as it is written.
pub fn made_at(text: &[u8], source: &Forest, params: Parameters, k: usize) -> Made
    requires { Makeable source.now.records.now source.now.ends.now params.first params.count k }
    ensures { MadeAt text.now source.now.records.now params.first params.count k result }
{
    let r = rec_at(source.records, k);
    let Some(j) = stands_at(text, source.records, params, k) else {
        return Made {
            rec: r,
            next: k + 1,
        };
    };
    Made {
        rec: Rec {
            kind: Kind::PatternMacroArg as u8,
            flags: 0,
            count: 0,
            pos: r.pos,
            word1: j as u64,
            word2: 0,
        },
        next: source.end_at(k),
    }
}

// The number of the extractor that the record k calls.
pub fn call_at(known: &Extractors, src: &[u8], k: usize) -> Option<usize>
    requires { Located src.now k }
    ensures number { result ≡ call_number known.now.text.now known.now.rows.now src.now k }
    ensures inside { IfSome result (λ x. x < length known.now.rows.now) }
{
    let r = rec_at(src, k);
    if r.kind != Kind::PatternTerm as u8 {
        return None;
    }
    let name = rec_at(src, k + 1);
    known.look_up(name.word1)
}
