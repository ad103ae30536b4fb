// Filling the store with the opened templates, in list order.
ghost use Rattle.std.specs.Prelude.{◌≡◌, ◌≤◌, ◌<◌, length, get_or};
ghost use Rattle.records.specs.Slots.{slots};
ghost use Rattle.opening.specs.Store.{Source, Stored};
ghost use Rattle.opening.specs.Lent.{SameLent};

use crate::Side;
use crate::ends::Forest;
use crate::lent::Outputs;
use crate::made::Parameters;
use crate::walk::Opening;
use judging::table::Extractors;

// Fills the store, where it is said that the first template begins at the slot 0: how many records it then has, if there is space.
fn fill_from(
    known: &Extractors,
    source: &Forest,
    starts: &mut [usize],
    outputs: &mut Outputs,
    space: usize,
) -> Option<usize>
    requires sourced { Source known.now.text.now known.now.rows.now source.now.records.now source.now.ends.now }
    requires starts_long { length known.now.rows.now < length starts.old }
    requires space_there { space ≤ slots outputs.old.store.now }
    requires space_small { space ≤ 65536 }
    requires begun { get_or starts.old 0 0 ≡ 0 }
    ensures stored { Stored space known.now.text.now known.now.rows.now source.now.records.now outputs.old.store.now outputs.old.out.now starts.new outputs.new.store.now outputs.new.out.now result }
    ensures same { SameLent outputs.old outputs.new }
{
    let mut used = 0;
    for (x, row) in known.rows.iter().enumerate() {
        let opening = Opening {
            known: Extractors::first_of(known.text, known.rows, x),
            starts,
            source: *source,
            params: Parameters {
                first: row.place + 2,
                count: row.arity,
            },
            to: Side::Store,
            space,
        };
        used = opening.open_one(outputs.store, outputs.out, row.place + 2 + row.arity, used)?;
        starts[x + 1] = used;
    }
    Some(used)
}

// Fills the store: how many records it then has, if there is space.
pub fn fill_store(
    known: &Extractors,
    source: &Forest,
    starts: &mut [usize],
    outputs: &mut Outputs,
    space: usize,
) -> Option<usize>
    requires sourced { Source known.now.text.now known.now.rows.now source.now.records.now source.now.ends.now }
    requires starts_long { length known.now.rows.now < length starts.old }
    requires space_there { space ≤ slots outputs.old.store.now }
    requires space_small { space ≤ 65536 }
    ensures stored { Stored space known.now.text.now known.now.rows.now source.now.records.now outputs.old.store.now outputs.old.out.now starts.new outputs.new.store.now outputs.new.out.now result }
    ensures same { SameLent outputs.old outputs.new }
{
    starts[0] = 0;
    fill_from(known, source, starts, outputs, space)
}
