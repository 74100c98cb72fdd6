// The values to write for a value: the fields of a record that has no label, once its own row is judged; or the value itself.
ghost use Rattle.std.specs.Prelude.{◌≡◌};
ghost use Rattle.wire_types.specs.Typed.{Sized};
ghost use Rattle.write_walk.specs.Descent.{Stands};
ghost use Rattle.write_walk.specs.Start.{Starts};

use super::own;
use format::Refusal;
use table::nodes;
use table::nodes::Kind;
use write_bytes::Pass;
use write_row::Progress;

// The values to write: the first one's node, how many there are, whether the first may be absent, and how far the writing has
// come: to its row. Or there are none: a record of no fields, done.
#[derive(Clone, Copy)]
pub enum Start {
    Values {
        node: usize,
        count: usize,
        omittable: bool,
        at: Progress,
    },
    Whole(Progress),
}

// Of a record that can be neither absent nor null, the own row is judged here, and its fields are left to write. Any other
// value is left to write as it is: `value` looks first whether it is absent or null.
// `omittable` is a Bool, as `fit_value` takes it.
pub fn begin(
    table: &[u8],
    rows: &[u64],
    pool: &[u8],
    out: &mut [u8],
    how: Pass,
    omittable: bool,
    node: usize,
    at: Progress,
) -> Result<Start, Refusal>
    requires { (Sized table.now) × Stands table.now pool.now rows.now at.row at.core node }
    ensures { Starts how.put table.now pool.now rows.now out.old at.core at.row node omittable out.new result }
{
    if omittable || !nodes::is_kind(table, node, Kind::Record) {
        return Ok(Start::Values {
            node,
            count: 1,
            omittable,
            at,
        });
    }
    let held = own::own_row(table, rows, pool, out, how, false, false, node, node, at)?;
    if held.count == 0 {
        return Ok(Start::Whole(held.at));
    }
    let absent = nodes::is_omittable(table, node + 1);
    Ok(Start::Values {
        node: node + 1,
        count: held.count as usize,
        omittable: absent,
        at: held.at,
    })
}
