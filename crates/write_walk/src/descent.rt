// Records of one field and arrays of one entry, one in another: a loop goes through them, with no call for each.
ghost use Rattle.std.specs.Prelude.{◌≡◌, ◌+◌, ◌*◌, ◌^◌, ◌≤◌, ◌<◌, length};
ghost use Rattle.format.specs.Row.{integer_row};
ghost use Rattle.rows.specs.Kind.{word_of};
ghost use Rattle.wire_types.specs.Typed.{Sized};
ghost use Rattle.write_walk.specs.Descent.{is_array, IsOne, Alone, Stands, Descends};

use super::own;
use format::Refusal;
use rows::Kind;
use table::nodes;
use write_bytes::Pass;
use write_row::{Progress, row};

// Where the first value stands that is no such record or array: its node, whether it may be absent, and how far the writing
// has come: to its row.
#[derive(Clone, Copy)]
pub struct Descent {
    pub node: usize,
    pub omittable: bool,
    pub at: Progress,
}

// What holds one value alone.
#[derive(Clone, Copy, Debug, PartialEq, Eq)]
pub enum Holder {
    Record,
    Array,
}

impl Holder {
    // As a Bool, for `own_row` and `may_be_absent`: `IsHolder` and `absent_in` take one.
    #[tactic(auto)]
    fn is_array(self) -> bool
        ensures { result ≡ is_array self }
    {
        matches!(self, Holder::Array)
    }
}

// Of a row of this kind, whether its word is 1.
fn is_one(rows: &[u64], pool: &[u8], node: usize, kind: Kind, i: usize) -> bool
    requires { integer_row ≤ word_of kind }
    ensures { IsOne pool.now rows.now node (word_of kind) i result }
{
    let Some(n) = row::word_at(rows, pool, node, kind, i) else {
        return false;
    };
    n == 1
}

// What holds one value alone here, if anything does. This says only where to go on: the row is judged by `own_row`, as that
// of any other record or array.
fn holds_one(table: &[u8], rows: &[u64], pool: &[u8], node: usize, i: usize) -> Option<Holder>
    requires { 11 + 4 * node ≤ length table.now }
    ensures { Alone table.now pool.now rows.now node i result }
{
    // tests one by one, as in `wire`
    if nodes::is_kind(table, node, nodes::Kind::Record) {
        let alone = nodes::argument_at(table, node) == 1
            && is_one(rows, pool, node, Kind::Record, i);
        return alone.then_some(Holder::Record);
    }
    if nodes::is_kind(table, node, nodes::Kind::Array) {
        return is_one(rows, pool, node, Kind::Array, i).then_some(Holder::Array);
    }
    None
}

// This stops at a value that may be absent: its row says first whether it is. A record or an array that it goes through is
// under no NULLABLE, and so its topmost node is its own.
// `omittable` is a Bool, as `fit_value` and `absent_in` have it.
pub fn descend(
    table: &[u8],
    rows: &[u64],
    pool: &[u8],
    out: &mut [u8],
    how: Pass,
    omittable: bool,
    node: usize,
    at: Progress,
) -> Result<Descent, Refusal>
    requires { (Sized table.now) × Stands table.now pool.now rows.now at.row at.core node }
    ensures { Descends how.put table.now pool.now rows.now out.old at.core at.row node omittable out.new result }
{
    let mut absent = omittable;
    let mut here = node;
    let mut so_far = at;
    // down from holder to holder, as far as the rows say: there is no range to go over
    while !absent {
        let Some(holder) = holds_one(table, rows, pool, here, so_far.row) else {
            return Ok(Descent {
                node: here,
                omittable: false,
                at: so_far,
            });
        };
        let array = holder.is_array();
        let held = own::own_row(
            table, rows, pool, out, how, array, false, here, here, so_far,
        )?;
        here += 1;
        so_far = held.at;
        absent = wire_types::may_be_absent(table, here, array);
    }
    Ok(Descent {
        node: here,
        omittable: true,
        at: so_far,
    })
}
