// The row of a record or an array itself: it is judged, and its label is written. Every function that goes on to the values
// inside calls this first.
ghost use Rattle.std.specs.Prelude.{◌≡◌, ◌+◌, ◌*◌, ◌^◌, ◌≤◌, ◌<◌, length};
ghost use Rattle.write_walk.specs.Own.{IsHolder, Owns};

use format::Refusal;
use rows::Kind;
use table::nodes;
use write_bytes::Pass;
use write_row::{Progress, row};

// How many values it holds, and how far the writing has come: to the first one's row.
#[derive(Clone, Copy)]
pub struct Own {
    pub count: u64,
    pub at: Progress,
}

// The row is under `top`, the topmost node. A record has as many fields as its own node says, and a label only if it may be
// absent or null. An array's label is how many entries it has. A count of 2^63 or more is no label: there are not so many
// rows, so that a row will be missing and the array is refused in any case, whatever label was written for it.
// `array` and `labelled` are Bools, as `IsHolder` and `fit_wire` take them.
pub fn own_row(
    table: &[u8],
    rows: &[u64],
    pool: &[u8],
    out: &mut [u8],
    how: Pass,
    array: bool,
    labelled: bool,
    top: usize,
    node: usize,
    at: Progress,
) -> Result<Own, Refusal>
    requires { (at.row ≤ 8192) × (at.core < 2 ^ 32) × (11 + 4 * node ≤ length table.now) × IsHolder table.now node array }
    ensures { Owns how.put table.now pool.now rows.now out.old at.core at.row node top array labelled out.new result }
{
    if array {
        let Some(count) = row::word_at(rows, pool, top, Kind::Array, at.row) else {
            return Err(Refusal::Unfit(at.row));
        };
        let marked = write_row::mark(out, how, at, label::integer_of(count))?;
        return Ok(Own { count, at: marked });
    }
    let fields = nodes::argument_at(table, node);
    let r = write_row::record(rows, pool, out, how, labelled, fields, top, at)?;
    Ok(Own {
        count: fields as u64,
        at: r,
    })
}
