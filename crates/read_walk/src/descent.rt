// Records of one field and arrays of one entry, one in another, are gone through by a loop: a call for each of them takes
// most of the time in a tree that is deep and narrow.
ghost use Rattle.std.specs.Prelude.{◌≡◌, ◌+◌, ◌*◌, ◌≤◌, length};
ghost use Rattle.format.specs.Table.{node_at};
ghost use Rattle.read_pieces.specs.Pieces.{Inside};
ghost use Rattle.wire_types.specs.Typed.{Sized};
ghost use Rattle.read_walk.specs.Parent.{parent_kind};
ghost use Rattle.read_walk.specs.Descent.{Holding, Typed, Descends};

use super::parent;
use format::Refusal;
use label::Cursor;
use read_leaf::Progress;
use table::nodes;
use table::nodes::Kind;

// A record or an array that holds one value and no more: whether it is an array, and the core behind its label.
#[derive(Clone, Copy)]
pub struct Holder {
    pub repeated: bool,
    pub core: Cursor,
}

// The first value inside that is no such holder: its node, whether it may be absent, how far all has been read, and the
// path that is left.
#[derive(Clone, Copy)]
pub struct Descent {
    pub node: usize,
    pub absent: bool,
    pub at: Progress,
    pub left: usize,
}

// By how many values it holds. Whatever is wrong with its label is left to who reads the value.
fn holder_of(table: &[u8], m: &[u8], node: usize, repeated: bool, c: Cursor) -> Option<Holder>
    requires { Inside m.now c × (11 + 4 * node ≤ length table.now) × ((node_at table.now node).kind ≡ parent_kind repeated) }
    ensures { Holding table.now m.now node c result }
{
    let counted = parent::count_of(table, m, node, repeated, None, c).ok()?;
    if counted.values == 1 {
        return Some(Holder {
            repeated,
            core: counted.core,
        });
    }
    None
}

fn holds_one(table: &[u8], m: &[u8], node: usize, c: Cursor) -> Option<Holder>
    requires { Inside m.now c × (11 + 4 * node ≤ length table.now) }
    ensures { Holding table.now m.now node c result }
{
    // tests one by one, as in `wire`
    if nodes::is_kind(table, node, Kind::Record) {
        return holder_of(table, m, node, false, c);
    }
    if nodes::is_kind(table, node, Kind::Array) {
        return holder_of(table, m, node, true, c);
    }
    None
}

// What may be absent is no holder, nor is what may be null: a label stands in front of it. So a holder's topmost node is its
// own.
pub fn descend(
    table: &[u8],
    m: &[u8],
    rows: &mut [u64],
    node: usize,
    omittable: bool,
    at: Progress,
    left: usize,
) -> Result<Descent, Refusal>
    requires { Inside m.now at.core × Sized table.now × Typed table.now m.now left node }
    ensures { Descends table.now m.now rows.old rows.new left node omittable at.core at.rows result }
{
    let mut current = node;
    let mut absent = omittable;
    let mut reached = at;
    let mut path = left;
    // down from holder to holder, as far as the labels say: there is no range to go over
    while !absent {
        let Some(holder) = holds_one(table, m, current, reached.core) else {
            return Ok(Descent {
                node: current,
                absent: false,
                at: reached,
                left: path,
            });
        };
        let p = parent::push_row(rows, reached.rows, holder.repeated, 1, current, holder.core)?;
        current += 1;
        reached = p.at;
        path -= 1;
        absent = wire_types::may_be_absent(table, current, holder.repeated);
    }
    Ok(Descent {
        node: current,
        absent: true,
        at: reached,
        left: path,
    })
}
