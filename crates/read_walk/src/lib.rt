// The walk over the nodes of a checked table: a value asks for its fields or its entries, and those may be records and
// arrays again.
#![tactic(auto)]

ghost use Rattle.std.specs.Prelude.{◌≡◌, false, ◌+◌, ◌*◌, ◌≤◌, ◌<◌, length};
ghost use Rattle.format.specs.Table.{node_at, BLOCK};
ghost use Rattle.read_pieces.specs.Pieces.{Inside};
ghost use Rattle.read_leaf.specs.State.{Ready};
ghost use Rattle.read_leaf.specs.Meaning.{front_of};
ghost use Rattle.wire_types.specs.Typed.{Sized, FitsNode, FitsWire};
ghost use Rattle.wire_types.specs.Run.{FitRun};
ghost use Rattle.read_walk.specs.Parent.{parent_kind};
ghost use Rattle.read_walk.specs.Walk.{ReadsValue, ReadsWire, ReadsValues};

pub mod descent;
pub mod opening;
pub mod parent;

use format::Refusal;
use label::Cursor;
use opening::Seen;
use read_leaf::{Message, Progress, push};
use table::nodes;
use table::nodes::Kind;

// The value of a BLOCK.
fn block(
    table: &[u8],
    message: &Message,
    rows: &mut [u64],
    work: &mut [u32],
    node: usize,
    top: usize,
    front: Option<i64>,
    at: Progress,
) -> Result<Progress, Refusal>
    requires { Ready message.now.bytes.now work.old × Inside message.now.bytes.now at.core × ((node_at table.now node).kind ≡ BLOCK) × ((node_at table.now node).argument < 32) × (15 + 4 * node ≤ length table.now) }
    ensures { ReadsWire message.now.bytes.now work.old work.new rows.old rows.new at.core at.rows result table.now message.now.modes node top (front_of front) }
{
    let key = nodes::argument_at(table, node);
    let leaf = nodes::leaf_at(table, node + 1);
    let dedup = nodes::deduplicates(table, node);
    read_leaf::read_leaf(message, rows, work, key, leaf, dedup, top, front, at)
}

// The value at a node, its topmost: the row of what is absent or null is under it too. A path may have `left` nodes from
// this one on, itself among them: 32 at the root, and one less below each node. A checked table has no longer one, so that
// this ends.
#[cycle(walk)]
fn value(
    table: &[u8],
    message: &Message,
    rows: &mut [u64],
    work: &mut [u32],
    node: usize,
    omittable: bool,
    at: Progress,
    left: usize,
) -> Result<Progress, Refusal>
    requires { Ready message.now.bytes.now work.old × Inside message.now.bytes.now at.core × Sized table.now × FitsNode table.now work.old left node }
    ensures { ReadsValue message.now.bytes.now work.old work.new rows.old rows.new at.core at.rows result table.now message.now.modes node omittable }
{
    let nullable = nodes::is_kind(table, node, Kind::Nullable);
    let (seen, next) = opening::open(message, omittable, nullable, at.core)?;
    match seen {
        Seen::Gone(kind) => push::row(rows, at.rows, kind, 0, 0, node, next),
        Seen::Here(front) => {
            let own = wire_types::below(nullable, node);
            let path = wire_types::path_below(nullable, left);
            let here = Progress {
                core: next,
                rows: at.rows,
            };
            wire(table, message, rows, work, own, node, front, here, path)
        }
    }
}

// By the kind of the value's own node; its row is under the topmost, `top`. `front` is a label in front of it that has been
// read.
#[cycle(walk)]
fn wire(
    table: &[u8],
    message: &Message,
    rows: &mut [u64],
    work: &mut [u32],
    node: usize,
    top: usize,
    front: Option<i64>,
    at: Progress,
    left: usize,
) -> Result<Progress, Refusal>
    requires { Ready message.now.bytes.now work.old × Inside message.now.bytes.now at.core × Sized table.now × FitsWire table.now work.old left node }
    ensures { ReadsWire message.now.bytes.now work.old work.new rows.old rows.new at.core at.rows result table.now message.now.modes node top (front_of front) }
{
    // tests one by one: a match on the kind jumps through a table, and each value took a tenth longer
    if nodes::is_kind(table, node, Kind::Boolean) {
        return read_leaf::boolean(message.bytes, rows, top, front, at);
    }
    if nodes::is_kind(table, node, Kind::Record) {
        return holder(
            table, message, rows, work, node, top, false, front, at, left,
        );
    }
    if nodes::is_kind(table, node, Kind::Array) {
        return holder(table, message, rows, work, node, top, true, front, at, left);
    }
    block(table, message, rows, work, node, top, front, at)
}

// A record or an array: its row, and then what it holds. Entries are walked one by one, however many the label says there
// are. `repeated`, here and below, is a bool, since the definitions take it as a Bool (`parent_kind`).
#[cycle(walk)]
fn holder(
    table: &[u8],
    message: &Message,
    rows: &mut [u64],
    work: &mut [u32],
    node: usize,
    top: usize,
    repeated: bool,
    front: Option<i64>,
    at: Progress,
    left: usize,
) -> Result<Progress, Refusal>
    requires { Ready message.now.bytes.now work.old × Inside message.now.bytes.now at.core × Sized table.now × FitsWire table.now work.old left node × ((node_at table.now node).kind ≡ parent_kind repeated) }
    ensures { ReadsWire message.now.bytes.now work.old work.new rows.old rows.new at.core at.rows result table.now message.now.modes node top (front_of front) }
{
    let p = parent::make_row(table, message.bytes, rows, node, top, repeated, front, at)?;
    // no call for one that holds nothing
    if p.count == 0 {
        return Ok(p.at);
    }
    values(
        table,
        message,
        rows,
        work,
        node + 1,
        repeated,
        p.at,
        left - 1,
        p.count,
    )
}

// So many values: entries, which all have the type at `node`, or fields, the first of them at `node`. One loop for both,
// so that a call is made for what a record or an array holds, and none for each value, nor for what holds one value alone.
#[cycle(walk)]
fn values(
    table: &[u8],
    message: &Message,
    rows: &mut [u64],
    work: &mut [u32],
    node: usize,
    repeated: bool,
    at: Progress,
    left: usize,
    count: usize,
) -> Result<Progress, Refusal>
    requires { Ready message.now.bytes.now work.old × Inside message.now.bytes.now at.core × Sized table.now × FitRun table.now work.old left node repeated count }
    ensures { ReadsValues message.now.bytes.now work.old work.new rows.old rows.new at.core at.rows result table.now message.now.modes node repeated count }
{
    // once, and not in each turn
    let bytes = message.bytes;
    let mut current = node;
    let mut reached = at;
    for _ in 0..count {
        let omittable = wire_types::may_be_absent(table, current, repeated);
        let end = wire_types::next_node(work, current, repeated);
        let d = descent::descend(table, bytes, rows, current, omittable, reached, left)?;
        let r = value(table, message, rows, work, d.node, d.absent, d.at, d.left)?;
        current = end;
        reached = r;
    }
    Ok(reached)
}

// The whole tree: the value at the table's root, from the first row on.
pub fn root(
    table: &[u8],
    message: &Message,
    rows: &mut [u64],
    work: &mut [u32],
    c: Cursor,
) -> Result<Progress, Refusal>
    requires { Ready message.now.bytes.now work.old × Inside message.now.bytes.now c × Sized table.now × FitsNode table.now work.old 32 0 }
    ensures { ReadsValue message.now.bytes.now work.old work.new rows.old rows.new c 0 result table.now message.now.modes 0 false }
{
    let at = Progress { core: c, rows: 0 };
    values(table, message, rows, work, 0, true, at, 32, 1)
}
