// One pass over the rows, along the nodes of a checked table: a value asks for its fields or its entries, and those may be
// records and arrays again.
// The flags `array`, `labelled`, `omittable` and `repeated` are each a Bool here, since the definitions take each as a Bool:
// `IsHolder`, `fit_wire`, `fit_value` and `absent_in`.
#![tactic(auto)]

ghost use Rattle.std.specs.Prelude.{◌≡◌, false, ◌+◌, ◌*◌, ◌≤◌, ◌<◌, ◌^◌, length};
ghost use Rattle.format.specs.Table.{node_at, BLOCK};
ghost use Rattle.wire_types.specs.Typed.{Sized, FitsNode, FitsWire};
ghost use Rattle.wire_types.specs.Run.{FitRun};
ghost use Rattle.write_row.specs.Writes.{Holds};
ghost use Rattle.write_walk.specs.Own.{IsHolder};
ghost use Rattle.write_walk.specs.Pass.{WritesNode, WritesWire, WritesValues};
ghost use Rattle.write_walk.specs.Sequence.{FitSequence, WritesSequence};

use format::Refusal;
use start::Start;
use table::nodes;
use table::nodes::Kind;
use write_bytes::Pass;
use write_row::{Opening, Progress};

pub mod descent;
pub mod own;
pub mod start;

// The value of a BLOCK.
fn block(
    table: &[u8],
    rows: &[u64],
    pool: &[u8],
    out: &mut [u8],
    work: &mut [u32],
    how: Pass,
    labelled: bool,
    top: usize,
    node: usize,
    at: Progress,
) -> Result<Progress, Refusal>
    requires { (Holds pool.now rows.now work.old at.row at.core) × ((node_at table.now node).kind ≡ BLOCK) × ((node_at table.now node).argument < 32) × (15 + 4 * node ≤ length table.now) }
    ensures { WritesWire how table.now pool.now rows.now out.old work.old at.core out.new work.new result at.row node top labelled }
{
    let key = nodes::argument_at(table, node);
    let leaf = nodes::leaf_at(table, node + 1);
    let numbered = nodes::deduplicates(table, node) & how.numbers;
    write_row::leaf::leaf(
        rows, pool, out, work, how, leaf, numbered, labelled, key, top, at,
    )
}

// The value at a node. A path may have `left` nodes from this one on, itself among them: 32 at the root, and one less below
// each node. A checked table has no longer one, so that this ends.
#[cycle(walk)]
fn value(
    table: &[u8],
    rows: &[u64],
    pool: &[u8],
    out: &mut [u8],
    work: &mut [u32],
    how: Pass,
    omittable: bool,
    node: usize,
    at: Progress,
    left: usize,
) -> Result<Progress, Refusal>
    requires { (Holds pool.now rows.now work.old at.row at.core) × Sized table.now × FitsNode table.now work.old left node }
    ensures { WritesNode how table.now pool.now rows.now out.old work.old at.core out.new work.new result at.row node omittable }
{
    let nullable = nodes::is_kind(table, node, Kind::Nullable);
    let first = write_row::open_value(rows, pool, out, how, omittable, nullable, node, at)?;
    match first {
        Opening::Gone(done) => Ok(done),
        Opening::Here(labelled) => {
            let own = wire_types::below(nullable, node);
            let path = wire_types::path_below(nullable, left);
            wire(
                table, rows, pool, out, work, how, labelled, node, own, at, path,
            )
        }
    }
}

// By the kind of the value's own node, the commonest first. Its row is under `top`, the topmost node: its own, or the NULLABLE
// above it.
#[cycle(walk)]
fn wire(
    table: &[u8],
    rows: &[u64],
    pool: &[u8],
    out: &mut [u8],
    work: &mut [u32],
    how: Pass,
    labelled: bool,
    top: usize,
    node: usize,
    at: Progress,
    left: usize,
) -> Result<Progress, Refusal>
    requires { (Holds pool.now rows.now work.old at.row at.core) × Sized table.now × FitsWire table.now work.old left node }
    ensures { WritesWire how table.now pool.now rows.now out.old work.old at.core out.new work.new result at.row node top labelled }
{
    // tests one by one: a match on the kind jumps through a table, which takes longer
    if nodes::is_kind(table, node, Kind::Block) {
        return block(table, rows, pool, out, work, how, labelled, top, node, at);
    }
    if nodes::is_kind(table, node, Kind::Boolean) {
        return write_row::boolean(rows, pool, out, how, top, at);
    }
    if nodes::is_kind(table, node, Kind::Record) {
        return holder(
            table, rows, pool, out, work, how, false, labelled, top, node, at, left,
        );
    }
    holder(
        table, rows, pool, out, work, how, true, labelled, top, node, at, left,
    )
}

// A record, or else an array: its own row, and then the values that it holds.
#[cycle(walk)]
fn holder(
    table: &[u8],
    rows: &[u64],
    pool: &[u8],
    out: &mut [u8],
    work: &mut [u32],
    how: Pass,
    array: bool,
    labelled: bool,
    top: usize,
    node: usize,
    at: Progress,
    left: usize,
) -> Result<Progress, Refusal>
    requires { (Holds pool.now rows.now work.old at.row at.core) × Sized table.now × FitsWire table.now work.old left node × IsHolder table.now node array }
    ensures { WritesWire how table.now pool.now rows.now out.old work.old at.core out.new work.new result at.row node top labelled }
{
    let held = own::own_row(table, rows, pool, out, how, array, labelled, top, node, at)?;
    values(
        held.at,
        node + 1,
        held.count,
        array,
        table,
        rows,
        pool,
        out,
        work,
        how,
        left - 1,
    )
}

// `count` values, one after another: the fields of a record, the first of them at `node`; or the one value at `node`. The
// table says of each field behind the first whether it may be absent, and `omittable` says it of the first: a value that is
// no field is not absent, whatever its node says.
#[cycle(walk)]
fn fields(
    table: &[u8],
    rows: &[u64],
    pool: &[u8],
    out: &mut [u8],
    work: &mut [u32],
    how: Pass,
    omittable: bool,
    node: usize,
    count: usize,
    at: Progress,
    left: usize,
) -> Result<Progress, Refusal>
    requires { (Holds pool.now rows.now work.old at.row at.core) × Sized table.now × FitSequence table.now work.old left node count }
    ensures { WritesSequence how table.now pool.now rows.now out.old work.old at.core out.new work.new result at.row node omittable count }
{
    let mut k = count;
    let mut here = node;
    let mut so_far = at;
    let mut absent = omittable;
    // The test stands in the middle, since there is no node to look at behind the last value: a `for` would be no
    // plainer, as it would need the call of `value` twice, for the first one and for the others.
    loop {
        let done = value(
            table, rows, pool, out, work, how, absent, here, so_far, left,
        )?;
        k -= 1;
        if k == 0 {
            return Ok(done);
        }
        here = nodes::end_at(work, here);
        absent = nodes::is_omittable(table, here);
        so_far = done;
    }
}

// The value at a node, as `value` writes it; but `begin` writes a record's own row, and its fields are written from here, so
// that there is no call of `holder` and of `values` for each record of an array.
#[cycle(walk)]
fn value_in_place(
    table: &[u8],
    rows: &[u64],
    pool: &[u8],
    out: &mut [u8],
    work: &mut [u32],
    how: Pass,
    omittable: bool,
    node: usize,
    at: Progress,
    left: usize,
) -> Result<Progress, Refusal>
    requires { (Holds pool.now rows.now work.old at.row at.core) × Sized table.now × FitsNode table.now work.old left node }
    ensures { WritesNode how table.now pool.now rows.now out.old work.old at.core out.new work.new result at.row node omittable }
{
    let s = start::begin(table, rows, pool, out, how, omittable, node, at)?;
    match s {
        Start::Whole(done) => Ok(done),
        Start::Values {
            node: first,
            count,
            omittable: absent,
            at: first_row,
        } => fields(
            table,
            rows,
            pool,
            out,
            work,
            how,
            absent,
            first,
            count,
            first_row,
            left - (first - node),
        ),
    }
}

// `count` values: the entries of an array, which all have the type at `node`, or the fields of a record, the first of them at
// `node`. One loop for both, so that there is one call for what a record or an array holds. Of each value, `descend` first
// goes through the records of one field and the arrays of one entry that it begins with, and `value_in_place` writes what
// is inside.
// The arguments that differ from call to call come first: they go in registers.
// `rows` and `pool` stay two of them, here and in write_row and writer: tried as one struct, by reference (texts and records took 3
// to 5 in 100 longer) and by value (texts and pairs of entries, 2).
// An array's count may be any word: if there are fewer rows, the first one that is missing is refused.
#[cycle(walk)]
fn values(
    at: Progress,
    node: usize,
    count: u64,
    repeated: bool,
    table: &[u8],
    rows: &[u64],
    pool: &[u8],
    out: &mut [u8],
    work: &mut [u32],
    how: Pass,
    left: usize,
) -> Result<Progress, Refusal>
    requires { (Holds pool.now rows.now work.old at.row at.core) × Sized table.now × FitRun table.now work.old left node repeated count }
    ensures { WritesValues how table.now pool.now rows.now out.old work.old at.core out.new work.new result at.row node repeated count }
{
    let mut here = node;
    let mut so_far = at;
    for k in 0..count {
        let omittable = wire_types::may_be_absent(table, here, repeated);
        let after = wire_types::next_node(work, here, repeated);
        let d = descent::descend(table, rows, pool, out, how, omittable, here, so_far)?;
        let path = left - (d.node - here);
        let r = value_in_place(
            table,
            rows,
            pool,
            out,
            work,
            how,
            d.omittable,
            d.node,
            d.at,
            path,
        )?;
        here = after;
        so_far = r;
    }
    Ok(so_far)
}

// The whole tree: the value at the table's root, from the first row on.
pub fn root(
    table: &[u8],
    rows: &[u64],
    pool: &[u8],
    out: &mut [u8],
    work: &mut [u32],
    how: Pass,
    core: usize,
) -> Result<Progress, Refusal>
    requires { (Holds pool.now rows.now work.old 0 core) × Sized table.now × FitsNode table.now work.old 32 0 }
    ensures { WritesNode how table.now pool.now rows.now out.old work.old core out.new work.new result 0 0 false }
{
    let at = Progress { row: 0, core };
    values(at, 0, 1, true, table, rows, pool, out, work, how, 32)
}
