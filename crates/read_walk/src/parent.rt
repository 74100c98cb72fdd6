// The row of a record or an array: judged and made here, whoever comes to it. `repeated`, whether it is an array, is a bool,
// since the definitions take it as a Bool (`parent_kind`).
ghost use Rattle.std.specs.Prelude.{◌≡◌, [], ◌∷◌, ◌+◌, ◌*◌, ◌≤◌, length};
ghost use Rattle.format.specs.Table.{node_at};
ghost use Rattle.read_pieces.specs.Pieces.{Inside};
ghost use Rattle.read_leaf.specs.State.{most_rows};
ghost use Rattle.read_leaf.specs.Meaning.{front_of};
ghost use Rattle.read_leaf.specs.Push.{put_of, put_in};
ghost use Rattle.rows.specs.Kind.{word_of};
ghost use Rattle.read_walk.specs.Parent.{parent_kind, parent_row, parent_by, Counts, MakesRow};

use format::Refusal;
use label::Cursor;
use read_leaf::front::Size;
use read_leaf::{Progress, front, push};
use rows::Kind;
use table::nodes;

// How many values it holds, and the core behind its label.
#[derive(Clone, Copy)]
pub struct Count {
    pub values: usize,
    pub core: Cursor,
}

// The same, with its row made.
#[derive(Clone, Copy)]
pub struct Parent {
    pub count: usize,
    pub at: Progress,
}

// An array's label says how many entries it holds. A record's fields are in the table, and it is unlabelled: a label in
// front of it is 0.
pub fn count_of(
    table: &[u8],
    m: &[u8],
    node: usize,
    repeated: bool,
    front: Option<i64>,
    c: Cursor,
) -> Result<Count, Refusal>
    requires { Inside m.now c × (11 + 4 * node ≤ length table.now) × ((node_at table.now node).kind ≡ parent_kind repeated) }
    ensures { Counts table.now m.now node repeated (front_of front) c result }
{
    if repeated {
        let (l, core) = front::own_label(m, front, c)?;
        let Size::Of(values) = front::size_of(l) else {
            return Err(Refusal::LabelPlace);
        };
        return Ok(Count { values, core });
    }
    if !front::is_bare(front) {
        return Err(Refusal::LabelPlace);
    }
    Ok(Count {
        values: nodes::argument_at(table, node),
        core: c,
    })
}

fn row_kind(repeated: bool) -> Kind
    ensures { word_of result ≡ parent_row repeated }
{
    if repeated {
        return Kind::Array;
    }
    Kind::Record
}

// The row of one that holds so many values, under its topmost node.
pub fn push_row(
    rows: &mut [u64],
    n: usize,
    repeated: bool,
    count: usize,
    top: usize,
    c: Cursor,
) -> Result<Parent, Refusal>
    ensures value { result ≡ parent_by (put_of (most_rows (length rows.old)) n) count c }
    ensures rows_after { rows.new ≡ put_in (most_rows (length rows.old)) rows.old n (parent_row repeated ∷ count ∷ 0 ∷ top ∷ []) }
{
    let next = push::push(rows, n, row_kind(repeated), count as u64, 0, top)?;
    Ok(Parent {
        count,
        at: Progress {
            core: c,
            rows: next,
        },
    })
}

// Judged, and its row made.
pub fn make_row(
    table: &[u8],
    m: &[u8],
    rows: &mut [u64],
    node: usize,
    top: usize,
    repeated: bool,
    front: Option<i64>,
    at: Progress,
) -> Result<Parent, Refusal>
    requires { Inside m.now at.core × (11 + 4 * node ≤ length table.now) × ((node_at table.now node).kind ≡ parent_kind repeated) }
    ensures { MakesRow table.now m.now rows.old rows.new node top repeated (front_of front) at.core at.rows result }
{
    let counted = count_of(table, m, node, repeated, front, at.core)?;
    push_row(rows, at.rows, repeated, counted.values, top, counted.core)
}
