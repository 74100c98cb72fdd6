// Reading one value that has nothing below it: its label and its bytes, and the row that shows it. `node` is the one that
// its row was read under, the topmost of the value. That the work holds the state of a walk is asked of callers, and is no
// type's invariant: after a refusal it does not hold.
#![tactic(auto)]

ghost use Rattle.std.specs.Prelude.{◌≡◌, ◌≤◌, ◌<◌};
ghost use Rattle.format.specs.Read.{in_message, leaf as leaf_of};
ghost use Rattle.format.specs.Table.{varint as varint_leaf, float64 as float_leaf, fixed as fixed_leaf};
ghost use Rattle.read_pieces.specs.Pieces.{Inside};
ghost use Rattle.rows.specs.Kind.{word_of};
ghost use Rattle.read_leaf.specs.State.{Ready, Walks};
ghost use Rattle.read_leaf.specs.Meaning.{front_of, held_leaf, held_of, text_row};
ghost use Rattle.read_leaf.specs.Promises.{PutsPart, Boolean, Unlabelled};

use format::{Place, Refusal};
use label::Cursor;
use rows::Kind;
use table::nodes::Leaf;

mod block;
pub mod front;
pub mod push;
mod text;

// The core as far as it has been read, and how many rows there are.
#[derive(Clone, Copy)]
pub struct Progress {
    pub core: Cursor,
    pub rows: usize,
}

// The message, and the modes that its header sets. `rows` and `work` stay parameters beside it: a struct with slices that are
// written to would owe the end of their loans in each contract. Nor is `Inside` its invariant: it is a fact of a cursor.
#[derive(Clone, Copy)]
pub struct Message<'a> {
    pub bytes: &'a [u8],
    pub modes: u64,
}

pub fn boolean(
    m: &[u8],
    rows: &mut [u64],
    node: usize,
    front: Option<i64>,
    at: Progress,
) -> Result<Progress, Refusal>
    requires { Inside m.now at.core }
    ensures { Boolean m.now node front at.core at.rows rows.old rows.new result }
{
    let (l, next) = front::own_label(m, front, at.core)?;
    if front::is_label(l, 0) {
        return push::row(rows, at.rows, Kind::False, 0, 0, node, next);
    }
    if front::is_label(l, 1) {
        return push::row(rows, at.rows, Kind::True, 0, 0, node, next);
    }
    Err(Refusal::LabelPlace)
}

// The row of a part that was read; the core has been read up to c.
fn put_part(
    rows: &mut [u64],
    n: usize,
    kind: Kind,
    node: usize,
    part: Place,
    c: Cursor,
) -> Result<Progress, Refusal>
    ensures { PutsPart n (word_of kind) node part c rows.old rows.new result }
{
    push::row(rows, n, kind, part.start as u64, part.size as u64, node, c)
}

// VARINT, FLOAT64 and FIXED have three functions: what is taken and what the row holds differ, and one function for them would
// be passed a closure for each.
fn varint(
    message: &Message,
    rows: &mut [u64],
    work: &mut [u32],
    key: usize,
    node: usize,
    front: Option<i64>,
    at: Progress,
) -> Result<Progress, Refusal>
    requires { Ready message.now.bytes.now work.old × (key < 32) × Inside message.now.bytes.now at.core }
    ensures { Unlabelled message.now.bytes.now message.now.modes key varint_leaf node front work.old work.new at.core at.rows rows.old rows.new result }
{
    if !front::is_bare(front) {
        return Err(Refusal::LabelPlace);
    }
    let (v, next) = block::take_number(message, work, key, at.core)?;
    push::row(
        rows,
        at.rows,
        Kind::Integer,
        label::word_of(v),
        0,
        node,
        next,
    )
}

fn float64(
    message: &Message,
    rows: &mut [u64],
    work: &mut [u32],
    key: usize,
    node: usize,
    front: Option<i64>,
    at: Progress,
) -> Result<Progress, Refusal>
    requires { Ready message.now.bytes.now work.old × (key < 32) × Inside message.now.bytes.now at.core }
    ensures { Unlabelled message.now.bytes.now message.now.modes key float_leaf node front work.old work.new at.core at.rows rows.old rows.new result }
{
    if !front::is_bare(front) {
        return Err(Refusal::LabelPlace);
    }
    let (part, next) = block::take_bytes(message, work, key, 8, at.core)?;
    push::row(
        rows,
        at.rows,
        Kind::Float,
        block::word_at(message.bytes, part.start),
        0,
        node,
        next,
    )
}

fn fixed(
    message: &Message,
    rows: &mut [u64],
    work: &mut [u32],
    key: usize,
    size: usize,
    node: usize,
    front: Option<i64>,
    at: Progress,
) -> Result<Progress, Refusal>
    requires { Ready message.now.bytes.now work.old × (key < 32) × Inside message.now.bytes.now at.core }
    ensures { Unlabelled message.now.bytes.now message.now.modes key (fixed_leaf size) node front work.old work.new at.core at.rows rows.old rows.new result }
{
    if !front::is_bare(front) {
        return Err(Refusal::LabelPlace);
    }
    let (part, next) = block::take_bytes(message, work, key, size, at.core)?;
    put_part(rows, at.rows, Kind::Fixed, node, part, next)
}

// The kind of a text's row.
fn text_kind(leaf: Leaf) -> Kind
    ensures { word_of result ≡ text_row (held_leaf leaf) }
{
    match leaf {
        Leaf::String => Kind::String,
        _ => Kind::Bytes,
    }
}

// The value of a key, which holds `leaf` and deduplicates or not. The three are no struct: handed on by value from call to
// call it is copied, and reading a text takes a tenth more instructions.
pub fn read_leaf(
    message: &Message,
    rows: &mut [u64],
    work: &mut [u32],
    key: usize,
    leaf: Leaf,
    dedup: bool,
    node: usize,
    front: Option<i64>,
    at: Progress,
) -> Result<Progress, Refusal>
    requires { Ready message.now.bytes.now work.old × (key < 32) × Inside message.now.bytes.now at.core }
    ensures { Walks message.now.bytes.now work.old work.new at.core at.rows rows.old rows.new result
        (leaf_of (in_message message.now.bytes.now) message.now.modes (λ k. held_of leaf dedup) key (held_leaf leaf) node (front_of front)) }
{
    match leaf {
        Leaf::String | Leaf::Bytes => {
            let (part, next) = text::text(message, work, key, leaf, dedup, front, at.core)?;
            put_part(rows, at.rows, text_kind(leaf), node, part, next)
        }
        Leaf::Varint => varint(message, rows, work, key, node, front, at),
        Leaf::Float64 => float64(message, rows, work, key, node, front, at),
        Leaf::Fixed(size) => fixed(message, rows, work, key, size, node, front, at),
    }
}
