// The row of a value that a BLOCK holds, under the topmost node, which is the BLOCK or a NULLABLE above it.
ghost use Rattle.std.specs.Prelude.{◌≡◌, false, ◌+◌, ◌&&◌, ◌||◌, ◌<◌, ◌≤◌, length};
ghost use Rattle.std.proofs.Math.Seq.{slice};
ghost use Rattle.format.specs.Utf8.{is_text};
ghost use Rattle.format.specs.Table.{varint, float64, fixed};
ghost use Rattle.format.specs.Write.{fit_leaf};
ghost use Rattle.rows.specs.Kind.{word_of};
ghost use Rattle.write_row.specs.Rest.{rest_of};
ghost use Rattle.write_row.specs.Fits.{text_row, text_leaf};
ghost use Rattle.write_row.specs.Writes.{Holds};
ghost use Rattle.write_row.specs.Row.{WritesValue, WritesText, leaf_of, is_judged};

use super::{Progress, next, row};
use format::{Place, Refusal};
use label::words;
use rows::Kind;
use table::nodes::Leaf;
use write_bytes::as_bytes::Slice;
use write_bytes::encoded::{Label, Word};
use write_bytes::{Pass, event, text};

// Whether a text may be written: it is UTF-8, or `exempt` says that it is not to be judged.
fn passes(pool: &[u8], exempt: bool, place: Place) -> bool
    requires { place.start + place.size ≤ length pool.now }
    ensures { result ≡ (exempt || is_text (slice place.start (place.start + place.size) pool.now)) }
{
    exempt || utf8::is_text(pool, place.start, place.start + place.size)
}

// Is the text of this leaf, one of the two that hold texts, judged?
fn is_judged(leaf: Leaf) -> bool
    ensures { result ≡ is_judged leaf }
{
    matches!(leaf, Leaf::String)
}

fn kind_of(judged: bool) -> Kind
    ensures { word_of result ≡ text_row judged }
{
    if judged { Kind::String } else { Kind::Bytes }
}

// A STRING, whose text is judged and may be ended by a 00, or BYTES. The pass that puts does not judge again: the one that
// counts has done so.
fn text(
    rows: &[u64],
    pool: &[u8],
    out: &mut [u8],
    work: &mut [u32],
    how: Pass,
    numbered: bool,
    judged: bool,
    key: usize,
    node: usize,
    at: Progress,
) -> Result<Progress, Refusal>
    requires { (Holds pool.now rows.now work.old at.row at.core) × (key < 32) }
    ensures { WritesText how numbered (judged && how.ends) key pool.now rows.now out.old work.old at.core out.new work.new result (fit_leaf key (text_leaf judged) node false (rest_of pool.now rows.now at.row)) }
{
    let ended = judged & how.ends;
    let found = rows::place_under(rows, pool, node as u64, u64::from(kind_of(judged)), at.row);
    let place = found.ok_or(Refusal::Unfit(at.row))?;
    if !passes(pool, how.put | !judged, place) {
        return Err(Refusal::Text(at.row));
    }
    next(
        at.row,
        text::emit_text(pool, out, work, how, numbered, ended, at.core, key, place),
    )
}

// VARINT and FLOAT64 have two functions: the rows' kinds differ, what is put is of two types, and one function for both would be
// passed a closure for its one line.
fn varint(
    rows: &[u64],
    pool: &[u8],
    out: &mut [u8],
    work: &mut [u32],
    how: Pass,
    labelled: bool,
    key: usize,
    node: usize,
    at: Progress,
) -> Result<Progress, Refusal>
    requires { (Holds pool.now rows.now work.old at.row at.core) × (key < 32) }
    ensures { WritesValue how pool.now rows.now out.old work.old at.core out.new work.new result (fit_leaf key varint node labelled (rest_of pool.now rows.now at.row)) }
{
    let a = row::word_at(rows, pool, node, Kind::Integer, at.row).ok_or(Refusal::Unfit(at.row))?;
    let value = Label(words::integer_of(a));
    next(
        at.row,
        event::emit_short(out, work, how, labelled, at.core, key, value),
    )
}

fn float64(
    rows: &[u64],
    pool: &[u8],
    out: &mut [u8],
    work: &mut [u32],
    how: Pass,
    labelled: bool,
    key: usize,
    node: usize,
    at: Progress,
) -> Result<Progress, Refusal>
    requires { (Holds pool.now rows.now work.old at.row at.core) × (key < 32) }
    ensures { WritesValue how pool.now rows.now out.old work.old at.core out.new work.new result (fit_leaf key float64 node labelled (rest_of pool.now rows.now at.row)) }
{
    let a = row::word_at(rows, pool, node, Kind::Float, at.row).ok_or(Refusal::Unfit(at.row))?;
    next(
        at.row,
        event::emit_short(out, work, how, labelled, at.core, key, Word(a)),
    )
}

fn fixed(
    rows: &[u64],
    pool: &[u8],
    out: &mut [u8],
    work: &mut [u32],
    how: Pass,
    labelled: bool,
    key: usize,
    n: usize,
    node: usize,
    at: Progress,
) -> Result<Progress, Refusal>
    requires { (Holds pool.now rows.now work.old at.row at.core) × (key < 32) }
    ensures { WritesValue how pool.now rows.now out.old work.old at.core out.new work.new result (fit_leaf key (fixed n) node labelled (rest_of pool.now rows.now at.row)) }
{
    let place = rows::place_under(rows, pool, node as u64, u64::from(Kind::Fixed), at.row);
    let Place { start, size } = place.ok_or(Refusal::Unfit(at.row))?;
    if size != n {
        return Err(Refusal::Unfit(at.row));
    }
    let bytes = &pool[start..start + size];
    let value = Slice {
        bytes,
        ended: false,
    };
    next(
        at.row,
        event::emit_short(out, work, how, labelled, at.core, key, value),
    )
}

// The value of a key that holds `leaf`; are its texts numbered?
pub fn leaf(
    rows: &[u64],
    pool: &[u8],
    out: &mut [u8],
    work: &mut [u32],
    how: Pass,
    leaf: Leaf,
    numbered: bool,
    labelled: bool,
    key: usize,
    node: usize,
    at: Progress,
) -> Result<Progress, Refusal>
    requires { (Holds pool.now rows.now work.old at.row at.core) × (key < 32) }
    ensures { WritesText how numbered (is_judged leaf && how.ends) key pool.now rows.now out.old work.old at.core out.new work.new result (fit_leaf key (leaf_of leaf) node labelled (rest_of pool.now rows.now at.row)) }
{
    match leaf {
        Leaf::Varint => varint(rows, pool, out, work, how, labelled, key, node, at),
        Leaf::Float64 => float64(rows, pool, out, work, how, labelled, key, node, at),
        Leaf::Fixed(n) => fixed(rows, pool, out, work, how, labelled, key, n, node, at),
        // a STRING or BYTES: one call for both, so that it can be written out here
        _ => text(
            rows,
            pool,
            out,
            work,
            how,
            numbered,
            is_judged(leaf),
            key,
            node,
            at,
        ),
    }
}
