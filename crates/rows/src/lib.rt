// Rows in lent buffers: putting one, looking at one, and the part of the lent bytes that one names.
//
// The rows and the bytes are two parameters, and no struct of the two: `look`, `part` and `node_at` are public with these
// parameters, and the others take them as these do.
#![tactic(auto)]

ghost use Rattle.std.specs.Prelude.{◌≡◌, true, [], ◌∷◌, ◌+◌, ◌*◌, ◌≤◌, length, IfOk, IfSome};
ghost use Rattle.std.proofs.lemmas.List.Edits.{sets};
ghost use Rattle.format.specs.Part.{place_of};
ghost use Rattle.format.specs.Refusal.{answered_by};
ghost use Rattle.format.specs.Row.{row_width, integer_row, is_place, from_words, row_node, found as found_of, look as look_of, part as part_of, float_of};
ghost use Rattle.rows.specs.Kind.{word_of};
ghost use Rattle.rows.specs.Seen.{seen, seen_under, found_under, RightCase, look_at_words, is_some};
ghost use Rattle.rows.specs.Words.{kind_in, Begins, Shows, word, Small, kind_word};
ghost use Rattle.rows.specs.Placed.{place_in, place_found, place_inside, place, IsInside};

use format::{MOST_NODES, Place, ROW_WIDTH, Refusal};
use label::words;

mod kind;

pub use kind::Kind;

// Of a float's bits.
const SIGN: u64 = 0x8000000000000000;

const INFINITY: u64 = 0x7ff0000000000000;

// What a row says. A float's bits go beside it, since a NaN does not keep its own. A record has so many fields, an array so
// many entries.
#[derive(Clone, Copy, Debug)]
pub enum Seen {
    Null,
    Absent,
    Truth(bool),
    Integer(i64),
    Float(f64, u64),
    String(Place),
    Bytes(Place),
    Fixed(Place),
    Record(u64),
    Array(u64),
}

// Puts row n. Its kind is the row's word, as C has it: a `Kind` would ask more of callers.
pub fn put_row(rows: &mut [u64], n: usize, kind: u64, a: u64, b: u64, node: u64)
    requires { row_width * n + row_width ≤ length rows.old }
    ensures { rows.new ≡ sets rows.old (row_width * n) (kind ∷ a ∷ b ∷ node ∷ []) }
{
    let at = ROW_WIDTH * n;
    rows[at] = kind;
    rows[at + 1] = a;
    rows[at + 2] = b;
    rows[at + 3] = node;
}

// The node of row i; 0 where the row isn't there. It is public, so 0 stays: an `Option` would be another answer.
pub fn node_at(rows: &[u64], i: usize) -> u64
    ensures { result ≡ row_node rows.now i }
{
    if i < rows.len() / ROW_WIDTH {
        return rows[ROW_WIDTH * i + 3];
    }
    0
}

// What row i says, whatever its node. A place, if it has one, is in bytes. Compiled into its callers, as `look` is: an
// answer that is handed over in memory takes as long as the looking.
#[inline(always)]
fn found(rows: &[u64], bytes: &[u8], i: usize) -> Result<Seen, Refusal>
    ensures result_value { answered_by (seen_under (row_node rows.now i)) result ≡ found_of rows.now (length bytes.now) i }
    ensures right_case { IfOk result RightCase }
{
    if rows.len() / ROW_WIDTH <= i {
        return Err(Refusal::NoRow);
    }
    let at = ROW_WIDTH * i;
    look_at_words(rows[at], rows[at + 1], rows[at + 2], bytes.len() as u64)
}

// Looks at row i. Its node is what `node_at` answers.
#[inline(always)]
pub fn look(rows: &[u64], bytes: &[u8], i: usize) -> Result<Seen, Refusal>
    ensures result_value { answered_by (seen_under (row_node rows.now i)) result ≡ look_of rows.now (length bytes.now) i }
    ensures right_case { IfOk result RightCase }
{
    if MOST_NODES as u64 <= node_at(rows, i) {
        return Err(Refusal::BadRow);
    }
    found(rows, bytes, i)
}

// What row i says, if it is under this node.
pub fn look_under(rows: &[u64], bytes: &[u8], node: u64, i: usize) -> Result<Seen, Refusal>
    ensures result_value { answered_by seen result ≡ found_under node rows.now (length bytes.now) i }
    ensures right_case { IfOk result RightCase }
{
    if node_at(rows, i) != node {
        return Err(Refusal::BadRow);
    }
    found(rows, bytes, i)
}

// Where row i begins, if it is there under this node.
fn start_under(rows: &[u64], node: u64, i: usize) -> Option<usize>
    ensures { Begins rows.now node i result }
{
    if rows.len() / ROW_WIDTH <= i {
        return None;
    }
    let at = ROW_WIDTH * i;
    if rows[at + 3] != node {
        return None;
    }
    Some(at)
}

// The place of row i, if it is a row of this kind, one that has a place, under this node. No other kind is looked at: most
// rows are texts. The kind is its word, as in `put_row`: a `Kind` would ask more of callers.
pub fn place_under(rows: &[u64], bytes: &[u8], node: u64, kind: u64, i: usize) -> Option<Place>
    requires { is_place kind ≡ true }
    ensures result_value { place result ≡ place_in kind (found_under node rows.now (length bytes.now) i) }
    ensures inside { IfSome result (IsInside (length bytes.now)) }
{
    let at = start_under(rows, node, i)?;
    if rows[at] != kind {
        return None;
    }
    look_at_place(rows[at + 1], rows[at + 2], bytes.len() as u64).ok()
}

// The word of row i, if it is a row of this kind, an integer, a float, a record or an array, under this node.
pub fn word_under(rows: &[u64], node: u64, kind: Kind, i: usize) -> Option<u64>
    requires { integer_row ≤ word_of kind }
    ensures result_value { Shows rows.now node (word_of kind) i (word result) }
    ensures small { Small result }
{
    let at = start_under(rows, node, i)?;
    if u64::from(kind) != rows[at] {
        return None;
    }
    if kind.has_place() {
        return None;
    }
    if rows[at + 2] != 0 {
        return None;
    }
    Some(rows[at + 1])
}

// The kind of row i, if looking at it under this node is not refused. Nothing else of it is made.
pub fn kind_under(rows: &[u64], bytes: &[u8], node: u64, i: usize) -> Option<Kind>
    ensures { kind_word result ≡ kind_in (found_under node rows.now (length bytes.now) i) }
{
    let at = start_under(rows, node, i)?;
    let kind = Kind::try_from(rows[at]).ok()?;
    let (a, b) = (rows[at + 1], rows[at + 2]);
    if !is_row(kind, a, b) {
        return None;
    }
    if kind.has_place() {
        look_at_place(a, b, bytes.len() as u64).ok()?;
    }
    Some(kind)
}

// The place of row i, whatever its node, if it has one. What else a row says is not looked at.
pub fn place_at(rows: &[u64], bytes: &[u8], i: usize) -> Option<Place>
    ensures result_value { place result ≡ place_found (found_of rows.now (length bytes.now) i) }
    ensures inside { IfSome result (IsInside (length bytes.now)) }
{
    if rows.len() / ROW_WIDTH <= i {
        return None;
    }
    let at = ROW_WIDTH * i;
    let kind = Kind::try_from(rows[at]).ok()?;
    if !kind.has_place() {
        return None;
    }
    look_at_place(rows[at + 1], rows[at + 2], bytes.len() as u64).ok()
}

// The part of bytes that row i names: empty where the row isn't there, is no place or points outside.
pub fn part<'a, 'b>(rows: &'a [u64], bytes: &'b [u8], i: usize) -> &'b [u8]
    ensures { result.now ≡ part_of rows.now bytes.now i }
{
    let Some(Place { start, size }) = place_at(rows, bytes, i) else {
        return &bytes[0..0];
    };
    let end = start + size;
    &bytes[start..end]
}

// Looks at a row's kind, a and b, where so many bytes are lent.
#[inline(always)]
fn look_at_words(kind: u64, a: u64, b: u64, count: u64) -> Result<Seen, Refusal>
    ensures result_value { answered_by seen result ≡ look_at_words kind a b count }
    ensures right_case { IfOk result RightCase }
{
    let kind = Kind::try_from(kind)?;
    if !is_row(kind, a, b) {
        return Err(Refusal::BadRow);
    }
    Ok(match kind {
        Kind::Null => Seen::Null,
        Kind::Absent => Seen::Absent,
        Kind::False => Seen::Truth(false),
        Kind::True => Seen::Truth(true),
        Kind::Integer => Seen::Integer(words::integer_of(a)),
        Kind::Float => Seen::Float(float_of(a), a),
        Kind::String => Seen::String(look_at_place(a, b, count)?),
        Kind::Bytes => Seen::Bytes(look_at_place(a, b, count)?),
        Kind::Fixed => Seen::Fixed(look_at_place(a, b, count)?),
        Kind::Record => Seen::Record(a),
        Kind::Array => Seen::Array(a),
    })
}

// Whether the words that the kind does not use are 0.
fn is_row(kind: Kind, a: u64, b: u64) -> bool
    ensures { result ≡ is_some (from_words (word_of kind) a b) }
{
    match kind {
        Kind::Null | Kind::Absent | Kind::False | Kind::True => (a == 0) & (b == 0),
        Kind::String | Kind::Bytes | Kind::Fixed => true,
        Kind::Integer | Kind::Float | Kind::Record | Kind::Array => b == 0,
    }
}

// A sum of two words could wrap, so the start comes off the count.
fn look_at_place(a: u64, b: u64, count: u64) -> Result<Place, Refusal>
    ensures { answered_by place_of result ≡ place_inside count (record { start = a; size = b }) }
{
    if a <= count {
        if b <= count - a {
            return Ok(Place {
                start: a as usize,
                size: b as usize,
            });
        }
    }
    Err(Refusal::BadRow)
}

// The float with those bits. A pattern beyond infinity's is a NaN, which is made anew.
fn float_of(bits: u64) -> f64
    ensures { result ≡ float_of bits }
{
    if bits % SIGN <= INFINITY {
        f64::from_bits(bits)
    } else {
        0.0 / 0.0
    }
}
