// The calls as C has them (include/argo.h): where the library answers an enum or a part of the lent bytes, these functions
// answer the words or the place. argo_c exports them under the same names.
#![tactic(auto)]

ghost use Rattle.std.specs.Prelude.{◌≡◌, length};
ghost use Rattle.format.specs.Answer.{ok, number, second, output, zeros};
ghost use Rattle.format.specs.Part.{place_of};
ghost use Rattle.format.specs.Refusal.{refused};
ghost use Rattle.format.specs.Table.{check};
ghost use Rattle.format.specs.Row.{bare, words as words_of, look, float_of};
ghost use Rattle.format.specs.Read.{read};
ghost use Rattle.format.specs.Write.{write};
ghost use Rattle.writer.specs.Demands.{Demands};
ghost use Rattle.argo.specs.Exported.{Numbers, Shows, Stands, as_place};
ghost use Rattle.rows.specs.Kind.{word_of};
ghost use Rattle.rows.specs.declared.Seen.TheVariants.{Truth};
ghost use Rattle.rows.specs.Seen.{seen, seen_under, RightCase};

use format::Refusal;
use label::words;
use rows::Kind;

// 0 and a count, or a refusal's number and second number. Numbers and no enum: C has it so (include/argo.h).
#[repr(C)]
#[derive(Clone, Copy, Debug, PartialEq, Eq)]
pub struct Answer {
    pub number: u64,
    pub second: u64,
}

// A row that was looked at: its four words, and the float of a float's row; all 0 where it is refused. Its kind is a number
// as C has it too.
#[repr(C)]
#[derive(Clone, Copy, Debug)]
pub struct Seen {
    pub number: u64,
    pub second: u64,
    pub kind: u64,
    pub a: u64,
    pub b: u64,
    pub node: u64,
    pub value: f64,
}

// Where a part stands in the lent bytes.
#[repr(C)]
#[derive(Clone, Copy, Debug, PartialEq, Eq)]
pub struct Place {
    pub start: u64,
    pub len: u64,
}

impl From<Result<usize, Refusal>> for Answer {
    ghost from_gives = { Numbers };

    fn from(answer: Result<usize, Refusal>) -> Answer {
        match answer {
            Ok(count) => Answer {
                number: 0,
                second: count as u64,
            },
            Err(refusal) => Answer {
                number: refusal.number(),
                second: refusal.second(),
            },
        }
    }
}

// A row that is refused.
impl From<Refusal> for Seen {
    ghost from_gives = { λ refusal result. Shows result (refused refusal) };

    fn from(refusal: Refusal) -> Seen {
        Seen {
            number: refusal.number(),
            second: refusal.second(),
            kind: 0,
            a: 0,
            b: 0,
            node: 0,
            value: 0.0,
        }
    }
}

impl From<format::Place> for Place {
    ghost from_gives = { λ place result. as_place result ≡ place_of place };

    fn from(place: format::Place) -> Place {
        Place {
            start: place.start as u64,
            len: place.size as u64,
        }
    }
}

// Checks a table.
pub fn argo_check(table: &[u8], work: &mut [u32]) -> Answer
    ensures number_value { result.number ≡ number (check (length work.old) table.now) }
    ensures second_value { result.second ≡ second (λ s. s.count) (check (length work.old) table.now) }
    ensures work_after { work.new ≡ zeros (length work.old) }
{
    Answer::from(table::check(table, work))
}

// Reads a message into rows.
pub fn argo_read(table: &[u8], message: &[u8], rows: &mut [u64], work: &mut [u32]) -> Answer
    ensures number_value { result.number ≡ number (read (length work.old) table.now message.now (length rows.old)) }
    ensures second_value { result.second ≡ second (λ rs. length rs) (read (length work.old) table.now message.now (length rows.old)) }
    ensures rows_after { rows.new ≡ output words_of (length rows.old) (read (length work.old) table.now message.now (length rows.old)) }
    ensures work_after { work.new ≡ zeros (length work.old) }
{
    Answer::from(reader::read(table, message, rows, work))
}

// Writes rows as a message.
pub fn argo_write(
    table: &[u8],
    modes: u64,
    rows: &[u64],
    pool: &[u8],
    out: &mut [u8],
    work: &mut [u32],
) -> Answer
    ensures number_value { result.number ≡ number (write (length work.old) table.now modes rows.now pool.now (length out.old)) }
    ensures second_value { result.second ≡ second (λ m. length m) (write (length work.old) table.now modes rows.now pool.now (length out.old)) }
    ensures out_after { out.new ≡ output (λ m. m) (length out.old) (write (length work.old) table.now modes rows.now pool.now (length out.old)) }
    ensures work_after { work.new ≡ zeros (length work.old) }
    ensures demands { Demands (length work.old) table.now modes rows.now pool.now (length out.old) result.number result.second out.new }
{
    Answer::from(writer::write(table, modes, rows, pool, out, work))
}

// A row by its words.
fn row(kind: Kind, a: u64, b: u64, node: u64, value: f64) -> Seen
    ensures { result ≡ record { number = 0; second = 0; kind = word_of kind; a = a; b = b; node = node; value = value } }
{
    Seen {
        number: 0,
        second: 0,
        kind: u64::from(kind),
        a,
        b,
        node,
        value,
    }
}

// A row that has a place.
fn placed(kind: Kind, place: format::Place, node: u64) -> Seen
    ensures { result ≡ record { number = 0; second = 0; kind = word_of kind; a = place.start; b = place.size; node = node; value = float_of 0 } }
{
    row(kind, place.start as u64, place.size as u64, node, 0.0)
}

fn truth_kind(t: bool) -> Kind
    ensures { bare (word_of result) 0 ≡ seen (Truth t) }
{
    if t { Kind::True } else { Kind::False }
}

// What was seen, in words, under the row's node.
fn shown(seen: rows::Seen, node: u64) -> Seen
    requires { RightCase seen }
    ensures { Shows result (ok (seen_under node seen)) }
{
    match seen {
        rows::Seen::Null => row(Kind::Null, 0, 0, node, 0.0),
        rows::Seen::Absent => row(Kind::Absent, 0, 0, node, 0.0),
        rows::Seen::Truth(t) => row(truth_kind(t), 0, 0, node, 0.0),
        rows::Seen::Integer(n) => row(Kind::Integer, words::word_of(n), 0, node, 0.0),
        rows::Seen::Float(f, bits) => row(Kind::Float, bits, 0, node, f),
        rows::Seen::String(place) => placed(Kind::String, place, node),
        rows::Seen::Bytes(place) => placed(Kind::Bytes, place, node),
        rows::Seen::Fixed(place) => placed(Kind::Fixed, place, node),
        rows::Seen::Record(fields) => row(Kind::Record, fields, 0, node, 0.0),
        rows::Seen::Array(entries) => row(Kind::Array, entries, 0, node, 0.0),
    }
}

// Looks at one row, whose place, if it has one, is in bytes.
pub fn argo_look(rows: &[u64], bytes: &[u8], index: usize) -> Seen
    ensures { Shows result (look rows.now (length bytes.now) index) }
{
    match rows::look(rows, bytes, index) {
        Ok(seen) => shown(seen, rows::node_at(rows, index)),
        Err(refusal) => Seen::from(refusal),
    }
}

// Where the part of the bytes that a row names stands, whatever its node; the empty one at 0 if it names none.
pub fn argo_part(rows: &[u64], bytes: &[u8], index: usize) -> Place
    ensures { Stands rows.now bytes.now index result }
{
    match rows::place_at(rows, bytes, index) {
        Some(place) => Place::from(place),
        None => Place { start: 0, len: 0 },
    }
}
