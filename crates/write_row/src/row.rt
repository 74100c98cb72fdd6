// What a row shows, where it is a row of the kind that is wanted, under the node that is wanted.
ghost use Rattle.std.specs.Prelude.{◌≡◌, ◌≤◌, length};
ghost use Rattle.format.specs.Row.{integer_row};
ghost use Rattle.rows.specs.Kind.{word_of};
ghost use Rattle.rows.specs.Seen.{found_under};
ghost use Rattle.write_row.specs.Judged.{value_in, truth_of, front_of, word, Small, truth, front};

use rows::Kind;

// Of a value that may be absent or null: which of them it is, or that it is here. Three good answers, so no Option.
#[derive(Clone, Copy)]
pub enum Presence {
    Absent,
    Null,
    Here,
}

// The word of an integer, a float, a record or an array.
pub fn word_at(rows: &[u64], pool: &[u8], node: usize, kind: Kind, i: usize) -> Option<u64>
    requires { integer_row ≤ word_of kind }
    ensures result_value { word result ≡ value_in (word_of kind) (found_under node rows.now (length pool.now) i) }
    ensures small { Small result }
{
    rows::word_under(rows, node as u64, kind, i)
}

pub fn truth_at(rows: &[u64], pool: &[u8], node: usize, i: usize) -> Option<bool>
    ensures { truth result ≡ truth_of (found_under node rows.now (length pool.now) i) }
{
    let kind = rows::kind_under(rows, pool, node as u64, i)?;
    match kind {
        Kind::True => Some(true),
        Kind::False => Some(false),
        _ => None,
    }
}

pub fn front_at(
    rows: &[u64],
    pool: &[u8],
    node: usize,
    omittable: bool,
    nullable: bool,
    i: usize,
) -> Option<Presence>
    ensures { front result ≡ front_of omittable nullable (found_under node rows.now (length pool.now) i) }
{
    let kind = rows::kind_under(rows, pool, node as u64, i)?;
    match kind {
        Kind::Absent => {
            if omittable {
                return Some(Presence::Absent);
            }
            Some(Presence::Here)
        }
        Kind::Null => {
            if nullable {
                return Some(Presence::Null);
            }
            Some(Presence::Here)
        }
        _ => Some(Presence::Here),
    }
}
