// What stands in front of a value that may be absent or null.
ghost use Rattle.std.specs.Prelude.{◌≡◌, true};
ghost use Rattle.read_pieces.specs.Pieces.{Inside};
ghost use Rattle.read_walk.specs.Opening.{null_or, absent_or, meant_of, labelled as labelled_of, opened, Opens};

use format::Refusal;
use label::Cursor;
use read_leaf::{Message, front};
use rows::Kind;

// The value is absent or null, and then its row is of this kind; or it is there, with the label in front of it if one
// was read. Both are good answers, so that it is no Result.
#[derive(Clone, Copy)]
pub enum Seen {
    Gone(Kind),
    Here(Option<i64>),
}

// Under NULLABLE -1 is null, and -3 too where OutOfBandFieldErrors is set; else -3 is an error.
fn null_label(modes: u64, l: i64) -> Result<Seen, Refusal>
    ensures { meant_of result ≡ null_or modes true l }
{
    if front::is_label(l, -3) {
        if modes::out_of_band_field_errors(modes) {
            return Ok(Seen::Gone(Kind::Null));
        }
        return Err(Refusal::Error);
    }
    if front::is_label(l, -1) {
        return Ok(Seen::Gone(Kind::Null));
    }
    Ok(Seen::Here(Some(l)))
}

// Of a value that may be null, or not.
fn null_or(modes: u64, nullable: bool, l: i64) -> Result<Seen, Refusal>
    ensures { meant_of result ≡ null_or modes nullable l }
{
    if nullable {
        return null_label(modes, l);
    }
    Ok(Seen::Here(Some(l)))
}

// And may be absent, or not: -2 is looked at first.
fn absent_or(modes: u64, omittable: bool, nullable: bool, l: i64) -> Result<Seen, Refusal>
    ensures { meant_of result ≡ absent_or modes omittable nullable l }
{
    if omittable && front::is_label(l, -2) {
        return Ok(Seen::Gone(Kind::Absent));
    }
    null_or(modes, nullable, l)
}

// What the label in front says, and the core behind it.
fn labelled(
    message: &Message,
    omittable: bool,
    nullable: bool,
    c: Cursor,
) -> Result<(Seen, Cursor), Refusal>
    requires { Inside message.now.bytes.now c }
    ensures { Opens message.now.bytes.now c result (labelled_of message.now.bytes.now message.now.modes omittable nullable) }
{
    let (l, next) = front::own_label(message.bytes, None, c)?;
    let seen = absent_or(message.modes, omittable, nullable, l)?;
    Ok((seen, next))
}

// Any other value has no label in front but its own.
pub fn open(
    message: &Message,
    omittable: bool,
    nullable: bool,
    c: Cursor,
) -> Result<(Seen, Cursor), Refusal>
    requires { Inside message.now.bytes.now c }
    ensures { Opens message.now.bytes.now c result (opened message.now.bytes.now message.now.modes omittable nullable) }
{
    if omittable | nullable {
        return labelled(message, omittable, nullable, c);
    }
    Ok((Seen::Here(None), c))
}
