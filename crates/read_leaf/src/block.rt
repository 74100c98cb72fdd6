// Reading in the block of a key, or in the core where all values stand in it.
ghost use Rattle.std.specs.Prelude.{◌≡◌, false, ◌+◌, ◌-◌, ◌≤◌, ◌<◌, ◌^◌, length, take, drop};
ghost use Rattle.std.proofs.Math.Option.{none};
ghost use Rattle.format.specs.Modes.{inline_everything};
ghost use Rattle.format.specs.Read.{in_message, read_bytes, read_number, at_key, little_endian};
ghost use Rattle.label.specs.Cursor.{label_at};
ghost use Rattle.read_pieces.specs.Pieces.{Inside};
ghost use Rattle.store.specs.Store.{lookup};
ghost use Rattle.read_literals.specs.Words.{store_of};
ghost use Rattle.read_leaf.specs.State.{Ready, Takes};
ghost use Rattle.format.specs.Refusal.{answered};
ghost use Rattle.read_leaf.specs.Meaning.{part_of, PartIn};
ghost use Rattle.read_leaf.specs.Promises.{Opened};

use super::Message;
use format::{Place, Refusal};
use label::Cursor;

// The next block that waits, for a key that has none.
fn first_block(m: &[u8], work: &mut [u32], key: usize) -> Option<Cursor>
    requires { Ready m.now work.old × (key < 32) × (lookup key (store_of work.old).slots ≡ none) }
    ensures { Opened m.now key work.old work.new result }
{
    let rest = store::rest(work);
    let block = read_pieces::next_block(m, rest)?;
    store::touch(work, key, block.at, block.end);
    store::move_rest(work, block.end);
    store::set_start(work, key, block.at);
    Some(block)
}

// The block of a key, which is given to it now if this is the first touch.
fn block_of(m: &[u8], work: &mut [u32], key: usize) -> Option<Cursor>
    requires { Ready m.now work.old × (key < 32) }
    ensures { Opened m.now key work.old work.new result }
{
    let Some(block) = store::find(work, key) else {
        return first_block(m, work, key);
    };
    Some(block)
}

// How many bytes are left of the piece that begins at `start`, where it has been read up to `place`.
fn left_in(m: &[u8], start: usize, place: Cursor) -> usize
    requires { (start ≤ place.at) × Inside m.now place }
    ensures { result ≡ place.end - place.at }
{
    let end = place.end;
    read_piece::left_at(&m[start..end], place.at - start)
}

fn block_bytes(
    m: &[u8],
    work: &mut [u32],
    key: usize,
    size: usize,
    c: Cursor,
) -> Result<(Place, Cursor), Refusal>
    requires { Ready m.now work.old × (key < 32) × Inside m.now c }
    ensures takes { Takes m.now work.old work.new c (part_of result) (at_key (in_message m.now) false key (read_bytes (in_message m.now) size)) }
    ensures part_in { PartIn m.now size result }
{
    let block = block_of(m, work, key).ok_or(Refusal::NoBlock)?;
    if left_in(m, store::start(work, key), block) < size {
        return Err(Refusal::Cut);
    }
    let start = block.at;
    store::advance(work, key, start + size);
    Ok((Place { start, size }, c))
}

// So many bytes of a key's value, and the core as far as it has been read. Compiled into who calls it: a call for each value
// makes reading floats and numbers slower by a twelfth.
#[inline(always)]
pub fn take_bytes(
    message: &Message,
    work: &mut [u32],
    key: usize,
    size: usize,
    c: Cursor,
) -> Result<(Place, Cursor), Refusal>
    requires { Ready message.now.bytes.now work.old × (key < 32) × Inside message.now.bytes.now c }
    ensures takes { Takes message.now.bytes.now work.old work.new c (part_of result) (at_key (in_message message.now.bytes.now) (inline_everything message.now.modes) key (read_bytes (in_message message.now.bytes.now) size)) }
    ensures part_in { PartIn message.now.bytes.now size result }
{
    if !modes::inline_everything(message.modes) {
        return block_bytes(message.bytes, work, key, size, c);
    }
    let start = c.at;
    if left_in(message.bytes, 0, c) < size {
        return Err(Refusal::Cut);
    }
    let next = Cursor {
        at: start + size,
        end: c.end,
    };
    Ok((Place { start, size }, next))
}

// The label where a block, or the core, has been read to. Its slice ends where the piece ends, and begins with the message:
// that spares the two places' being counted from elsewhere, which would make reading numbers slower by a tenth.
fn label_in(m: &[u8], place: Cursor) -> Option<(i64, Cursor)>
    requires { place.end ≤ length m.now }
    ensures { result ≡ label_at m.now place }
{
    let end = place.end;
    read_piece::label_at(&m[..end], place.at)
}

fn block_number(m: &[u8], work: &mut [u32], key: usize, c: Cursor) -> Result<(i64, Cursor), Refusal>
    requires { Ready m.now work.old × (key < 32) × Inside m.now c }
    ensures { Takes m.now work.old work.new c (answered result) (at_key (in_message m.now) false key (read_number (in_message m.now))) }
{
    let block = block_of(m, work, key).ok_or(Refusal::NoBlock)?;
    let (v, next) = label_in(m, block).ok_or(Refusal::Label)?;
    store::advance(work, key, next.at);
    Ok((v, c))
}

// The VARINT of a key.
pub fn take_number(
    message: &Message,
    work: &mut [u32],
    key: usize,
    c: Cursor,
) -> Result<(i64, Cursor), Refusal>
    requires { Ready message.now.bytes.now work.old × (key < 32) × Inside message.now.bytes.now c }
    ensures { Takes message.now.bytes.now work.old work.new c (answered result) (at_key (in_message message.now.bytes.now) (inline_everything message.now.modes) key (read_number (in_message message.now.bytes.now))) }
{
    if !modes::inline_everything(message.modes) {
        return block_number(message.bytes, work, key, c);
    }
    label_in(message.bytes, c).ok_or(Refusal::Label)
}

// Eight bytes, little-endian.
pub fn word_at(m: &[u8], at: usize) -> u64
    requires { at + 8 ≤ length m.now }
    ensures { result ≡ little_endian (take 8 (drop at m.now)) }
{
    u64::from_le_bytes([
        m[at],
        m[at + 1],
        m[at + 2],
        m[at + 3],
        m[at + 4],
        m[at + 5],
        m[at + 6],
        m[at + 7],
    ])
}
