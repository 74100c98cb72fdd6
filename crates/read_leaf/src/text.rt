// STRING and BYTES: a literal, or a literal again by its number.
ghost use Rattle.std.specs.Prelude.{◌≡◌, ◌+◌, ◌≤◌, ◌<◌, ◌^◌, pos, length};
ghost use Rattle.format.specs.Row.{bytes_at};
ghost use Rattle.format.specs.Read.{in_message, is_ended, is_right, ending, read_text};
ghost use Rattle.read_pieces.specs.Pieces.{Inside};
ghost use Rattle.read_literals.specs.Words.{Good};
ghost use Rattle.read_leaf.specs.State.{Ready, Takes};
ghost use Rattle.read_leaf.specs.Meaning.{front_of, held_leaf, held_of, part_of, PartIn};
ghost use Rattle.read_leaf.specs.Promises.{is_ending, literal_of, Numbers, Again, text_of};

use super::front::Size;
use super::{Message, block, front};
use format::{Place, Refusal};
use label::Cursor;
use table::nodes::Leaf;

// Of numbered literals, all keys together.
const MOST_LITERALS: usize = 4096;

// Only a STRING has to be text. The bytes taken may have a 00 behind the text, so that their Place is not the text's.
fn is_right(m: &[u8], leaf: Leaf, start: usize, size: usize) -> bool
    requires { start + size ≤ length m.now }
    ensures { result ≡ is_right (held_leaf leaf) (bytes_at m.now (record { start = start; size = size })) }
{
    match leaf {
        Leaf::String => utf8::is_text(m, start, start + size),
        _ => true,
    }
}

// Whether a 00 stands behind a literal: behind a STRING's, in NullTerminatedStrings.
fn is_ended(modes: u64, leaf: Leaf) -> bool
    ensures { result ≡ is_ended modes (held_leaf leaf) }
{
    let set = modes::null_terminated_strings(modes);
    match leaf {
        Leaf::String => set,
        _ => false,
    }
}

// Whether the byte behind a literal is 00, where it has to be.
fn is_ending(m: &[u8], at: usize, ended: bool) -> bool
    requires { at + length (ending ended) ≤ length m.now }
    ensures { result ≡ is_ending m.now ended at }
{
    !ended || m[at] == 0
}

// A literal's bytes, and past the 00 behind them. The refusals in their order: 29 and 27, 35, 28. That the text or its 00
// is missing is one question, since both are 27.
fn take_literal(
    message: &Message,
    work: &mut [u32],
    key: usize,
    leaf: Leaf,
    size: usize,
    c: Cursor,
) -> Result<(Place, Cursor), Refusal>
    requires { Ready message.now.bytes.now work.old × (key < 32) × Inside message.now.bytes.now c × (size < 2 ^ 63) }
    ensures takes { Takes message.now.bytes.now work.old work.new c (part_of result) (literal_of message.now.bytes.now message.now.modes (held_leaf leaf) key size) }
    ensures part_in { PartIn message.now.bytes.now size result }
{
    let ended = is_ended(message.modes, leaf);
    let all = modes::size_with_ending(size, ended);
    let (taken, next) = block::take_bytes(message, work, key, all, c)?;
    let start = taken.start;
    let ends = is_ending(message.bytes, start + size, ended);
    let right = is_right(message.bytes, leaf, start, size);
    if !ends {
        return Err(Refusal::Terminator);
    }
    if !right {
        return Err(Refusal::Text(0));
    }
    Ok((Place { start, size }, next))
}

// Whether the literals of a key are numbered.
fn is_numbered(modes: u64, dedup: bool) -> bool
    ensures { Numbers modes dedup result }
{
    dedup && !modes::no_deduplication(modes)
}

// After the refusals of its bytes, 32.
fn literal(
    message: &Message,
    work: &mut [u32],
    key: usize,
    leaf: Leaf,
    dedup: bool,
    size: usize,
    c: Cursor,
) -> Result<(Place, Cursor), Refusal>
    requires { Ready message.now.bytes.now work.old × (key < 32) × Inside message.now.bytes.now c × (size < 2 ^ 63) }
    ensures { Takes message.now.bytes.now work.old work.new c (part_of result) (read_text (in_message message.now.bytes.now) message.now.modes (λ k. held_of leaf dedup) key (pos size)) }
{
    let (taken, next) = take_literal(message, work, key, leaf, size, c)?;
    let numbered = is_numbered(message.modes, dedup);
    if !numbered {
        return Ok((taken, next));
    }
    if MOST_LITERALS <= store::total(work) {
        return Err(Refusal::ManyLiterals);
    }
    read_literals::add(work, key, taken.start, taken.size);
    Ok((taken, next))
}

// The label -1 - k, where -4 is the key's first literal.
fn back(
    work: &[u32],
    modes: u64,
    key: usize,
    dedup: bool,
    k: usize,
    c: Cursor,
) -> Result<(Place, Cursor), Refusal>
    requires { Good work.now × (key < 32) }
    ensures { Again work.now modes key dedup k c result }
{
    if k < 3 {
        return Err(Refusal::LabelPlace);
    }
    if !is_numbered(modes, dedup) {
        return Err(Refusal::Backreference);
    }
    if store::count(work, key) <= k - 3 {
        return Err(Refusal::Backreference);
    }
    let place = read_literals::get(work, key, k - 3);
    Ok((place, c))
}

pub fn text(
    message: &Message,
    work: &mut [u32],
    key: usize,
    leaf: Leaf,
    dedup: bool,
    front: Option<i64>,
    c: Cursor,
) -> Result<(Place, Cursor), Refusal>
    requires { Ready message.now.bytes.now work.old × (key < 32) × Inside message.now.bytes.now c }
    ensures { Takes message.now.bytes.now work.old work.new c (part_of result) (text_of message.now.bytes.now message.now.modes (held_of leaf dedup) key (front_of front)) }
{
    let (l, next) = front::own_label(message.bytes, front, c)?;
    let size = front::size_of(l);
    match size {
        Size::Of(size) => literal(message, work, key, leaf, dedup, size, next),
        Size::Below(k) => back(work, message.modes, key, dedup, k, next),
    }
}
