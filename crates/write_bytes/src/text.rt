// A text: the number of an equal literal of its key, or a literal.
ghost use Rattle.std.specs.Prelude.{◌≡◌, true, [], ◌+◌, ◌<◌, ◌≤◌, ◌^◌, length, get_or};
ghost use Rattle.std.proofs.Math.Option.{none};
ghost use Rattle.format.specs.Part.{place_of};
ghost use Rattle.format.specs.Row.{bytes_at};
ghost use Rattle.format.specs.Read.{number_label};
ghost use Rattle.format.specs.Write.{text, choose as choose_of};
ghost use Rattle.write_literals.specs.Words.{store_of, Good, Changes};
ghost use Rattle.write_passes.specs.Plan.{emit_choice, emit_event};
ghost use Rattle.write_search.specs.Search.{number as number_in, texts_of, AreLiterals, InWords, KeepAs, KeepsText};
ghost use Rattle.write_bytes.specs.State.{plan_of, Ready, Within};
ghost use Rattle.write_bytes.specs.Text.{kept, EmitsText};

use super::as_bytes::Slice;
use super::{Pass, bytes, value};
use format::{Place, Refusal};
use write_search::Found;

// The label of a key's literal j, from -4 down.
fn number_label(j: usize) -> i64
    requires { j < 4096 }
    ensures { result ≡ number_label j }
{
    -1 - ((j + 3) as i64)
}

// The literal to name in place of the text. Without deduplication there is none.
fn choose(pool: &[u8], work: &[u32], numbered: bool, key: usize, place: Place) -> Found
    requires { (Good work.now) × (AreLiterals pool.now (store_of work.now).literals) × (key < 32) × (place.start + place.size ≤ length pool.now) × (length pool.now ≤ 65536) }
    ensures result_value { number_in result ≡ choose_of numbered (bytes_at pool.now (place_of place)) (texts_of pool.now (get_or (store_of work.now).literals key [])) }
    ensures in_words { InWords result }
    ensures keep_as { numbered ≡ true → KeepAs pool.now (texts_of pool.now (get_or (store_of work.now).literals key [])) (place_of place) result }
{
    if !numbered {
        return Found::Nothing {
            first: place.start,
            second: place.size,
        };
    }
    write_search::choose(pool, work, key, place.start, place.size)
}

// Keeps a literal that takes a number, by two words; after 4,096 of them it notes that there was one too many.
fn keep(work: &mut [u32], numbered: bool, key: usize, first: usize, second: usize)
    requires { (Good work.old) × (key < 32) × (first < 2 ^ 32) × (second < 2 ^ 32) }
    ensures { Changes work.old work.new (kept numbered key (record { first = first; second = second })) }
{
    if !numbered {
        return;
    }
    if 4096 <= store::total(work) {
        write_literals::set_over(work);
        return;
    }
    write_literals::add(work, key, first, second);
}

// Writes the text out: its length in the core, its bytes, and where it is `ended` a 00, which its length does not count. If
// it takes a number, it is kept by the words `first` and `second`: what they are is write_search's, so they stay two words.
fn literal(
    pool: &[u8],
    out: &mut [u8],
    work: &mut [u32],
    how: Pass,
    numbered: bool,
    ended: bool,
    core: usize,
    key: usize,
    place: Place,
    first: usize,
    second: usize,
) -> Result<usize, Refusal>
    requires { (Ready pool.now work.old) × (Within (2 ^ 30) core work.old) × (key < 32) × (place.start + place.size ≤ length pool.now) × (first < 2 ^ 32) × (second < 2 ^ 32)
        × (numbered ≡ true → KeepsText pool.now (texts_of pool.now (get_or (store_of work.old).literals key [])) (place_of place) (record { first = first; second = second })) }
    ensures { EmitsText how.inline numbered ended key pool.now work.old work.new out.new result
        (λ modes held. emit_choice how.put modes held key (bytes_at pool.now (place_of place)) none (plan_of pool.now out.old work.old core)) }
{
    let next = bytes::put_label(out, how.put, core, bytes::count_label(place.size))?;
    let bytes = &pool[place.start..place.start + place.size];
    let end = value::emit_short(out, work, how, next, key, Slice { bytes, ended })?;
    keep(work, numbered, key, first, second);
    Ok(end)
}

// The text at a place of the pool: does it take a number, and is it `ended` by a 00?
pub fn emit_text(
    pool: &[u8],
    out: &mut [u8],
    work: &mut [u32],
    how: Pass,
    numbered: bool,
    ended: bool,
    core: usize,
    key: usize,
    place: Place,
) -> Result<usize, Refusal>
    requires { (Ready pool.now work.old) × (Within (2 ^ 30) core work.old) × (key < 32) × (place.start + place.size ≤ length pool.now) }
    ensures { EmitsText how.inline numbered ended key pool.now work.old work.new out.new result
        (λ modes held. emit_event how.put modes held (record { front = none; body = text key (bytes_at pool.now (place_of place)) }) (plan_of pool.now out.old work.old core)) }
{
    match choose(pool, work, numbered, key, place) {
        Found::Number(j) => bytes::put_label(out, how.put, core, number_label(j)),
        Found::Nothing { first, second } => literal(
            pool, out, work, how, numbered, ended, core, key, place, first, second,
        ),
    }
}
