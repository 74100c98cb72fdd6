// The bytes of a value: in the core with InlineEverything, else in its key's block.
ghost use Rattle.std.specs.Prelude.{◌≡◌, cond, ◌<◌, ◌≤◌, ◌^◌};
ghost use Rattle.format.specs.Refusal.{answered};
ghost use Rattle.write_literals.specs.Words.{Good, Changes};
ghost use Rattle.write_passes.specs.Plan.{emit_bytes};
ghost use Rattle.write_bytes.specs.State.{slots_of, Within, Emits};
ghost use Rattle.write_bytes.specs.Value.{place_of, moved_to, HasPlace};

use super::as_bytes::AsBytes;
use super::encoded::Encoded;
use super::{Pass, bytes};
use format::Refusal;

// Where the next bytes of a key go. While they are counted, a key that was not touched before begins at 0.
fn place(work: &[u32], how: Pass, core: usize, key: usize) -> Result<usize, Refusal>
    requires { (Good work.now) × (key < 32) }
    ensures { answered result ≡ place_of how.put how.inline key core (slots_of work.now) }
{
    if how.inline {
        return Ok(core);
    }
    if let Some(slot) = store::find(work, key) {
        return Ok(slot.at);
    }
    if how.put {
        return Err(Refusal::NoRoom);
    }
    Ok(0)
}

// The core, or the key's slot, moved on to `at`; returns how far the core goes. While bytes are put, a key whose place was found has a slot.
fn move_to(work: &mut [u32], how: Pass, core: usize, key: usize, at: usize) -> usize
    requires { (Good work.old) × (key < 32) × (at < 2 ^ 32) × (HasPlace how.put how.inline key core work.old) }
    ensures value { result ≡ cond how.inline at core }
    ensures changes { Changes work.old work.new (moved_to how.inline key at) }
{
    if how.inline {
        return at;
    }
    if how.put {
        store::advance(work, key, at);
        return core;
    }
    let Some(_) = store::find(work, key) else {
        store::touch(work, key, at, 0);
        return core;
    };
    store::advance(work, key, at);
    core
}

// A value of a key, of any type that is `AsBytes`. It must be short, so that where it ends fits a slot.
pub fn emit_short<B: AsBytes>(
    out: &mut [u8],
    work: &mut [u32],
    how: Pass,
    core: usize,
    key: usize,
    value: B,
) -> Result<usize, Refusal>
    requires { (Good work.old) × (Within (2 ^ 31) core work.old) × (key < 32) × (B.IsShort value) }
    ensures { Emits work.old work.new out.old out.new core result (emit_bytes how.put how.inline key (B.bytes value)) }
{
    let at = place(work, how, core, key)?;
    let end = bytes::put_bytes(out, how.put, at, value)?;
    Ok(move_to(work, how, core, key, end))
}

// An encoded value of a key: each is short.
pub fn emit<B: Encoded>(
    out: &mut [u8],
    work: &mut [u32],
    how: Pass,
    core: usize,
    key: usize,
    value: B,
) -> Result<usize, Refusal>
    requires { (Good work.old) × (Within (2 ^ 31) core work.old) × (key < 32) }
    ensures { Emits work.old work.new out.old out.new core result (emit_bytes how.put how.inline key (B.bytes value)) }
{
    emit_short(out, work, how, core, key, value)
}
