// A whole row of an unlabelled value: a 0 where a label is wanted in front, and the value.
ghost use Rattle.std.specs.Prelude.{◌<◌, ◌^◌};
ghost use Rattle.format.specs.Write.{unlabelled, value as value_of};
ghost use Rattle.write_literals.specs.Words.{Good};
ghost use Rattle.write_bytes.specs.State.{Within, EmitsEvent};
ghost use Rattle.write_bytes.specs.Value.{Fronts, Near};

use super::as_bytes::AsBytes;
use super::encoded::Encoded;
use super::{Pass, bytes, value};
use format::Refusal;

// The 0, where one is wanted.
fn front(out: &mut [u8], put: bool, labelled: bool, core: usize) -> Result<usize, Refusal>
    requires { core < 2 ^ 32 }
    ensures fronts { Fronts put labelled out.old out.new core result }
    ensures near { Near core result }
{
    if !labelled {
        return Ok(core);
    }
    bytes::put_label(out, put, core, 0)
}

// A value of a key, of any type that is `AsBytes`; it must be short.
pub fn emit_short<B: AsBytes>(
    out: &mut [u8],
    work: &mut [u32],
    how: Pass,
    labelled: bool,
    core: usize,
    key: usize,
    value: B,
) -> Result<usize, Refusal>
    requires { (Good work.old) × (Within (2 ^ 30) core work.old) × (key < 32) × (B.IsShort value) }
    ensures { EmitsEvent how.put how.inline work.old work.new out.old out.new core result (unlabelled labelled (value_of key (B.bytes value))) }
{
    let next = front(out, how.put, labelled, core)?;
    value::emit_short(out, work, how, next, key, value)
}

// An encoded value of a key.
pub fn emit<B: Encoded>(
    out: &mut [u8],
    work: &mut [u32],
    how: Pass,
    labelled: bool,
    core: usize,
    key: usize,
    value: B,
) -> Result<usize, Refusal>
    requires { (Good work.old) × (Within (2 ^ 30) core work.old) × (key < 32) }
    ensures { EmitsEvent how.put how.inline work.old work.new out.old out.new core result (unlabelled labelled (value_of key (B.bytes value))) }
{
    emit_short(out, work, how, labelled, core, key, value)
}
