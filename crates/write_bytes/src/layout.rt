// Between the two passes: how long the message is, and where its pieces go.
ghost use Rattle.std.specs.Prelude.{◌≡◌, ◌+◌, ◌<◌, ◌≤◌, ◌^◌, length};
ghost use Rattle.format.specs.Modes.{inline_everything};
ghost use Rattle.label.specs.Laws.{framed as framed_of};
ghost use Rattle.write_literals.specs.Words.{Good};
ghost use Rattle.write_passes.specs.Layout.{block_space, message_length};
ghost use Rattle.write_passes.specs.Slots.{Apart};
ghost use Rattle.write_bytes.specs.State.{slots_of};
ghost use Rattle.write_bytes.specs.Layout.{LaysBlocks, LaysOut};

use super::bytes;

// How many bytes a piece of so many takes with its label.
fn framed(size: usize) -> usize
    requires { size < 2 ^ 32 }
    ensures { (result ≡ framed_of size) × (result ≤ size + 10) }
{
    label::label_size(bytes::count_label(size)) + size
}

// Where the core, or its label, stands: behind the header and the blocks with their labels.
fn blocks_end(work: &[u32]) -> usize
    requires { Good work.now }
    ensures { (result ≡ 1 + block_space (slots_of work.now)) × (result < 2 ^ 40) }
{
    let n = store::slot_count(work);
    let mut at = 1;
    for i in 0..n {
        let slot = store::slot_at(work, i);
        at += framed(slot.at);
    }
    at
}

// How many bytes the message takes, from what was counted.
pub fn message_length(work: &[u32], inline: bool, core: usize) -> usize
    requires { (Good work.now) × (core < 2 ^ 32) }
    ensures { result ≡ message_length inline core (slots_of work.now) }
{
    let at = blocks_end(work);
    if inline {
        return at + core;
    }
    at + framed(core)
}

// Puts each block's label, and moves the block's slot from its size to its start. Returns where the blocks end.
fn lay_blocks(out: &mut [u8], work: &mut [u32]) -> usize
    requires { (Good work.old) × (Apart (slots_of work.old)) × (1 + block_space (slots_of work.old) ≤ length out.old) × (block_space (slots_of work.old) < 2 ^ 31) }
    ensures { LaysBlocks work.old work.new out.old out.new result }
{
    let n = store::slot_count(work);
    let mut at = 1;
    for i in 0..n {
        let slot = store::slot_at(work, i);
        let size = slot.at;
        let start = label::put_label(out, at, bytes::count_label(size));
        store::advance(work, slot.key, start);
        at = start + size;
    }
    at
}

// Puts the header and the pieces' labels, sets each block to where it starts, and forgets the literals. Returns where the core starts.
pub fn lay_out(out: &mut [u8], work: &mut [u32], modes: u64, core: usize) -> usize
    requires { (Good work.old) × (Apart (slots_of work.old)) × (modes < 128) × (message_length (inline_everything modes) core (slots_of work.old) ≤ length out.old) × (message_length (inline_everything modes) core (slots_of work.old) ≤ 65536) }
    ensures { LaysOut modes core work.old work.new out.old out.new result }
{
    out[0] = (2 * modes) as u8;
    let at = lay_blocks(out, work);
    store::forget(work);
    if modes::inline_everything(modes) {
        return at;
    }
    label::put_label(out, at, bytes::count_label(core))
}
