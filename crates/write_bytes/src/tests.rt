// What is encoded: its size, its bytes, and where they go in the core.
ghost use Rattle.std.specs.Prelude.{◌≡◌, ◌≤◌, length};
ghost use Rattle.write_passes.specs.Slots.{most};
ghost use Rattle.write_literals.specs.Words.{Good};
ghost use Rattle.write_bytes.specs.State.{slots_of};

use super::{Encoded, Label, Part, Pass, Word, event, value};
use format::Refusal;

const PUT: Pass = Pass {
    put: true,
    inline: true,
    numbers: true,
    ends: true,
};

fn clear(work: &mut [u32])
    requires { 16384 ≤ length work.old }
    ensures { (Good work.new) × (most (slots_of work.new) ≡ 0) }
{
    store::clear(work);
}

#[test]
fn sizes_and_bytes(rt: HostRuntime) {
    let mut out = [255; 8];
    let part = Part {
        bytes: b"ab",
        ended: true,
    };
    let sizes = [part.size(), Label(-2).size(), Word(1).size()];
    assert_eq!(rt; sizes, [3, 1, 8]);
    Word(0x0102).write(&mut out, 0);
    assert_eq!(rt; out, [2, 1, 0, 0, 0, 0, 0, 0]);
    part.write(&mut out, 1);
    assert_eq!(rt; out, [2, 97, 98, 0, 0, 0, 0, 0]);
    Label(-2).write(&mut out, 0);
    assert_eq!(rt; out, [3, 97, 98, 0, 0, 0, 0, 0]);
}

#[test]
fn a_part_and_its_ending(rt: HostRuntime) {
    let mut work = [0; 16384];
    let mut out = [255; 5];
    clear(&mut work);
    let part = Part {
        bytes: b"ab",
        ended: true,
    };
    let end = value::emit(&mut out, &mut work, PUT, 1, 7, part);
    assert_eq!(rt; end, Ok(4));
    assert_eq!(rt; out, [255, 97, 98, 0, 255]);
}

#[test]
fn a_label_behind_a_0(rt: HostRuntime) {
    let mut work = [0; 16384];
    let mut out = [255; 4];
    clear(&mut work);
    let end = event::emit(&mut out, &mut work, PUT, true, 1, 7, Label(-2));
    assert_eq!(rt; end, Ok(3));
    assert_eq!(rt; out, [255, 0, 3, 255]);
}

#[test]
fn no_room_for_a_word(rt: HostRuntime) {
    let mut work = [0; 16384];
    let mut out = [0; 8];
    clear(&mut work);
    let end = event::emit(&mut out, &mut work, PUT, true, 0, 7, Word(1));
    assert_eq!(rt; end, Err(Refusal::NoRoom));
}
