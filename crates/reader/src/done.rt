// Refusal 30: whether bytes or blocks are left unused.
ghost use Rattle.std.specs.Prelude.{◌≡◌};
ghost use Rattle.read_literals.specs.Words.{Good};
ghost use Rattle.reader.specs.Reader.{AllRead, IsDone};

use label::Cursor;

// Has the block of each key that was touched been read to its end?
fn all_read(work: &[u32]) -> bool
    requires { Good work.now }
    ensures { AllRead work.now result }
{
    for i in 0..store::slot_count(work) {
        let slot = store::slot_at(work, i);
        if slot.at != slot.end {
            return false;
        }
    }
    true
}

pub fn is_done(work: &[u32], core: Cursor) -> bool
    requires { Good work.now }
    ensures { IsDone work.now core result }
{
    if core.at != core.end {
        return false;
    }
    let rest = store::rest(work);
    if rest.at != rest.end {
        return false;
    }
    all_read(work)
}
