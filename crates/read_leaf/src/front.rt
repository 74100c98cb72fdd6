// The label of a value.
ghost use Rattle.std.specs.Prelude.{◌≡◌};
ghost use Rattle.format.specs.Read.{is_label};
ghost use Rattle.read_pieces.specs.Pieces.{Inside};
ghost use Rattle.read_leaf.specs.Meaning.{size_label};
ghost use Rattle.read_leaf.specs.Promises.{Owns, Bare};

use format::Refusal;
use label::Cursor;

// A label from 0 up; or below 0, and then how far below -1. Both are good answers, so that it is no Result.
#[derive(Clone, Copy)]
pub enum Size {
    Of(usize),
    Below(usize),
}

// Labels are one where the format says so: where their zig-zags are.
pub fn is_label(l: i64, n: i64) -> bool
    ensures { result ≡ is_label l n }
{
    l == n
}

// A labelled value takes the label in front of it for its own. `front` is that label, where one has been read already.
pub fn own_label(m: &[u8], front: Option<i64>, c: Cursor) -> Result<(i64, Cursor), Refusal>
    requires { Inside m.now c }
    ensures { Owns m.now front c result }
{
    match front {
        None => c.label(m).ok_or(Refusal::Label),
        Some(l) => Ok((l, c)),
    }
}

// Before an unlabelled value it is 0.
pub fn is_bare(front: Option<i64>) -> bool
    ensures { Bare front result }
{
    match front {
        None => true,
        Some(l) => is_label(l, 0),
    }
}

pub fn size_of(l: i64) -> Size
    ensures { size_label result ≡ l }
{
    if l >= 0 {
        Size::Of(l as usize)
    } else {
        Size::Below((-1 - l) as usize)
    }
}
