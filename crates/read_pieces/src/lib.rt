// The message cut into pieces: the core, and the blocks in front of it, which are handed out one by one.
#![tactic(auto)]

ghost use Rattle.read_pieces.specs.Pieces.{Blocks, PieceIs, Parted, Gave};

use label::Cursor;

// The core, and where the blocks stand: from the label of the first to that of the core.
#[derive(Clone, Copy)]
pub struct Parts {
    pub core: Cursor,
    pub blocks: Cursor,
}

// The piece whose label stands at `at`. For that the whole message is read as one piece.
fn piece_at(m: &[u8], at: usize) -> Option<Cursor>
    ensures { PieceIs m.now at result }
{
    let (n, next) = read_piece::label_at(m, at)?;
    if n < 0 {
        return None;
    }
    let start = next.at;
    let size = n as usize;
    if read_piece::left_at(m, start) < size {
        return None;
    }
    Some(Cursor {
        at: start,
        end: start + size,
    })
}

// All pieces, from behind the header to the end of the message.
pub fn part(m: &[u8]) -> Option<Parts>
    ensures { Parted m.now result }
{
    let mut at = 1;
    // each piece says where the next one begins, so a `for` is no plainer
    loop {
        let core = piece_at(m, at)?;
        let next = core.end;
        if next == m.len() {
            return Some(Parts {
                core,
                blocks: Cursor { at: 1, end: at },
            });
        }
        at = next;
    }
}

// The next block of those not given yet. The label after it stands where it ends.
pub fn next_block(m: &[u8], rest: Cursor) -> Option<Cursor>
    requires { Blocks m.now rest.at rest.end }
    ensures { Gave m.now rest.at rest.end result }
{
    let at = rest.at;
    if at == rest.end {
        return None;
    }
    piece_at(m, at)
}
