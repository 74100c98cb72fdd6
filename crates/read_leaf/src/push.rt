// One row more, where there may be one.
ghost use Rattle.std.specs.Prelude.{◌≡◌, [], ◌∷◌, length};
ghost use Rattle.rows.specs.Kind.{word_of};
ghost use Rattle.read_leaf.specs.State.{most_rows};
ghost use Rattle.read_leaf.specs.Push.{put_of, put_in};
ghost use Rattle.read_leaf.specs.Promises.{PutsRow};

use super::Progress;
use format::{MOST_ROWS, ROW_WIDTH, Refusal};
use label::Cursor;
use rows::Kind;

// Puts row n, which was read under this node, and answers how many rows there are with it.
pub fn push(
    rows: &mut [u64],
    n: usize,
    kind: Kind,
    a: u64,
    b: u64,
    node: usize,
) -> Result<usize, Refusal>
    ensures value { result ≡ put_of (most_rows (length rows.old)) n }
    ensures rows_after { rows.new ≡ put_in (most_rows (length rows.old)) rows.old n (word_of kind ∷ a ∷ b ∷ node ∷ []) }
{
    if MOST_ROWS <= n {
        return Err(Refusal::ManyRows);
    }
    if rows.len() / ROW_WIDTH <= n {
        return Err(Refusal::ManyRows);
    }
    rows::put_row(rows, n, u64::from(kind), a, b, node as u64);
    Ok(n + 1)
}

// A value that is one row; the core has been read up to c.
pub fn row(
    rows: &mut [u64],
    n: usize,
    kind: Kind,
    a: u64,
    b: u64,
    node: usize,
    c: Cursor,
) -> Result<Progress, Refusal>
    ensures { PutsRow n (word_of kind ∷ a ∷ b ∷ node ∷ []) c rows.old rows.new result }
{
    let next = push(rows, n, kind, a, b, node)?;
    Ok(Progress {
        core: c,
        rows: next,
    })
}
