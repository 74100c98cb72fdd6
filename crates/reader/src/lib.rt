// Reading a message into rows.
#![tactic(auto)]

ghost use Rattle.std.specs.Prelude.{◌≡◌, ◌<◌, ◌≤◌, ◌^◌, length};
ghost use Rattle.format.specs.Answer.{output, zeros};
ghost use Rattle.format.specs.Refusal.{answered};
ghost use Rattle.format.specs.Row.{words};
ghost use Rattle.format.specs.Read.{read as read_of};
ghost use Rattle.table.specs.Answers.{mapped};
ghost use Rattle.wire_types.specs.Typed.{Kept};
ghost use Rattle.reader.specs.Reader.{is_sized, rows_of, Begins, Gives, used_by};

mod done;

use format::{MOST_BYTES, ROW_WIDTH, Refusal};
use label::Cursor;
use read_leaf::Message;

// Whether there are as many bytes as there may be.
#[tactic(auto, unfolding(crate::specs::Reader::is_sized))]
fn is_sized(m: &[u8]) -> bool
    ensures { result ≡ is_sized m.now }
{
    1 <= m.len() && m.len() <= MOST_BYTES
}

// Where the core stands. The work holds what a walk begins with: no key is touched, and all blocks wait.
fn begin(message: &Message, work: &mut [u32]) -> Result<Cursor, Refusal>
    requires { (16384 ≤ length work.old) × (1 ≤ length message.now.bytes.now) × (length message.now.bytes.now ≤ 65536) }
    ensures { Begins message.now.bytes.now message.now.modes work.old work.new result }
{
    store::clear(work);
    // the rest of the message is the core
    if modes::inline_everything(message.modes) {
        let end = message.bytes.len();
        store::set_rest(work, end, end);
        return Ok(Cursor { at: 1, end });
    }
    let parts = read_pieces::part(message.bytes).ok_or(Refusal::Pieces)?;
    store::set_rest(work, parts.blocks.at, parts.blocks.end);
    Ok(parts.core)
}

// 20 to 22, the walk, and then 30: the rows from the first on, and how many there are.
fn rows_of(table: &[u8], m: &[u8], rows: &mut [u64], work: &mut [u32]) -> Result<usize, Refusal>
    requires { Kept table.now work.old }
    ensures { Gives table.now rows.old rows.new work.new result (rows_of table.now m.now (length rows.old)) }
{
    if !is_sized(m) {
        return Err(Refusal::MessageSize);
    }
    let modes = modes::read_header(m[0]).ok_or(Refusal::Header)?;
    let message = Message { bytes: m, modes };
    let core = begin(&message, work)?;
    let end = read_walk::root(table, &message, rows, work, core)?;
    if !done::is_done(work, end.core) {
        return Err(Refusal::Unused);
    }
    Ok(end.rows)
}

// How many words of the rows are the answer's: none after a refusal.
fn used_words(r: Result<usize, Refusal>) -> usize
    requires { used_by r < 2 ^ 64 }
    ensures { result ≡ used_by r }
{
    match r {
        Err(_) => 0,
        Ok(count) => ROW_WIDTH * count,
    }
}

// For a table that was checked, with the work as the check has kept it. Whether the message is read or refused, the work is
// right for another one afterwards.
fn read_checked(
    table: &[u8],
    message: &[u8],
    rows: &mut [u64],
    work: &mut [u32],
) -> Result<usize, Refusal>
    requires { Kept table.now work.old }
    ensures answer { answered result ≡ mapped (λ rs. length rs) (rows_of table.now message.now (length rows.old)) }
    ensures rows_after { rows.new ≡ output words (length rows.old) (rows_of table.now message.now (length rows.old)) }
    ensures kept { Kept table.now work.new }
{
    let r = rows_of(table, message, rows, work);
    let used = used_words(r);
    rows[used..].fill(0);
    r
}

// Any message under any table; what the buffers held before makes no difference. The answer is how many rows there are. On
// success they stand in front and zeros behind them; after a refusal all are zeros, and so is the work in either case.
pub fn read(
    table: &[u8],
    message: &[u8],
    rows: &mut [u64],
    work: &mut [u32],
) -> Result<usize, Refusal>
    ensures answer { answered result ≡ mapped (λ rs. length rs) (read_of (length work.old) table.now message.now (length rows.old)) }
    ensures rows_after { rows.new ≡ output words (length rows.old) (read_of (length work.old) table.now message.now (length rows.old)) }
    ensures work_after { work.new ≡ zeros (length work.old) }
{
    match table::check_keeping(table, work) {
        Ok(_) => {
            let r = read_checked(table, message, rows, work);
            work.fill(0);
            r
        }
        Err(refusal) => {
            rows.fill(0);
            Err(refusal)
        }
    }
}
