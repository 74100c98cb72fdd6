// Writing rows as a message.
#![tactic(auto)]

ghost use Rattle.std.specs.Prelude.{◌≡◌, ◌+◌, ◌≤◌, ◌<◌, ◌^◌, length};
ghost use Rattle.format.specs.Answer.{number, second, output, zeros};
ghost use Rattle.format.specs.Refusal.{answered};
ghost use Rattle.table.specs.Answers.{mapped};
ghost use Rattle.format.specs.Modes.{inline_everything};
ghost use Rattle.format.specs.Row.{row_count};
ghost use Rattle.format.specs.Write.{are_whole, write as write_of};
ghost use Rattle.write_literals.specs.Words.{Good};
ghost use Rattle.write_passes.specs.Layout.{message_length};
ghost use Rattle.write_bytes.specs.State.{slots_of};
ghost use Rattle.wire_types.specs.Typed.{Kept};
ghost use Rattle.writer.specs.Writer.{Within, Passes, is_over, room_for, CountsIn, Fits, PutsIn, Makes, message_in};
ghost use Rattle.writer.specs.Demands.{Demands};

use format::{MOST_BYTES, MOST_ROWS, ROW_WIDTH, Refusal};
use write_bytes::Pass;

fn are_whole(rows: &[u64], pool: &[u8]) -> bool
    ensures { result ≡ are_whole rows.now pool.now }
{
    if rows.len() % ROW_WIDTH != 0 {
        return false;
    }
    if MOST_ROWS < rows.len() / ROW_WIDTH {
        return false;
    }
    pool.len() <= MOST_BYTES
}

// A pass in these modes, which puts bytes or only counts them.
fn pass_in(modes: u64, put: bool) -> Pass
    ensures { Passes modes put result }
{
    Pass {
        put,
        inline: modes::inline_everything(modes),
        numbers: !modes::no_deduplication(modes),
        ends: modes::null_terminated_strings(modes),
    }
}

// The first pass: judges the rows, and counts how many bytes the core and each block take. The core's are the answer.
fn count(
    table: &[u8],
    modes: u64,
    rows: &[u64],
    pool: &[u8],
    out: &mut [u8],
    work: &mut [u32],
) -> Result<usize, Refusal>
    requires { (Kept table.now work.old) × (Within rows.now pool.now) }
    ensures { CountsIn modes table.now pool.now rows.now out.old work.old out.new work.new result }
{
    store::clear(work);
    let done = write_walk::root(table, rows, pool, out, work, pass_in(modes, false), 0)?;
    if done.row < rows.len() / ROW_WIDTH {
        return Err(Refusal::Unfit(done.row));
    }
    Ok(done.core)
}

// How long the message is, if there are not too many different values and there is room.
fn measure(work: &[u32], modes: u64, core: usize, lent: usize) -> Result<usize, Refusal>
    requires { (Good work.now) × (core < 2 ^ 32) }
    ensures { result ≡ room_for (is_over work.now) (message_length (inline_everything modes) core (slots_of work.now)) lent }
{
    if write_literals::is_over(work) {
        return Err(Refusal::ManyLiterals);
    }
    let size = write_bytes::message_length(work, modes::inline_everything(modes), core);
    if lent < size {
        return Err(Refusal::NoRoom);
    }
    if MOST_BYTES < size {
        return Err(Refusal::NoRoom);
    }
    Ok(size)
}

// The second pass: puts every byte where the first has found that it goes. No row is refused now, and there is room.
fn put(
    table: &[u8],
    modes: u64,
    rows: &[u64],
    pool: &[u8],
    out: &mut [u8],
    work: &mut [u32],
    core: usize,
)
    requires { Fits modes table.now pool.now rows.now out.old work.old core }
    ensures { PutsIn modes table.now pool.now rows.now out.new }
{
    let start = write_bytes::lay_out(out, work, modes, core);
    let _ = write_walk::root(table, rows, pool, out, work, pass_in(modes, true), start);
}

// The message at the front of the output, and its size.
fn message(
    table: &[u8],
    modes: u64,
    rows: &[u64],
    pool: &[u8],
    out: &mut [u8],
    work: &mut [u32],
) -> Result<usize, Refusal>
    requires { Kept table.now work.old }
    ensures { Makes out.new result (message_in table.now modes rows.now pool.now (length out.old)) }
{
    if !modes::are_allowed(modes) {
        return Err(Refusal::Modes);
    }
    if !are_whole(rows, pool) {
        return Err(Refusal::RowsSize);
    }
    let core = count(table, modes, rows, pool, out, work)?;
    let size = measure(work, modes, core, out.len())?;
    put(table, modes, rows, pool, out, work, core);
    Ok(size)
}

// For a table that was checked, with the work as the check has kept it.
fn write_checked(
    table: &[u8],
    modes: u64,
    rows: &[u64],
    pool: &[u8],
    out: &mut [u8],
    work: &mut [u32],
) -> Result<usize, Refusal>
    requires { Kept table.now work.old }
    ensures answer { answered result ≡ mapped (λ m. length m) (message_in table.now modes rows.now pool.now (length out.old)) }
    ensures out_after { out.new ≡ output (λ m. m) (length out.old) (message_in table.now modes rows.now pool.now (length out.old)) }
{
    let r = message(table, modes, rows, pool, out, work);
    match r {
        Err(refusal) => {
            out.fill(0);
            Err(refusal)
        }
        Ok(size) => {
            out[size..].fill(0);
            Ok(size)
        }
    }
}

// Writes the rows as a message at the front of `out`, and answers its size. Behind the message, and everywhere after a refusal, the output is
// zero, and so is the work.
pub fn write(
    table: &[u8],
    modes: u64,
    rows: &[u64],
    pool: &[u8],
    out: &mut [u8],
    work: &mut [u32],
) -> Result<usize, Refusal>
    ensures answer { answered result ≡ mapped (λ m. length m) (write_of (length work.old) table.now modes rows.now pool.now (length out.old)) }
    ensures out_after { out.new ≡ output (λ m. m) (length out.old) (write_of (length work.old) table.now modes rows.now pool.now (length out.old)) }
    ensures work_after { work.new ≡ zeros (length work.old) }
    ensures demands { Demands (length work.old) table.now modes rows.now pool.now (length out.old) (number (answered result)) (second (λ n. n) (answered result)) out.new }
{
    if let Err(refusal) = table::check_keeping(table, work) {
        out.fill(0);
        return Err(refusal);
    }
    let r = write_checked(table, modes, rows, pool, out, work);
    work.fill(0);
    r
}
