// One row of the tree that is to be written: judged against the table, and then counted or put into the message.
#![tactic(auto)]

ghost use Rattle.std.specs.Prelude.{◌≡◌, ◌+◌, ◌<◌, ◌≤◌, ◌^◌};
ghost use Rattle.write_row.specs.Rest.{rest_of};
ghost use Rattle.write_row.specs.Opens.{fit_truth, fit_record};
ghost use Rattle.write_row.specs.Row.{row_progress, Marks, WritesRow, Opens};

use format::Refusal;
use row::Presence;
use rows::Kind;
use write_bytes::{Pass, bytes};

pub mod leaf;
pub mod row;

// How far the writing has come: the next row, and where the core's next byte goes.
#[derive(Clone, Copy)]
pub struct Progress {
    pub row: usize,
    pub core: usize,
}

// A value that is not there and has been written so; or the value is here, with a label in front or none. Both are good answers,
// so that this is no Option and no Result.
#[derive(Clone, Copy)]
pub enum Opening {
    Gone(Progress),
    Here(bool),
}

// Row i is done once what it writes is.
fn next(i: usize, put: Result<usize, Refusal>) -> Result<Progress, Refusal>
    requires { i ≤ 8192 }
    ensures { result ≡ row_progress i put }
{
    let core = put?;
    Ok(Progress { row: i + 1, core })
}

// A row that writes a label alone.
pub fn mark(out: &mut [u8], how: Pass, at: Progress, l: i64) -> Result<Progress, Refusal>
    requires { (at.row ≤ 8192) × (at.core < 2 ^ 32) }
    ensures { Marks how.put out.old out.new at.row at.core result l }
{
    next(at.row, bytes::put_label(out, how.put, at.core, l))
}

pub fn boolean(
    rows: &[u64],
    pool: &[u8],
    out: &mut [u8],
    how: Pass,
    node: usize,
    at: Progress,
) -> Result<Progress, Refusal>
    requires { (at.row ≤ 8192) × (at.core < 2 ^ 32) }
    ensures { WritesRow how.put pool.now rows.now out.old out.new at.row at.core result (fit_truth node (rest_of pool.now rows.now at.row)) }
{
    let t = row::truth_at(rows, pool, node, at.row).ok_or(Refusal::Unfit(at.row))?;
    if t {
        return mark(out, how, at, 1);
    }
    mark(out, how, at, 0)
}

// A record's own row.
pub fn record(
    rows: &[u64],
    pool: &[u8],
    out: &mut [u8],
    how: Pass,
    labelled: bool,
    count: usize,
    node: usize,
    at: Progress,
) -> Result<Progress, Refusal>
    requires { (at.row ≤ 8192) × (at.core < 2 ^ 32) }
    ensures { WritesRow how.put pool.now rows.now out.old out.new at.row at.core result (fit_record count node labelled (rest_of pool.now rows.now at.row)) }
{
    let n = row::word_at(rows, pool, node, Kind::Record, at.row).ok_or(Refusal::Unfit(at.row))?;
    if n != count as u64 {
        return Err(Refusal::Unfit(at.row));
    }
    if !labelled {
        return Ok(Progress {
            row: at.row + 1,
            core: at.core,
        });
    }
    mark(out, how, at, 0)
}

// What stands in front of a value that may be absent or null: its row is under `node`, the topmost one.
pub fn open_value(
    rows: &[u64],
    pool: &[u8],
    out: &mut [u8],
    how: Pass,
    omittable: bool,
    nullable: bool,
    node: usize,
    at: Progress,
) -> Result<Opening, Refusal>
    requires { (at.row ≤ 8192) × (at.core < 2 ^ 32) }
    ensures { Opens how.put omittable nullable pool.now rows.now out.old out.new node at.row at.core result }
{
    if !(omittable | nullable) {
        return Ok(Opening::Here(false));
    }
    let front = row::front_at(rows, pool, node, omittable, nullable, at.row);
    let presence = front.ok_or(Refusal::Unfit(at.row))?;
    match presence {
        Presence::Absent => Ok(Opening::Gone(mark(out, how, at, -2)?)),
        Presence::Null => Ok(Opening::Gone(mark(out, how, at, -1)?)),
        Presence::Here => Ok(Opening::Here(true)),
    }
}
