// The table file: its check, and what a walk over a checked table asks of it.
#![tactic(auto)]

ghost use Rattle.std.specs.Prelude.{◌≡◌, ◌≤◌, length};
ghost use Rattle.format.specs.Answer.{zeros};
ghost use Rattle.format.specs.Refusal.{answered};
ghost use Rattle.format.specs.Table.{check, schema_of};
ghost use Rattle.table.specs.Answers.{mapped};
ghost use Rattle.table.specs.Passes.{Kept, Leaves};

mod alone;
mod counted;
mod header;
mod keys;
pub mod nodes;
mod tree;

use counted::Counted;
use format::{Refusal, WORK_WORDS};

// 10 to 15, each over all nodes before the next; then the node count.
fn passes(table: &[u8], work: &mut [u32]) -> Result<usize, Refusal>
    requires { 16384 ≤ length work.old }
    ensures { Kept work.new result (schema_of table.now) }
{
    let n = header::header(table)?;
    let counted = Counted { table, n };
    alone::alone(&counted)?;
    tree::tree(&counted, work)?;
    keys::keys(&counted, work)?;
    Ok(n)
}

// The check that a walk over the table begins with; then the node count. On success word i is the node after all below
// node i, for each node, and nothing is said of the other words; after a refusal all are 0.
pub fn check_keeping(table: &[u8], work: &mut [u32]) -> Result<usize, Refusal>
    ensures answer { answered result ≡ mapped (λ s. s.count) (check (length work.old) table.now) }
    ensures leaves { Leaves work.new (length work.old) (check (length work.old) table.now) }
{
    if work.len() < WORK_WORDS {
        work.fill(0);
        return Err(Refusal::WorkShort);
    }
    match passes(table, work) {
        Ok(n) => Ok(n),
        Err(refusal) => {
            work.fill(0);
            Err(refusal)
        }
    }
}

// The table's check by itself; then the node count.
pub fn check(table: &[u8], work: &mut [u32]) -> Result<usize, Refusal>
    ensures answer { answered result ≡ mapped (λ s. s.count) (check (length work.old) table.now) }
    ensures work_after { work.new ≡ zeros (length work.old) }
{
    let n = check_keeping(table, work)?;
    work.fill(0);
    Ok(n)
}
