// Refusal 15: each key has one kind, one length and one deduplicate flag, those of its first BLOCK.
ghost use Rattle.std.specs.Prelude.{◌≡◌, ◌+◌, ◌*◌, ◌-◌, ◌≤◌, ◌<◌, length, get_or, set};
ghost use Rattle.format.specs.Table.{node_at, alike, agrees, each};
ghost use Rattle.format.specs.Refusal.{answered};
ghost use Rattle.table.specs.Passes.{first_of, Whole, Notes, Beside};

use super::counted::Counted;
use super::nodes::{self, Kind};
use format::Refusal;

// While the pass runs, word NOTES + k is 1 more than the first BLOCK of key k, or 0: the notes stand in the lent words, as a
// check has fixed memory. The words below are the ends.
const NOTES: usize = 1024;

const NOTES_END: usize = 1056;

// Do the BLOCKs i and j say the same of their key?
fn alike(table: &[u8], i: usize, j: usize) -> bool
    requires { (15 + 4 * i ≤ length table.now) × (15 + 4 * j ≤ length table.now) }
    ensures { result ≡ alike (node_at table.now) i j }
{
    if nodes::number_at(table, i + 1) != nodes::number_at(table, j + 1) {
        return false;
    }
    if nodes::argument_at(table, i + 1) != nodes::argument_at(table, j + 1) {
        return false;
    }
    nodes::flags_at(table, i) / 2 % 2 == nodes::flags_at(table, j) / 2 % 2
}

// The first BLOCK of a key, of which node i is one, by the key's note.
#[tactic(auto, unfolding(crate::specs::Passes::first_of))]
fn first_of(note: usize, i: usize) -> usize
    requires { note ≤ i }
    ensures { (result ≡ first_of note i) × (result ≤ i) }
{
    note.checked_sub(1).unwrap_or(i)
}

// The first BLOCK of a key, of which node i is one; it is noted.
fn first_use(work: &mut [u32], key: usize, i: usize) -> usize
    requires { (key < 32) × (i < 1024) × (1056 ≤ length work.old) × (get_or work.old (1024 + key) 0 ≤ i) }
    ensures value { (result ≡ first_of (get_or work.old (1024 + key) 0) i) × (result ≤ i) }
    ensures work_after { work.new ≡ set work.old (1024 + key) (result + 1) }
{
    let first = first_of(work[NOTES + key] as usize, i);
    work[NOTES + key] = (first + 1) as u32;
    first
}

// Does node i agree with the first use of its key?
fn agree(counted: &Counted, work: &mut [u32], i: usize) -> bool
    requires { Whole counted.now.table.now counted.now.n × (i < counted.now.n) × (1056 ≤ length work.old) × Notes (node_at counted.now.table.now) i work.old }
    ensures value { result ≡ agrees counted.now.n (node_at counted.now.table.now) i }
    ensures notes { Notes (node_at counted.now.table.now) (i + 1) work.new }
    ensures beside { Beside work.old work.new }
{
    if !nodes::is_kind(counted.table, i, Kind::Block) {
        return true;
    }
    let first = first_use(work, nodes::argument_at(counted.table, i), i);
    alike(counted.table, first, i)
}

fn agree_all(counted: &Counted, work: &mut [u32]) -> Result<(), Refusal>
    requires { Whole counted.now.table.now counted.now.n × (1056 ≤ length work.old) × Notes (node_at counted.now.table.now) 0 work.old }
    ensures value { answered result ≡ each counted.now.n (agrees counted.now.n (node_at counted.now.table.now)) 15 }
    ensures beside { Beside work.old work.new }
{
    for i in 0..counted.n {
        if !agree(counted, work, i) {
            return Err(Refusal::TableKey(i));
        }
    }
    Ok(())
}

// The pass; the notes are 0 when it begins.
pub fn keys(counted: &Counted, work: &mut [u32]) -> Result<(), Refusal>
    requires { Whole counted.now.table.now counted.now.n × (1056 ≤ length work.old) }
    ensures value { answered result ≡ each counted.now.n (agrees counted.now.n (node_at counted.now.table.now)) 15 }
    ensures beside { Beside work.old work.new }
{
    work[NOTES..NOTES_END].fill(0);
    agree_all(counted, work)
}
