// Refusals 10 to 12: the mark, the version, and the node count against the length.
ghost use Rattle.std.specs.Prelude.{◌≡◌, ◌<◌};
ghost use Rattle.format.specs.Table.{is_marked, right_count};
ghost use Rattle.format.specs.Refusal.{answered};
ghost use Rattle.table.specs.Passes.{header_of};

use super::nodes;
use format::{MOST_NODES, Refusal};

fn is_marked(table: &[u8]) -> bool
    ensures { result ≡ is_marked table.now }
{
    7 <= table.len() && table.starts_with(b"AWT")
}

fn right_count(n: usize, size: usize) -> bool
    requires { n < 65536 }
    ensures { result ≡ right_count n size }
{
    1 <= n && n <= MOST_NODES && size == 7 + 4 * n
}

// The node count.
pub fn header(table: &[u8]) -> Result<usize, Refusal>
    ensures { answered result ≡ header_of table.now }
{
    if !is_marked(table) {
        return Err(Refusal::TableMark);
    }
    if nodes::u16_at(table, 3) != 1 {
        return Err(Refusal::TableVersion);
    }
    let n = nodes::u16_at(table, 5);
    if !right_count(n, table.len()) {
        return Err(Refusal::TableSize);
    }
    Ok(n)
}
