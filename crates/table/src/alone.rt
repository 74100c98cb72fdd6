// Refusal 13: each node judged by itself.
ghost use Rattle.std.specs.Prelude.{◌≡◌, ◌+◌, ◌*◌, ◌≤◌, length};
ghost use Rattle.format.specs.Table.{node_at, most_argument, right_alone, each};
ghost use Rattle.format.specs.Refusal.{answered};
ghost use Rattle.table.specs.Kind.{number_of};
ghost use Rattle.table.specs.Passes.{flags_may_stand};

use super::counted::Counted;
use super::nodes::{self, Kind};
use format::Refusal;

// The largest argument of a kind.
#[tactic(auto, unfolding(format::specs::Table::most_argument))]
fn most_argument(kind: Kind) -> usize
    ensures { result ≡ most_argument (number_of kind) }
{
    match kind {
        Kind::Fixed => 4096,
        Kind::Record => 65535,
        Kind::Block => 31,
        _ => 0,
    }
}

// Only a BLOCK deduplicates.
#[tactic(auto, unfolding(crate::specs::Passes::flags_may_stand))]
fn flags_may_stand(kind: Kind, flags: u8) -> bool
    ensures { result ≡ flags_may_stand (number_of kind) flags }
{
    flags <= 1 || kind == Kind::Block
}

fn right_alone(table: &[u8], i: usize) -> bool
    requires { 11 + 4 * i ≤ length table.now }
    ensures { result ≡ right_alone (node_at table.now i) }
{
    let Some(kind) = nodes::kind_at(table, i) else {
        return false;
    };
    let flags = nodes::flags_at(table, i);
    if 3 < flags {
        return false;
    }
    if !flags_may_stand(kind, flags) {
        return false;
    }
    nodes::argument_at(table, i) <= most_argument(kind)
}

pub fn alone(counted: &Counted) -> Result<(), Refusal>
    ensures { answered result ≡ each counted.now.n (λ i. right_alone (node_at counted.now.table.now i)) 13 }
{
    for i in 0..counted.n {
        if !right_alone(counted.table, i) {
            return Err(Refusal::TableNode(i));
        }
    }
    Ok(())
}
