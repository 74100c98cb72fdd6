// Refusal 14: the nodes make one tree, of which each may stand where it does.
ghost use Rattle.std.specs.Prelude.{◌≡◌, ◌+◌, ◌*◌, ◌≤◌, ◌<◌, length};
ghost use Rattle.format.specs.Table.{node_at, is_textual, is_leaf, kind_may_stand, omittable_may_stand, may_stand, stands, Shape, in_record, build, build_fields, below, shape_of, tree};
ghost use Rattle.laws.specs.Tree.{ends, ends_below, ends_fields};
ghost use Rattle.format.specs.Refusal.{answered};
ghost use Rattle.table.specs.Kind.{number_in};
ghost use Rattle.table.specs.Passes.{context_of, Makes, Planted};

use super::counted::Counted;
use super::nodes::{self, Kind};
use format::Refusal;

const LONGEST_PATH: usize = 32;

// What a node stands under; of a BLOCK, does it deduplicate?
#[derive(Clone, Copy, Debug, PartialEq, Eq)]
pub enum Parent {
    Nothing,
    Record,
    Array,
    Nullable,
    Block(bool),
}

#[tactic(auto, unfolding(format::specs::Table::is_textual))]
fn is_textual(kind: Option<Kind>) -> bool
    ensures { result ≡ is_textual (number_in kind) }
{
    matches!(kind, Some(Kind::String | Kind::Bytes))
}

// Does it stand in BLOCKs only?
#[tactic(auto, unfolding(format::specs::Table::is_leaf, format::specs::Table::is_textual))]
fn is_leaf(kind: Option<Kind>) -> bool
    ensures { result ≡ is_leaf (number_in kind) }
{
    matches!(
        kind,
        Some(Kind::String | Kind::Bytes | Kind::Varint | Kind::Float64 | Kind::Fixed)
    )
}

#[tactic(auto, unfolding(format::specs::Table::kind_may_stand))]
fn kind_may_stand(parent: Parent, kind: Option<Kind>) -> bool
    ensures { result ≡ kind_may_stand (context_of parent) (number_in kind) }
{
    match parent {
        Parent::Nothing | Parent::Record | Parent::Array => !is_leaf(kind),
        Parent::Nullable => !is_leaf(kind) && kind != Some(Kind::Nullable),
        Parent::Block(true) => is_textual(kind),
        Parent::Block(false) => is_leaf(kind),
    }
}

#[tactic(auto, unfolding(format::specs::Table::omittable_may_stand))]
fn omittable_may_stand(parent: Parent) -> bool
    ensures { result ≡ omittable_may_stand (context_of parent) }
{
    matches!(parent, Parent::Record)
}

fn may_stand(table: &[u8], parent: Parent, i: usize) -> bool
    requires { 11 + 4 * i ≤ length table.now }
    ensures { result ≡ may_stand (context_of parent) (node_at table.now i) }
{
    kind_may_stand(parent, nodes::kind_at(table, i))
        && (!nodes::is_omittable(table, i) || omittable_may_stand(parent))
}

// Is there a node i, may it stand there, and is the path not too long with it?
fn stand(counted: &Counted, path: usize, parent: Parent, i: usize) -> Result<(), Refusal>
    ensures { answered result ≡ stands counted.now.n (node_at counted.now.table.now) path (context_of parent) i }
{
    if counted.n <= i {
        return Err(Refusal::TableTree(counted.n));
    }
    if path == 0 {
        return Err(Refusal::TableTree(i));
    }
    if !may_stand(counted.table, parent, i) {
        return Err(Refusal::TableTree(i));
    }
    Ok(())
}

// Node i and all below it, on a path of at most so many nodes from here on; then the node after it.
#[cycle(fields_node_under)]
fn node(
    counted: &Counted,
    work: &mut [u32],
    path: usize,
    parent: Parent,
    i: usize,
) -> Result<usize, Refusal>
    requires { counted.now.n ≤ length work.old }
    ensures { Makes (ends i) i work.old work.new result (build counted.now.n (node_at counted.now.table.now) path (context_of parent) i) }
{
    if path == 0 {
        return Err(Refusal::TableTree(i));
    }
    stand(counted, path, parent, i)?;
    let j = under(counted, work, path - 1, i)?;
    work[i] = j as u32;
    Ok(j)
}

// What is below node i; then the node after it.
#[cycle(fields_node_under)]
fn under(counted: &Counted, work: &mut [u32], path: usize, i: usize) -> Result<usize, Refusal>
    requires { (counted.now.n ≤ length work.old) × (i < counted.now.n) }
    ensures { Makes (ends_below i) (i + 1) work.old work.new result
        (below counted.now.n (node_at counted.now.table.now) (shape_of (node_at counted.now.table.now i).kind) path (build counted.now.n (node_at counted.now.table.now) path) i) }
{
    match nodes::kind_at(counted.table, i) {
        Some(Kind::Record) => fields(
            counted,
            work,
            path,
            nodes::argument_at(counted.table, i),
            i + 1,
        ),
        Some(Kind::Array) => node(counted, work, path, Parent::Array, i + 1),
        Some(Kind::Block) => leaf(counted, work, path, i),
        Some(Kind::Nullable) => node(counted, work, path, Parent::Nullable, i + 1),
        _ => Ok(i + 1),
    }
}

// The child of the BLOCK at i.
fn leaf(counted: &Counted, work: &mut [u32], path: usize, i: usize) -> Result<usize, Refusal>
    requires { (counted.now.n ≤ length work.old) × (i < counted.now.n) }
    ensures { Makes (ends_below i) (i + 1) work.old work.new result
        (below counted.now.n (node_at counted.now.table.now) Shape.leaf path (build counted.now.n (node_at counted.now.table.now) path) i) }
{
    let parent = Parent::Block(nodes::deduplicates(counted.table, i));
    stand(counted, path, parent, i + 1)?;
    work[i + 1] = (i + 2) as u32;
    Ok(i + 2)
}

// So many fields, from node i on; then the node after them.
#[cycle(fields_node_under)]
fn fields(
    counted: &Counted,
    work: &mut [u32],
    path: usize,
    count: usize,
    i: usize,
) -> Result<usize, Refusal>
    requires { counted.now.n ≤ length work.old }
    ensures { Makes (ends_fields i) i work.old work.new result
        (build_fields counted.now.n (node_at counted.now.table.now) count (build counted.now.n (node_at counted.now.table.now) path in_record) i) }
{
    let mut at = i;
    for _ in 0..count {
        at = node(counted, work, path, Parent::Record, at)?;
    }
    Ok(at)
}

// The whole tree, which uses all n nodes.
pub fn tree(counted: &Counted, work: &mut [u32]) -> Result<(), Refusal>
    requires { counted.now.n ≤ length work.old }
    ensures { Planted work.old work.new result (tree counted.now.n (node_at counted.now.table.now)) }
{
    let j = node(counted, work, LONGEST_PATH, Parent::Nothing, 0)?;
    if j != counted.n {
        return Err(Refusal::TableTree(j));
    }
    Ok(())
}
