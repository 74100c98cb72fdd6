// The wire type that a checked table has at a node, for the walks of the reader and of the writer; most of it is in specs/.
// And what both walks ask on their way: whether a value of a run may be absent, where its own node is, what is left of the
// path there, and where the next value's node is. The flags `nullable` and `repeated` are a bool each, since the definitions
// take each as a Bool.
#![tactic(auto)]

ghost use Rattle.std.specs.Prelude.{◌≡◌, ◌+◌, ◌*◌, ◌≤◌, ◌<◌, length};
ghost use Rattle.format.specs.Table.{node_at};
ghost use Rattle.wire_types.specs.Typed.{below as below_of};
ghost use Rattle.wire_types.specs.Run.{absent_in, next_in};
ghost use Rattle.wire_types.specs.Path.{path_below};

use table::nodes;

// Only a field may be absent.
pub fn may_be_absent(table: &[u8], node: usize, repeated: bool) -> bool
    requires { 11 + 4 * node ≤ length table.now }
    ensures { result ≡ absent_in repeated (node_at table.now node) }
{
    !repeated && nodes::is_omittable(table, node)
}

// The value's own node, behind a NULLABLE or not.
pub fn below(nullable: bool, node: usize) -> usize
    requires { node < 1024 }
    ensures { result ≡ below_of nullable node }
{
    if nullable { node + 1 } else { node }
}

// The path that is left at the value's own node: a NULLABLE is a node of it too.
pub fn path_below(nullable: bool, left: usize) -> usize
    requires { 1 ≤ left }
    ensures { result ≡ path_below nullable left }
{
    if nullable { left - 1 } else { left }
}

// The node of the next value.
pub fn next_node(work: &[u32], node: usize, repeated: bool) -> usize
    requires { node < length work.now }
    ensures { result ≡ next_in repeated node work.now }
{
    if repeated {
        node
    } else {
        nodes::end_at(work, node)
    }
}
