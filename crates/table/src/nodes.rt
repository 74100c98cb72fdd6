// The nodes of a table, by index: their bytes, and what a key holds.
#![tactic(auto, unfolding(format::specs::Table::u16, format::specs::Table::node_at, format::specs::Table::omittable, format::specs::Table::deduplicate, crate::specs::Kind::kind_of))]

ghost use Rattle.std.specs.Prelude.{◌≡◌, ◌+◌, ◌*◌, ◌^◌, ◌≤◌, ◌<◌, length, get_or, eqb};
ghost use Rattle.format.specs.Table.{u16, node_at, omittable, deduplicate, leaf_of};
ghost use Rattle.table.specs.Held.{leaf_in};
ghost use Rattle.table.specs.Kind.{number_of, kind_of};

// The kinds, from number 1 on.
#[derive(Clone, Copy, Debug, PartialEq, Eq)]
pub enum Kind {
    String = 1,
    Boolean,
    Varint,
    Float64,
    Bytes,
    Fixed,
    Record,
    Array,
    Block,
    Nullable,
}

// What a key holds.
#[derive(Clone, Copy, Debug, PartialEq, Eq)]
pub enum Leaf {
    String,
    Varint,
    Float64,
    Bytes,
    Fixed(usize),
}

// A 16-bit number, low byte first.
pub fn u16_at(table: &[u8], i: usize) -> usize
    requires { i + 1 < length table.now }
    ensures { (result ≡ u16 table.now i) × (result < 65536) }
{
    usize::from(u16::from_le_bytes([table[i], table[i + 1]]))
}

// The number that the node gives for its kind.
pub fn number_at(table: &[u8], i: usize) -> u8
    requires { 11 + 4 * i ≤ length table.now }
    ensures { result ≡ (node_at table.now i).kind }
{
    table[7 + 4 * i]
}

// None where no kind has that number.
pub fn kind_at(table: &[u8], i: usize) -> Option<Kind>
    requires { 11 + 4 * i ≤ length table.now }
    ensures { result ≡ kind_of (node_at table.now i).kind }
{
    match number_at(table, i) {
        1 => Some(Kind::String),
        2 => Some(Kind::Boolean),
        3 => Some(Kind::Varint),
        4 => Some(Kind::Float64),
        5 => Some(Kind::Bytes),
        6 => Some(Kind::Fixed),
        7 => Some(Kind::Record),
        8 => Some(Kind::Array),
        9 => Some(Kind::Block),
        10 => Some(Kind::Nullable),
        _ => None,
    }
}

pub fn is_kind(table: &[u8], i: usize, kind: Kind) -> bool
    requires { 11 + 4 * i ≤ length table.now }
    ensures { result ≡ eqb (node_at table.now i).kind (number_of kind) }
{
    number_at(table, i) == kind as u8
}

pub fn flags_at(table: &[u8], i: usize) -> u8
    requires { 11 + 4 * i ≤ length table.now }
    ensures { result ≡ (node_at table.now i).flags }
{
    table[8 + 4 * i]
}

pub fn argument_at(table: &[u8], i: usize) -> usize
    requires { 11 + 4 * i ≤ length table.now }
    ensures { (result ≡ (node_at table.now i).argument) × (result < 65536) }
{
    u16_at(table, 9 + 4 * i)
}

pub fn is_omittable(table: &[u8], i: usize) -> bool
    requires { 11 + 4 * i ≤ length table.now }
    ensures { result ≡ omittable (node_at table.now i) }
{
    flags_at(table, i) % 2 == 1
}

pub fn deduplicates(table: &[u8], i: usize) -> bool
    requires { 11 + 4 * i ≤ length table.now }
    ensures { result ≡ deduplicate (node_at table.now i) }
{
    flags_at(table, i) / 2 % 2 == 1
}

// What node i, the child of a BLOCK, says that the BLOCK's key holds.
pub fn leaf_at(table: &[u8], i: usize) -> Leaf
    requires { 11 + 4 * i ≤ length table.now }
    ensures { result ≡ leaf_in (leaf_of (node_at table.now i)) }
{
    match kind_at(table, i) {
        Some(Kind::String) => Leaf::String,
        Some(Kind::Varint) => Leaf::Varint,
        Some(Kind::Float64) => Leaf::Float64,
        Some(Kind::Bytes) => Leaf::Bytes,
        _ => Leaf::Fixed(argument_at(table, i)),
    }
}

// The node after all below node i, as the check has left it in the work.
pub fn end_at(work: &[u32], i: usize) -> usize
    requires { i < length work.now }
    ensures { (result ≡ get_or work.now i 0) × (result < 2 ^ 32) }
{
    work[i] as usize
}
