// Why a call refuses. Each refusal has its number, and one that tells of a place has that as its second number.
ghost use Rattle.std.specs.Prelude.{◌≡◌};
ghost use Rattle.format.specs.Refusal.{number_of, second_of};

#[derive(Clone, Copy, Debug, PartialEq, Eq)]
pub enum Refusal {
    // the work is too short
    WorkShort,
    // the table: its mark, its version, its size; a node by itself, a node where it stands, the key of a BLOCK
    TableMark,
    TableVersion,
    TableSize,
    TableNode(usize),
    TableTree(usize),
    TableKey(usize),
    // the message: its size, its header, its pieces
    MessageSize,
    Header,
    Pieces,
    // what it says of a value
    Label,
    LabelPlace,
    Error,
    Backreference,
    Cut,
    // in a message 0, else the row
    Text(usize),
    NoBlock,
    Unused,
    ManyRows,
    ManyLiterals,
    Terminator,
    // the writer's modes, rows and pool; a row that does not fit; no room for the message
    Modes,
    RowsSize,
    Unfit(usize),
    NoRoom,
    // a look at a row
    NoRow,
    BadRow,
}

impl Refusal {
    pub fn number(self) -> u64
        ensures { result ≡ number_of self }
    {
        match self {
            Refusal::WorkShort => 1,
            Refusal::TableMark => 10,
            Refusal::TableVersion => 11,
            Refusal::TableSize => 12,
            Refusal::TableNode(_) => 13,
            Refusal::TableTree(_) => 14,
            Refusal::TableKey(_) => 15,
            Refusal::MessageSize => 20,
            Refusal::Header => 21,
            Refusal::Pieces => 22,
            Refusal::Label => 23,
            Refusal::LabelPlace => 24,
            Refusal::Error => 25,
            Refusal::Backreference => 26,
            Refusal::Cut => 27,
            Refusal::Text(_) => 28,
            Refusal::NoBlock => 29,
            Refusal::Unused => 30,
            Refusal::ManyRows => 31,
            Refusal::ManyLiterals => 32,
            Refusal::Terminator => 35,
            Refusal::Modes => 40,
            Refusal::RowsSize => 41,
            Refusal::Unfit(_) => 42,
            Refusal::NoRoom => 43,
            Refusal::NoRow => 50,
            Refusal::BadRow => 51,
        }
    }

    pub fn second(self) -> u64
        ensures { result ≡ second_of self }
    {
        match self {
            Refusal::TableNode(at)
            | Refusal::TableTree(at)
            | Refusal::TableKey(at)
            | Refusal::Text(at)
            | Refusal::Unfit(at) => at as u64,
            _ => 0,
        }
    }
}
