// The kinds of rows. Each has a word, its place among them.
ghost use Rattle.std.specs.Prelude.{◌≡◌};
ghost use Rattle.format.specs.Row.{is_place};
ghost use Rattle.rows.specs.Kind.{word_of, Decodes};

use format::Refusal;

#[derive(Clone, Copy, Debug, PartialEq, Eq)]
pub enum Kind {
    Null,
    Absent,
    False,
    True,
    Integer,
    Float,
    String,
    Bytes,
    Fixed,
    Record,
    Array,
}

impl Kind {
    // a text, bytes or a fixed: both of its row's words are used
    #[tactic(auto)]
    pub fn has_place(self) -> bool
        ensures { result ≡ is_place (word_of self) }
    {
        match self {
            Kind::String | Kind::Bytes | Kind::Fixed => true,
            _ => false,
        }
    }
}

impl From<Kind> for u64 {
    ghost from_gives = { λ kind word. word ≡ word_of kind };

    fn from(kind: Kind) -> u64 {
        kind as u64
    }
}

impl TryFrom<u64> for Kind {
    type Error = Refusal;

    ghost try_from_gives = { Decodes };

    fn try_from(word: u64) -> Result<Kind, Refusal> {
        match word {
            0 => Ok(Kind::Null),
            1 => Ok(Kind::Absent),
            2 => Ok(Kind::False),
            3 => Ok(Kind::True),
            4 => Ok(Kind::Integer),
            5 => Ok(Kind::Float),
            6 => Ok(Kind::String),
            7 => Ok(Kind::Bytes),
            8 => Ok(Kind::Fixed),
            9 => Ok(Kind::Record),
            10 => Ok(Kind::Array),
            _ => Err(Refusal::BadRow),
        }
    }
}
