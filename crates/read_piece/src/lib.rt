// A piece together with how far it has been read: the reading place that each piece of a message has.
// The functions over it are thin, and their work is the cursor's. No proof of a caller need know the struct: callers use
// the two functions at the end, which take a plain slice and a number.
#![tactic(auto)]

ghost use Rattle.std.specs.Prelude.{◌≡◌, ◌-◌, length};
ghost use Rattle.label.specs.Cursor.{cursor, label_at};

use label::Cursor;

#[derive(Clone, Copy)]
pub struct Piece<'a> {
    pub bytes: &'a [u8],
    pub at: usize,
}

impl<'a> Piece<'a> {
    // Nothing of it has been read.
    pub fn new(bytes: &'a [u8]) -> Piece<'a>
        ensures { (result.bytes ≡ bytes.entry) × (result.at ≡ 0) }
    {
        Piece { bytes, at: 0 }
    }

    pub fn moved(self, at: usize) -> Piece<'a>
        ensures { (result.bytes ≡ self.entry.bytes) × (result.at ≡ at) }
    {
        Piece { at, ..self }
    }

    // The place in its bytes.
    fn place(self) -> Cursor
        ensures { result ≡ cursor self.entry.at (length self.entry.bytes.now) }
    {
        Cursor {
            at: self.at,
            end: self.bytes.len(),
        }
    }

    // The number, and how far the piece has been read behind it.
    pub fn label(self) -> Option<(i64, Cursor)>
        ensures { result ≡ label_at self.entry.bytes.now (cursor self.entry.at (length self.entry.bytes.now)) }
    {
        self.place().label(self.bytes)
    }

    // How many bytes of it have not been read.
    pub fn left(self) -> usize
        ensures { result ≡ length self.entry.bytes.now - self.entry.at }
    {
        self.place().left()
    }
}

// The label where the first `at` bytes of a piece have been read.
pub fn label_at(bytes: &[u8], at: usize) -> Option<(i64, Cursor)>
    ensures { result ≡ label_at bytes.now (cursor at (length bytes.now)) }
{
    Piece::new(bytes).moved(at).label()
}

// How many bytes are left behind them.
pub fn left_at(bytes: &[u8], at: usize) -> usize
    ensures { result ≡ length bytes.now - at }
{
    Piece::new(bytes).moved(at).left()
}
