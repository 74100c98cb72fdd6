// Reading labels and VARINTs at a cursor: a place by value, which each read hands back moved.
ghost use Rattle.std.specs.Prelude.{◌≡◌, ◌-◌, ◌<◌, ◌≤◌, length};
ghost use Rattle.format.specs.Label.{within64};
ghost use Rattle.label.specs.Cursor.{varint_at, label_at, answer, up_to, LastByte};

use super::words;

// How far a piece has been read, and where it ends.
#[derive(Clone, Copy)]
pub struct Cursor {
    pub at: usize,
    pub end: usize,
}

impl Cursor {
    // How many bytes are left before the end.
    pub fn left(self) -> usize
        ensures { result ≡ self.end - self.at }
    {
        self.end.saturating_sub(self.at)
    }

    // The number that stands here, and the cursor moved past it; `None` where it is cut by the end, over 64 bits, or not
    // in the fewest bytes.
    pub fn varint(self, s: &[u8]) -> Option<(u64, Cursor)>
        requires { self.end ≤ length s.now }
        ensures { result ≡ varint_at s.now self }
    {
        let Cursor { at, end } = self;
        if end <= at {
            return None;
        }
        // most numbers have one byte
        let first = u64::from(s[at]);
        if first < 128 {
            return Some((first, Cursor { at: at + 1, end }));
        }
        let last = last_byte(s, at, end);
        if end <= last {
            return None;
        }
        joined(s, at, last, end)
    }

    // The same of a label.
    pub fn label(self, s: &[u8]) -> Option<(i64, Cursor)>
        requires { self.end ≤ length s.now }
        ensures { result ≡ label_at s.now self }
    {
        let (z, next) = self.varint(s)?;
        Some((words::unzigzag(z), next))
    }
}

// The place of the number's last byte, the first without a top bit; `end` if that is not among the
// first ten.
fn last_byte(s: &[u8], at: usize, end: usize) -> usize
    requires { end ≤ length s.now }
    ensures { LastByte s.now at end result }
{
    for i in at..end {
        if s[i] < 128 {
            return i;
        }
        if 9 <= i - at {
            return end;
        }
    }
    end
}

// The number in the bytes from `at` to `last`, joined from the last one, its highest bits, down.
fn joined(s: &[u8], at: usize, last: usize, end: usize) -> Option<(u64, Cursor)>
    requires { (at ≤ last) × (last < end) × (end ≤ length s.now) }
    ensures { result ≡ answer end (within64 (up_to s.now at last end)) }
{
    let mut acc = u64::from(s[last]);
    for i in (at..last).rev() {
        // a 0 here would be a byte too many
        if acc == 0 {
            return None;
        }
        let d = u64::from(s[i]) % 128;
        if (u64::MAX - d) / 128 < acc {
            return None;
        }
        acc = d + 128 * acc;
    }
    Some((acc, Cursor { at: last + 1, end }))
}
