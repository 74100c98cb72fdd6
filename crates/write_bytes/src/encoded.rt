// What a value is as bytes: a part of the pool, a label, or a word. Each says how many they are and writes them. They are 65,537 at
// most, so that no sum overflows.
ghost use Rattle.std.specs.Prelude.{◌≡◌, ◌++◌, ◌+◌, ◌≤◌, List, ℕ, length};
ghost use Rattle.std.proofs.lemmas.List.Edits.{sets};
ghost use Rattle.format.specs.Label.{label as label_of};
ghost use Rattle.format.specs.Read.{ending};
ghost use Rattle.format.specs.Write.{little_endian_bytes};
ghost use Rattle.write_bytes.specs.Short.{ended-most, label-short, word-short};

use super::as_bytes::{AsBytes, Slice};

pub trait Encoded: Copy {
    ghost bytes: { Self → List ℕ };

    fn size(self) -> usize
        ensures value { result ≡ length (bytes self) }
        ensures upper_bound { result ≤ 65537 };

    fn write(self, out: &mut [u8], at: usize)
        requires { at + length (bytes self) ≤ length out.old }
        ensures { out.new ≡ sets out.old at (bytes self) };

    ghost bounded: { (x : Self) → length (bytes x) ≤ 65537 };
}

// A part of the pool, and its ending where it is `ended` by a 00. The 00 is put and not copied: behind the part the pool may
// hold anything, or end. A pool has 65,536 bytes at most, so that a part of it is as `short`.
#[derive(Clone, Copy)]
pub struct Part<'a> {
    pub bytes: &'a [u8],
    pub ended: bool,
    ghost short: { length bytes.now ≤ 65536 },
}

#[derive(Clone, Copy)]
pub struct Label(pub i64);

// The eight bytes of a word, the lowest first.
#[derive(Clone, Copy)]
pub struct Word(pub u64);

impl Encoded for Part<'_> {
    ghost bytes = { λ p. p.bytes.now ++ ending p.ended };

    ghost bounded = { λ p. ended-most p.bytes.now p.ended p.short };

    fn size(self) -> usize {
        let slice = Slice {
            bytes: self.bytes,
            ended: self.ended,
        };
        slice.size()
    }

    fn write(self, out: &mut [u8], at: usize) {
        let slice = Slice {
            bytes: self.bytes,
            ended: self.ended,
        };
        slice.write(out, at);
    }
}

impl Encoded for Label {
    ghost bytes = { λ l. label_of l.0 };

    ghost bounded = { λ l. label-short l.0 };

    fn size(self) -> usize {
        label::label_size(self.0)
    }

    fn write(self, out: &mut [u8], at: usize) {
        label::put_label(out, at, self.0);
    }
}

impl Encoded for Word {
    ghost bytes = { λ w. little_endian_bytes 8 w.0 };

    ghost bounded = { λ w. word-short w.0 };

    fn size(self) -> usize {
        8
    }

    fn write(self, out: &mut [u8], at: usize) {
        out[at..at + 8].copy_from_slice(&self.0.to_le_bytes());
    }
}
