// A value of any size as bytes: how many they are, and writing them. All that is encoded is one, and so is a slice with its ending.
// They are no more than a slice's and a 00, so that no sum of a place and them overflows.
ghost use Rattle.std.specs.Prelude.{◌≡◌, ◌++◌, ◌+◌, ◌<◌, ◌≤◌, ◌^◌, List, ℕ, ⊤, length};
ghost use Rattle.std.proofs.lemmas.List.Edits.{sets};
ghost use Rattle.format.specs.Read.{ending};
ghost use Rattle.write_bytes.specs.Short.{ended-most, ended-bounded, short-bounded};

use super::encoded::Encoded;

pub trait AsBytes: Copy {
    ghost bytes: { Self → List ℕ };

    // What makes a value short enough for a slot: all that is encoded is.
    ghost IsShort: { Self → Type 0 };

    fn size(self) -> usize
        ensures value { result ≡ length (bytes self) }
        ensures upper_bound { result ≤ 2 ^ 63 };

    fn write(self, out: &mut [u8], at: usize)
        requires { at + length (bytes self) ≤ length out.old }
        ensures { out.new ≡ sets out.old at (bytes self) };

    ghost bounded: { (x : Self) → length (bytes x) ≤ 2 ^ 63 };

    ghost short_bounded: { (x : Self) → IsShort x → length (bytes x) ≤ 65537 };
}

impl<B: Encoded> AsBytes for B {
    ghost bytes = { B.bytes };

    ghost IsShort = { λ x. ⊤ };

    ghost bounded = { λ x. short-bounded (B.bytes x) (B.bounded x) };

    ghost short_bounded = { λ x h. B.bounded x };

    fn size(self) -> usize {
        Encoded::size(self)
    }

    fn write(self, out: &mut [u8], at: usize) {
        Encoded::write(self, out, at);
    }
}

// A slice, and its ending where it is `ended` by a 00. The 00 is put and not copied: behind the slice the pool may hold anything,
// or end. Every slice is so `bounded`: it asks nothing of callers.
#[derive(Clone, Copy)]
pub struct Slice<'a> {
    pub bytes: &'a [u8],
    pub ended: bool,
    ghost bounded: { length bytes.now < 2 ^ 63 },
}

// Byte by byte: std's copy_from_slice would want memmove, and of the C library the library wants memset alone
// (include/argo.h).
fn copy(out: &mut [u8], at: usize, bytes: &[u8])
    requires { at + length bytes.now ≤ length out.old }
    ensures { out.new ≡ sets out.old at bytes.now }
{
    for i in 0..bytes.len() {
        out[at + i] = bytes[i];
    }
}

impl AsBytes for Slice<'_> {
    ghost bytes = { λ p. p.bytes.now ++ ending p.ended };

    ghost IsShort = { λ p. length p.bytes.now ≤ 65536 };

    ghost bounded = { λ p. ended-bounded p.bytes.now p.ended p.bounded };

    ghost short_bounded = { λ p h. ended-most p.bytes.now p.ended h };

    fn size(self) -> usize {
        modes::size_with_ending(self.bytes.len(), self.ended)
    }

    fn write(self, out: &mut [u8], at: usize) {
        copy(out, at, self.bytes);
        if !self.ended {
            return;
        }
        out[at + self.bytes.len()] = 0;
    }
}
