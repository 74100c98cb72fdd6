// Writing a label or a VARINT into a lent buffer, and how many bytes it takes.
ghost use Rattle.std.specs.Prelude.{◌≡◌, ◌+◌, ◌≤◌, length};
ghost use Rattle.std.proofs.lemmas.List.Edits.{sets};
ghost use Rattle.format.specs.Label.{varint, label, label_size};

use super::words;

// How many bytes the VARINT z takes: seven bits a byte, worked out from the leading zero bits.
pub fn varint_size(z: u64) -> usize
    ensures { result ≡ length (varint z) }
{
    let zeros = z.leading_zeros() as usize;
    (640 - 9 * zeros) / 64
}

// How many bytes the label n takes.
pub fn label_size(n: i64) -> usize
    ensures { result ≡ label_size n }
{
    varint_size(words::zigzag(n))
}

// Writes the VARINT z from `at`, and returns where it ends.
pub fn put_varint(out: &mut [u8], at: usize, z: u64) -> usize
    requires { at + length (varint z) ≤ length out.old }
    ensures out_after { out.new ≡ sets out.old at (varint z) }
    ensures value { result ≡ at + length (varint z) }
{
    let mut i = at;
    let mut v = z;
    // no range to go over: v says when to stop, and i is where the last byte goes
    while v >= 128 {
        out[i] = (128 + v % 128) as u8;
        v /= 128;
        i += 1;
    }
    out[i] = v as u8;
    i + 1
}

// Writes the label n from `at`, and returns where it ends.
pub fn put_label(out: &mut [u8], at: usize, n: i64) -> usize
    requires { at + label_size n ≤ length out.old }
    ensures out_after { out.new ≡ sets out.old at (label n) }
    ensures value { result ≡ at + label_size n }
{
    put_varint(out, at, words::zigzag(n))
}
