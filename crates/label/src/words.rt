// Two's complement words and zig-zag.
ghost use Rattle.std.specs.Prelude.{◌≡◌};
ghost use Rattle.format.specs.Label.{word, integer, zigzag, unzigzag};

// The two's complement word of n.
pub fn word_of(n: i64) -> u64
    ensures { result ≡ word n }
{
    n.cast_unsigned()
}

// The integer whose two's complement word is w.
pub fn integer_of(w: u64) -> i64
    ensures { result ≡ integer w }
{
    w.cast_signed()
}

// 2n, or -2n-1 below zero: 2k+1 for -1-k, the word of which is k with each bit turned.
pub fn zigzag(n: i64) -> u64
    ensures { result ≡ zigzag n }
{
    let w = word_of(n);
    if n >= 0 { 2 * w } else { 2 * !w + 1 }
}

// The integer whose zig-zag is z.
pub fn unzigzag(z: u64) -> i64
    ensures { result ≡ unzigzag z }
{
    let half = z / 2;
    if z % 2 == 0 {
        integer_of(half)
    } else {
        integer_of(!half)
    }
}
