// The earlier literal of a key that has the same bytes as a text.
#![tactic(auto)]

ghost use Rattle.std.specs.Prelude.{◌≡◌, true, [], ℕ, ◌+◌, ◌<◌, ◌≤◌, ◌^◌, length, get_or};
ghost use Rattle.format.specs.Row.{bytes_at};
ghost use Rattle.format.specs.Write.{first_equal};
ghost use Rattle.write_literals.specs.Words.{store_of, Good};
ghost use Rattle.write_search.specs.Hash.{word4 as word4_of, word8 as word8_of, few as few_of, mixed as mixed_of, stride as stride_of, whole as whole_of, ended as ended_of, hash as hash_of};
ghost use Rattle.write_search.specs.Search.{number, second_word, AreLiterals, InWords, KeepAs, texts_of};

use write_literals::{Met, SPAN};

// A half of a word of eight bytes.
const HALF: u64 = 4294967296;

// The literal's number, or the two words to keep the text by: both are good answers.
#[derive(Clone, Copy)]
pub enum Found {
    Number(usize),
    Nothing { first: usize, second: usize },
}

// The second word to keep a text by. Nearly always it tells whether a literal may be equal.
fn second_word(size: usize, near: usize, pairs: usize) -> usize
    requires { (size < 131072) × (near < 4096) }
    ensures { (result ≡ second_word size near pairs) × (result < 2 ^ 32) }
{
    size + SPAN * (near + 4096 * (pairs % 8))
}

// Four bytes as a number, the lowest first.
fn word4(pool: &[u8], i: usize) -> u64
    requires { (i + 4 ≤ length pool.now) × (length pool.now ≤ 65536) }
    ensures { (result ≡ word4_of pool.now i) × (result < 4294967296) }
{
    u64::from(u32::from_le_bytes([pool[i], pool[i + 1], pool[i + 2], pool[i + 3]]))
}

fn word8(pool: &[u8], i: usize) -> u64
    requires { (i + 8 ≤ length pool.now) × (length pool.now ≤ 65536) }
    ensures { (result ≡ word8_of pool.now i) × (result < 18446744073709551616) }
{
    u64::from_le_bytes([
        pool[i],
        pool[i + 1],
        pool[i + 2],
        pool[i + 3],
        pool[i + 4],
        pool[i + 5],
        pool[i + 6],
        pool[i + 7],
    ])
}

// The first and last bytes of a text of fewer than eight. Here and below a text's start and its size are two numbers and no
// Place: each is reckoned with by itself, and a Place would be taken apart at once.
fn few(pool: &[u8], start: usize, size: usize) -> u64
    requires { (start + size ≤ length pool.now) × (length pool.now ≤ 65536) × (size < 8) }
    ensures { (result ≡ few_of (bytes_at pool.now (record { start = start; size = size }))) × (result < 18446744073709551616) }
{
    if size < 4 {
        if size == 0 {
            return 0;
        }
        return u64::from(pool[start])
            + 256 * u64::from(pool[start + size / 2])
            + 65536 * u64::from(pool[start + (size - 1)]);
    }
    word4(pool, start) + HALF * word4(pool, start + (size - 4))
}

// No product and no sum goes over 64 bits: the factors add up to less than a half.
fn mixed(h: u64, w: u64) -> u64
    requires { (h < 4294967296) × (w < 18446744073709551616) }
    ensures { (result ≡ mixed_of h w) × (result < 4294967296) }
{
    let x = w % HALF * 2246822519 + w / HALF * 1540483477;
    (31 * h + x / HALF + x % HALF) % HALF
}

// From one word to the next: all bytes of a text of up to 64, and nine words of a longer one.
fn stride(size: usize) -> usize
    ensures { (result ≡ stride_of size) × (8 ≤ result) × (result ≤ size + 8) }
{
    if 64 < size {
        return (size - 8) / 7;
    }
    8
}

// All words of a text of eight bytes or more.
fn whole(pool: &[u8], start: usize, size: usize) -> u64
    requires { (start + size ≤ length pool.now) × (length pool.now ≤ 65536) × (8 ≤ size) }
    ensures { (result ≡ whole_of (bytes_at pool.now (record { start = start; size = size }))) × (result < 4294967296) }
{
    let step = stride(size);
    let mut h = 0;
    for i in (0..size - 8).step_by(step) {
        h = mixed(h, word8(pool, start + i));
    }
    mixed(h, word8(pool, start + (size - 8)))
}

fn ended(h: u64) -> usize
    requires { h < 4294967296 }
    ensures { (result ≡ ended_of h) × (result < 134217728) }
{
    (h * 3266489917 / 65536 % 134217728) as usize
}

// A number of 27 bits from the bytes of a text.
fn hash(pool: &[u8], start: usize, size: usize) -> usize
    requires { (start + size ≤ length pool.now) × (length pool.now ≤ 65536) }
    ensures { (result ≡ hash_of (bytes_at pool.now (record { start = start; size = size }))) × (result < 134217728) }
{
    if size < 8 {
        return ended(mixed(0, few(pool, start, size)));
    }
    ended(whole(pool, start, size))
}

// Whether eight bytes are equal.
fn same8(pool: &[u8], a: usize, b: usize) -> bool
    requires { (a + 8 ≤ length pool.now) × (b + 8 ≤ length pool.now) × (length pool.now ≤ 65536) }
    ensures { result ≡ true → (i : ℕ) → i < 8 → get_or pool.now (a + i) 0 ≡ get_or pool.now (b + i) 0 }
{
    word8(pool, a) == word8(pool, b)
}

// From byte `from` on, eight bytes at a time, as long as they are equal. Where it stops is the answer, so a `for` is no plainer.
fn alike_to(pool: &[u8], a: usize, b: usize, from: usize, size: usize) -> usize
    requires { (a + size ≤ length pool.now) × (b + size ≤ length pool.now) × (length pool.now ≤ 65536) × (from ≤ size) }
    ensures { (from ≤ result) × (result ≤ size) × ((i : ℕ) → from ≤ i → i < result → get_or pool.now (a + i) 0 ≡ get_or pool.now (b + i) 0) }
{
    let mut k = from;
    while k + 8 <= size && same8(pool, a + k, b + k) {
        k += 8;
    }
    k
}

// How many bytes are equal, where those before byte `from` are.
fn alike(pool: &[u8], a: usize, b: usize, from: usize, size: usize) -> usize
    requires { (a + size ≤ length pool.now) × (b + size ≤ length pool.now) × (length pool.now ≤ 65536) × (from ≤ size) }
    ensures bounds { (from ≤ result) × (result ≤ size) }
    ensures equal { (i : ℕ) → from ≤ i → i < result → get_or pool.now (a + i) 0 ≡ get_or pool.now (b + i) 0 }
    ensures differ { result < size → get_or pool.now (a + result) 0 ≡ get_or pool.now (b + result) 0 → ⊥ }
{
    for k in alike_to(pool, a, b, from, size)..size {
        if pool[a + k] != pool[b + k] {
            return k;
        }
    }
    size
}

// The number of the key's first literal that equals the `size` bytes of the pool from `start`.
// Bytes are compared only with a literal that is alike, from where they are not known to be equal.
pub fn choose(pool: &[u8], work: &[u32], key: usize, start: usize, size: usize) -> Found
    requires { (Good work.now) × (AreLiterals pool.now (store_of work.now).literals) × (key < 32) × (start + size ≤ length pool.now) × (length pool.now ≤ 65536) }
    ensures result_value { number result ≡ first_equal (bytes_at pool.now (record { start = start; size = size })) (texts_of pool.now (get_or (store_of work.now).literals key [])) }
    ensures in_words { InWords result }
    ensures keep_as { KeepAs pool.now (texts_of pool.now (get_or (store_of work.now).literals key [])) (record { start = start; size = size }) result }
{
    let h = hash(pool, start, size);
    // a text that was not compared with any has bits of its hash, and a mark
    let mut near = h % 4096;
    let mut pairs = 65536 + h / 4096;
    let mut known = 0;
    let mut met = write_literals::meet(work, key, 0, pairs / 8, second_word(size, near, pairs));
    // what is looked for next depends on what was met: no `for` goes over it
    while let Some(Met { number, first }) = met {
        let equal = alike(pool, first % SPAN, start, known, size);
        if equal == size {
            return Found::Number(number);
        }
        near = number;
        pairs = equal / 2;
        known = 2 * pairs;
        met = write_literals::meet(
            work,
            key,
            number + 1,
            pairs / 8,
            second_word(size, near, pairs),
        );
    }
    Found::Nothing {
        first: start + SPAN * (pairs / 8),
        second: second_word(size, near, pairs),
    }
}
