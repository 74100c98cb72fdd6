// Lent buffers: dirty before a call; after it the wanted words in front, zeros to the end of what was lent, and beyond
// that nothing changed.
ghost use Rattle.std.specs.Prelude.{◌≤◌, length};

pub trait Word: Copy + PartialEq {
    const ZERO: Self;

    const DIRTY: Self;
}

impl Word for u8 {
    const ZERO: u8 = 0;

    const DIRTY: u8 = 0xa5;
}

impl Word for u32 {
    const ZERO: u32 = 0;

    const DIRTY: u32 = 0xa5a5a5a5;
}

impl Word for u64 {
    const ZERO: u64 = 0;

    const DIRTY: u64 = 0xa5a5a5a5a5a5a5a5;
}

// How many words to lend, at most all.
pub fn lent(size: usize, count: u64) -> usize
    ensures { result ≤ size }
{
    count.min(size as u64) as usize
}

// Makes all dirty, and tells how many words to lend.
pub fn soil<W: Word>(words: &mut [W], count: u64) -> usize
    ensures { result ≤ length words.new }
{
    // `fill` asks that `clone` cannot fail, which a type parameter does not promise.
    for word in words.iter_mut() {
        *word = W::DIRTY;
    }
    lent(words.len(), count)
}

pub fn hold<W: Word>(words: &[W], wanted: &[W], lent: usize) -> bool {
    for (i, word) in words.iter().enumerate() {
        let expected = match wanted.get(i) {
            Some(there) => *there,
            None if i < lent => W::ZERO,
            None => W::DIRTY,
        };
        if *word != expected {
            return false;
        }
    }
    true
}

// Where the lists of a case are put, and what is lent to a call.
#[derive(Drop)]
pub struct Buffers {
    pub table: [u8; 73728],
    pub bytes: [u8; 73728],
    pub out: [u8; 73728],
    pub rows: [u64; 33000],
    pub wanted: [u64; 33000],
    pub work: [u32; 21504],
}
