// The literals of all keys in the lent work, in one list, where each stands in the chain of its bucket: one with given words is found without a look at the others.
// A literal is kept by two words: `write_search` says what stands in them.
// What each word means stands in specs/Words.antt.
#![tactic(auto)]

ghost use Rattle.std.specs.Prelude.{◌≡◌, true, false, [], ◌+◌, ◌*◌, ◌%◌, ◌/◌, ◌<◌, ◌≤◌, ◌^◌, length, get_or, IfSome};
ghost use Rattle.format.specs.Read.{total as total_of};
ghost use Rattle.store.specs.Words.{all_of};
ghost use Rattle.write_literals.specs.Store.{added, overfull};
ghost use Rattle.write_literals.specs.Meeting.{MeetsIn};
ghost use Rattle.write_literals.specs.Words.{store_of, Good, Changes, bucket as bucket_of, head_of, link_of, relinked as relinked_of, Tail, Written};

use store::{COUNT, TOTAL};

// 0; or 1, if there was a literal too many.
const OVER: usize = store::NUMBERS;

// The heads of the chains, two in a word.
const HEAD: usize = 2048;

// The literals, three words each.
const LITERAL: usize = 4096;

// A literal's two words have its place in their bits below this one.
pub const SPAN: usize = 131072;

// A link has the next literal in its bits below this one.
const NEXT: usize = 8192;

// How many literals there may be.
const MOST: usize = 4096;

// A literal that was met: its number among those of its key, and its first word.
#[derive(Clone, Copy)]
pub struct Met {
    pub number: usize,
    pub first: usize,
}

fn bucket(key: usize, second: usize) -> usize
    requires { (key < 2 ^ 32) × (second < 2 ^ 32) }
    ensures { (result ≡ bucket_of key second) × (result < 4096) }
{
    (second / SPAN + 977 * (second % SPAN) + 131 * key) % 4096
}

// The literal that the head of a bucket leads to, or 0. It may be of another bucket: then this one has none.
// 0 is what the lent work holds for no literal. With an `Option` in its place, in the chain's loops too, the writer took 3 in 100
// more instructions for texts and 5 for records of a truth.
fn head(work: &[u32], b: usize) -> usize
    requires { (16384 ≤ length work.now) × (b < 4096) }
    ensures { (result ≤ all_of work.now) × (link_of work.now b 0 ≡ head_of work.now b result) }
{
    let at = (work[HEAD + b / 2] as usize >> (b % 2 * 16)) % NEXT;
    if store::total(work) < at {
        return 0;
    }
    at
}

// Whether a literal has the wanted second word, this upper part of its first, this key, and a number from j on.
fn sought(
    first: usize,
    second: usize,
    owner: usize,
    key: usize,
    j: usize,
    high: usize,
    wanted: usize,
) -> bool
    ensures { (result ≡ true → (second ≡ wanted) × (first / 131072 ≡ high) × (owner / 4096 ≡ key) × (j ≤ owner % 4096)) × (result ≡ false → second ≡ wanted → first / 131072 ≡ high → owner / 4096 ≡ key → j ≤ owner % 4096 → ⊥) }
{
    (second == wanted) & (first / SPAN == high) & (owner / MOST == key) & (j <= owner % MOST)
}

// The first literal of a key from j on that has the wanted second word and this upper part of its first, if one has.
pub fn meet(work: &[u32], key: usize, j: usize, high: usize, wanted: usize) -> Option<Met>
    requires { (Good work.now) × (key < 32) × (j ≤ length (get_or (store_of work.now).literals key [])) × (wanted < 2 ^ 32) }
    ensures meets { MeetsIn (get_or (store_of work.now).literals key []) j high wanted result }
    ensures number_bound { IfSome result (λ m. (m.number < 4096) × (m.first < 2 ^ 32)) }
{
    let b = bucket(key, wanted);
    let mut at = head(work, b);
    // each link says where the next literal is: no `for` goes along it
    while at != 0 {
        let cell = LITERAL - 3 + 3 * at;
        let first = work[cell] as usize;
        let second = work[cell + 1] as usize;
        let link = work[cell + 2] as usize;
        if sought(first, second, link / NEXT, key, j, high, wanted) {
            let number = link / NEXT % MOST;
            return Some(Met { number, first });
        }
        // the head led to a literal of another bucket: this one has none
        if bucket(link / NEXT / MOST, second) != b {
            return None;
        }
        at = link % NEXT;
    }
    None
}

// The first literal of a bucket, or 0, as in `head`.
fn start(work: &[u32], b: usize) -> usize
    requires { (Good work.now) × (b < 4096) }
    ensures { result ≡ link_of work.now b 0 }
{
    let at = head(work, b);
    if at == 0 {
        return 0;
    }
    let cell = LITERAL - 3 + 3 * at;
    let second = work[cell + 1] as usize;
    let link = work[cell + 2] as usize;
    if bucket(link / NEXT / MOST, second) != b {
        return 0;
    }
    at
}

// The word where a chain ends.
fn tail(work: &[u32], b: usize) -> usize
    requires { (Good work.now) × (b < 4096) }
    ensures { Tail work.now b result }
{
    let mut at = HEAD + b / 2;
    let mut next = start(work, b);
    // as in `meet`
    while next != 0 {
        at = LITERAL - 1 + 3 * next;
        next = work[at] as usize % NEXT;
    }
    at
}

// The half of that word, 0 or 1, where the link stands.
fn side(at: usize, b: usize) -> usize
    ensures { (at < 4096 → result ≡ b % 2) × (4096 ≤ at → result ≡ 0) × (result < 2) }
{
    if at < LITERAL {
        return b % 2;
    }
    0
}

// The word with the link to v in it.
fn relinked(link: usize, side: usize, v: usize) -> usize
    requires { (link < 2 ^ 32) × (side < 2) × (v < 8192) }
    ensures { (result ≡ relinked_of side link v) × (result < 2 ^ 32) }
{
    let unit = 1 + 65535 * side;
    link - (link >> (side * 16)) % NEXT * unit + v * unit
}

// Writes literal g, the n-th of its key, and the link to it. No test stands between the stores.
fn write(
    work: &mut [u32],
    key: usize,
    g: usize,
    n: usize,
    at: usize,
    link: usize,
    first: usize,
    second: usize,
)
    requires { (16384 ≤ length work.old) × (key < 32) × (g < 4096) × (n < 4096) × (2048 ≤ at) × (at < 4096 + 3 * g) × (link < 2 ^ 32) × (first < 2 ^ 32) × (second < 2 ^ 32) }
    ensures { Written work.old work.new key g n at link (record { first = first; second = second }) }
{
    let cell = LITERAL + 3 * g;
    work[at] = link as u32;
    work[cell] = first as u32;
    work[cell + 1] = second as u32;
    work[cell + 2] = (NEXT * (n + MOST * key)) as u32;
    work[COUNT + key] = (n + 1) as u32;
    work[TOTAL] = (g + 1) as u32;
}

// One literal more of a key, kept by these two words, at the end of its chain.
pub fn add(work: &mut [u32], key: usize, first: usize, second: usize)
    requires { (Good work.old) × (key < 32) × (total_of (store_of work.old).literals < 4096) × (first < 2 ^ 32) × (second < 2 ^ 32) }
    ensures { Changes work.old work.new (added key (record { first = first; second = second })) }
{
    let g = store::total(work);
    let n = store::count(work, key);
    let b = bucket(key, second);
    let at = tail(work, b);
    let link = relinked(work[at] as usize, side(at, b), g + 1);
    write(work, key, g, n, at, link, first, second);
}

// Notes that there was a literal too many.
pub fn set_over(work: &mut [u32])
    requires { Good work.old }
    ensures { Changes work.old work.new overfull }
{
    work[OVER] = 1;
}

// Whether there was a literal too many.
pub fn is_over(work: &[u32]) -> bool
    requires { Good work.now }
    ensures { result ≡ (store_of work.now).over }
{
    0 < work[OVER]
}
