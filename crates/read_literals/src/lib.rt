// The numbered literals of each key in the lent work, on pages: a literal is found by its number in constant time.
// What each word means, and why they are enough, stands in specs/Words.antt.
#![tactic(auto)]

ghost use Rattle.std.specs.Prelude.{◌≡◌, [], ◌+◌, ◌*◌, ◌%◌, ◌<◌, ◌≤◌, ◌^◌, length, get_or};
ghost use Rattle.std.proofs.Math.Option.{some};
ghost use Rattle.format.specs.Part.{place_of};
ghost use Rattle.format.specs.Read.{nth, total as total_of};
ghost use Rattle.store.specs.Store.{added};
ghost use Rattle.store.specs.Words.{all_of};
ghost use Rattle.read_literals.specs.Words.{store_of, Good, Changes, pages as pages_of, cell_of, next_page, Written, Between};

use format::Place;
use store::{COUNT, TOTAL};

// How many pages are taken.
const TAKEN: usize = store::NUMBERS;

// The pages of each key's literals, 64 words for a key.
const PAGE: usize = 2048;

// What stands on the pages: 64 literals each, their starts and then their sizes.
const CELL: usize = 4096;

// From a start to its size.
const SIZE: usize = 64;

// Where the start of literal j of a key stands. Its page lies within the work.
fn cell(work: &[u32], key: usize, j: usize) -> usize
    requires { (Good work.now) × (key < 32) × (j < length (get_or (store_of work.now).literals key [])) }
    ensures { (result ≡ cell_of work.now key j) × (result + 128 ≤ 16384 + j % 64) }
{
    CELL + 128 * work[PAGE + 64 * key + j / 64] as usize + j % 64
}

// Literal j of a key.
pub fn get(work: &[u32], key: usize, j: usize) -> Place
    requires { (Good work.now) × (key < 32) × (j < length (get_or (store_of work.now).literals key [])) }
    ensures j_value { nth (get_or (store_of work.now).literals key []) j ≡ some (place_of result) }
    ensures start_bound { (result.start < 2 ^ 32) × (result.size < 2 ^ 32) }
{
    let at = cell(work, key, j);
    let start = work[at] as usize;
    let size = work[at + SIZE] as usize;
    Place { start, size }
}

// How many pages so many literals of a key take.
fn pages(n: usize) -> usize
    requires { n < 2 ^ 32 }
    ensures { result ≡ pages_of n }
{
    (n + 63) / 64
}

// The page of a key's next literal.
fn next_page(work: &[u32], key: usize) -> usize
    requires { (Good work.now) × (key < 32) }
    ensures { result ≡ next_page work.now key }
{
    let n = work[COUNT + key] as usize;
    if n % 64 == 0 {
        return work[TAKEN] as usize;
    }
    work[PAGE + 64 * key + n / 64] as usize
}

// Writes literal n of a key on a page, with `next` pages taken then. No test stands between the stores.
fn write(
    work: &mut [u32],
    key: usize,
    n: usize,
    page: usize,
    next: usize,
    start: usize,
    size: usize,
)
    requires { (16384 ≤ length work.old) × (key < 32) × (n < 4096) × (page < 96) × (next ≤ 96) × (all_of work.old < 4096) × (start < 2 ^ 32) × (size < 2 ^ 32) }
    ensures { Written work.old work.new key n page next (record { start = start; size = size }) }
{
    let all = work[TOTAL] as usize;
    let at = CELL + 128 * page + n % 64;
    work[PAGE + 64 * key + n / 64] = page as u32;
    work[at] = start as u32;
    work[at + SIZE] = size as u32;
    work[COUNT + key] = (n + 1) as u32;
    work[TAKEN] = next as u32;
    work[TOTAL] = (all + 1) as u32;
}

// One literal more of a key. Its start and its size are two words of the work, and stay two numbers.
pub fn add(work: &mut [u32], key: usize, start: usize, size: usize)
    requires { (Good work.old) × (key < 32) × (total_of (store_of work.old).literals < 4096) × (start < 2 ^ 32) × (size < 2 ^ 32) }
    ensures changes { Changes work.old work.new (added key (record { start = start; size = size })) }
    ensures between { Between work.old work.new }
{
    let n = store::count(work, key);
    let page = next_page(work, key);
    let next = work[TAKEN] as usize + pages(n + 1) - pages(n);
    write(work, key, n, page, next, start, size);
}
