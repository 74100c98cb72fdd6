// The lent work as a store: a place for each key touched so far, the blocks that no key has been given yet, and how many literals there are.
// The literals themselves are kept by `read_literals` and by `write_literals`. What each word means stands in specs/Words.antt.
#![tactic(auto)]

ghost use Rattle.std.specs.Prelude.{◌≡◌, ◌<◌, ◌≤◌, ◌^◌, length};
ghost use Rattle.std.proofs.Math.Option.{none, some};
ghost use Rattle.format.specs.Read.{nth};
ghost use Rattle.store.specs.Store.{lookup, opened, advanced, rested};
ghost use Rattle.store.specs.Words.{slots_of, rest_of, all_of, count_of, start_of, GoodSlots, Moved, Begun, Cleared};
ghost use Rattle.store.specs.Meaning.{reading, touched, slot, Small};

use label::Cursor;

// The keys of the slots, in order.
const KEY: usize = 1024;

// Of each key: how far its piece has been read,
const AT: usize = 1056;

// where the piece ends,
const END: usize = 1088;

// and 0, or 1 + the number of its slot.
const INDEX: usize = 1120;

// How many slots there are.
const SLOTS: usize = 1152;

// The blocks that no key has been given yet, from the next one's label to where they end, two words. Only the reader has such.
const REST: usize = 1153;

// The words from here up to COUNT_END are 0 where there are no literals.
pub const NUMBERS: usize = 1155;

// How many literals there are, all keys together.
pub const TOTAL: usize = 1156;

// How many literals each key has.
pub const COUNT: usize = 1184;

// An empty store has 0 from INDEX up to here.
const COUNT_END: usize = 1216;

// Where the piece of each key begins. Only the reader keeps it.
const START: usize = 1216;

// A slot with its key.
#[derive(Clone, Copy)]
pub struct Touched {
    pub key: usize,
    pub at: usize,
    pub end: usize,
}

// An empty store, whatever the words held.
pub fn clear(work: &mut [u32])
    requires { 16384 ≤ length work.old }
    ensures { Cleared 1120 work.old work.new }
{
    work[INDEX..COUNT_END].fill(0);
}

// No literals any more. The slots and the blocks of no key stay.
pub fn forget(work: &mut [u32])
    requires { 16384 ≤ length work.old }
    ensures { Cleared 1155 work.old work.new }
{
    work[NUMBERS..COUNT_END].fill(0);
}

// The reading place of a key, if it has been touched.
pub fn find(work: &[u32], key: usize) -> Option<Cursor>
    requires { (GoodSlots work.now) × (key < 32) }
    ensures result_value { slot result ≡ lookup key (slots_of work.now) }
    ensures small { Small result }
{
    if work[INDEX + key] == 0 {
        return None;
    }
    let at = work[AT + key] as usize;
    let end = work[END + key] as usize;
    Some(Cursor { at, end })
}

// The number of the next slot, for a key that has none.
fn next_slot(work: &[u32], key: usize) -> usize
    requires { (GoodSlots work.now) × (key < 32) × (lookup key (slots_of work.now) ≡ none) }
    ensures { (result ≡ length (slots_of work.now)) × (result < 32) }
{
    work[SLOTS] as usize
}

// A slot for a key touched now for the first time.
pub fn touch(work: &mut [u32], key: usize, at: usize, end: usize)
    requires { (GoodSlots work.old) × (key < 32) × (lookup key (slots_of work.old) ≡ none) × (at < 2 ^ 32) × (end < 2 ^ 32) }
    ensures { Moved work.old work.new (opened key (record { at = at; end = end })) }
{
    let n = next_slot(work, key);
    work[KEY + n] = key as u32;
    work[AT + key] = at as u32;
    work[END + key] = end as u32;
    work[INDEX + key] = (n + 1) as u32;
    work[SLOTS] = (n + 1) as u32;
}

// The reading place of a key, moved on. A key that has no slot gets none by it.
pub fn advance(work: &mut [u32], key: usize, at: usize)
    requires { (GoodSlots work.old) × (key < 32) × (at < 2 ^ 32) }
    ensures { Moved work.old work.new (advanced key at) }
{
    work[AT + key] = at as u32;
}

// How many keys have been touched.
pub fn slot_count(work: &[u32]) -> usize
    requires { GoodSlots work.now }
    ensures value { result ≡ length (slots_of work.now) }
    ensures upper_bound { result ≤ 32 }
{
    work[SLOTS] as usize
}

// Slot i, in the order of first touch.
pub fn slot_at(work: &[u32], i: usize) -> Touched
    requires { (GoodSlots work.now) × (i < length (slots_of work.now)) }
    ensures i_value { nth (slots_of work.now) i ≡ some (touched result) }
    ensures key_bound { (result.key < 32) × (result.at < 2 ^ 32) × (result.end < 2 ^ 32) }
{
    let key = work[KEY + i] as usize;
    let at = work[AT + key] as usize;
    let end = work[END + key] as usize;
    Touched { key, at, end }
}

// The blocks that no key has been given yet.
pub fn rest(work: &[u32]) -> Cursor
    requires { GoodSlots work.now }
    ensures result_value { reading result ≡ rest_of work.now }
    ensures at_bound { (result.at < 2 ^ 32) × (result.end < 2 ^ 32) }
{
    let at = work[REST] as usize;
    let end = work[REST + 1] as usize;
    Cursor { at, end }
}

pub fn set_rest(work: &mut [u32], at: usize, end: usize)
    requires { (GoodSlots work.old) × (at < 2 ^ 32) × (end < 2 ^ 32) }
    ensures { Moved work.old work.new (rested (record { at = at; end = end })) }
{
    work[REST] = at as u32;
    work[REST + 1] = end as u32;
}

// Its end stays.
pub fn move_rest(work: &mut [u32], at: usize)
    requires { (GoodSlots work.old) × (at < 2 ^ 32) }
    ensures { Moved work.old work.new (rested (record { at = at; end = (rest_of work.old).end })) }
{
    work[REST] = at as u32;
}

// Where the piece of a key begins.
pub fn start(work: &[u32], key: usize) -> usize
    requires { (16384 ≤ length work.now) × (key < 32) }
    ensures { (result ≡ start_of work.now key) × (result < 2 ^ 32) }
{
    work[START + key] as usize
}

pub fn set_start(work: &mut [u32], key: usize, start: usize)
    requires { (16384 ≤ length work.old) × (key < 32) × (start < 2 ^ 32) }
    ensures { Begun work.old work.new key start }
{
    work[START + key] = start as u32;
}

// How many literals there are, all keys together.
pub fn total(work: &[u32]) -> usize
    requires { 16384 ≤ length work.now }
    ensures { (result ≡ all_of work.now) × (result < 2 ^ 32) }
{
    work[TOTAL] as usize
}

// How many literals a key has.
pub fn count(work: &[u32], key: usize) -> usize
    requires { (16384 ≤ length work.now) × (key < 32) }
    ensures { (result ≡ count_of work.now key) × (result < 2 ^ 32) }
{
    work[COUNT + key] as usize
}
