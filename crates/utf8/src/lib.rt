// The text test: whether bytes are UTF-8, character by character.
#![tactic(auto)]

ghost use Rattle.std.specs.Prelude.{◌≡◌, ◌≤◌, ◌<◌, length, get_or};
ghost use Rattle.std.proofs.Math.Seq.{slice};
ghost use Rattle.format.specs.Utf8.{tail, within, is_text};
ghost use Rattle.laws.specs.Utf8.{lowest as lowest_of, highest as highest_of, second};
ghost use Rattle.utf8.specs.Ascii.{is_ascii};
ghost use Rattle.utf8.specs.Passes.{Passes};

// Whether a byte may stand behind the second of a character, or behind the lead of two.
fn is_tail(b: u8) -> bool
    ensures { result ≡ within tail b }
{
    (0x80 <= b) & (b <= 0xbf)
}

// The lowest byte right behind a lead of three bytes or four,
fn lowest(b: u8) -> u8
    ensures { result ≡ lowest_of b }
{
    if b == 0xe0 {
        return 0xa0;
    }
    if b == 0xf0 {
        return 0x90;
    }
    0x80
}

// and the highest.
fn highest(b: u8) -> u8
    ensures { result ≡ highest_of b }
{
    if b == 0xed {
        return 0x9f;
    }
    if b == 0xf4 {
        return 0x8f;
    }
    0xbf
}

fn is_second(b: u8, x: u8) -> bool
    ensures { result ≡ within (second b) x }
{
    (lowest(b) <= x) & (x <= highest(b))
}

// The two bytes of a character, or 0 where it is none.
fn two(s: &[u8], at: usize, end: usize, b: u8) -> usize
    requires { (at < end) × (end ≤ length s.now) × (b ≡ get_or s.now at 0) × (0x80 ≤ b) × (b < 0xe0) }
    ensures { Passes s.now at end result }
{
    if end - at < 2 {
        return 0;
    }
    if (0xc2 <= b) & is_tail(s[at + 1]) {
        return 2;
    }
    0
}

// The three bytes of a character, or the four.
fn more(s: &[u8], at: usize, end: usize, b: u8) -> usize
    requires { (at < end) × (end ≤ length s.now) × (b ≡ get_or s.now at 0) × (0xe0 ≤ b) }
    ensures { Passes s.now at end result }
{
    if end - at < 3 {
        return 0;
    }
    if !(is_second(b, s[at + 1]) & is_tail(s[at + 2])) {
        return 0;
    }
    if b < 0xf0 {
        return 3;
    }
    if (end - at < 4) | (0xf4 < b) {
        return 0;
    }
    if is_tail(s[at + 3]) {
        return 4;
    }
    0
}

// How many bytes the character takes that begins here; 0 where none begins.
fn character(s: &[u8], at: usize, end: usize) -> usize
    requires { (at < end) × (end ≤ length s.now) }
    ensures { Passes s.now at end result }
{
    let b = s[at];
    if b < 0x80 {
        return 1;
    }
    if b < 0xe0 {
        return two(s, at, end, b);
    }
    more(s, at, end, b)
}

// A function of its own, and never part of another: `is_text` stays so small that it is compiled into its callers, where a
// short text would wait for a call. Std's `from_utf8` does the same, and takes up to twice as long where letters of one byte
// and of more stand in turn.
#[inline(never)]
fn are_characters(s: &[u8], start: usize, end: usize) -> bool
    requires { end ≤ length s.now }
    ensures { result ≡ is_text (slice start end s.now) }
{
    let mut at = start;
    while at < end {
        let n = character(s, at, end);
        if n == 0 {
            return false;
        }
        at += n;
    }
    true
}

// Most text is ASCII. The loop has no way out in the middle, so that one instruction can look at many bytes.
fn is_ascii(part: &[u8]) -> bool
    ensures { result ≡ is_ascii part.now }
{
    let mut all = true;
    for b in part {
        all = all & (*b <= 0x7f);
    }
    all
}

// Whether the bytes from start up to end are text. It never looks past end.
#[inline(always)]
pub fn is_text(s: &[u8], start: usize, end: usize) -> bool
    requires { end ≤ length s.now }
    ensures { result ≡ is_text (slice start end s.now) }
{
    // what ends before it starts is empty
    let Some(part) = s.get(start..end) else {
        return true;
    };
    is_ascii(part) || are_characters(s, start, end)
}
