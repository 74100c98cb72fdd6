// Bytes put into the lent output, or only counted. `put` is the one Bool of `Pass` that is asked here, so it comes alone.
ghost use Rattle.std.specs.Prelude.{◌≡◌, ltb, pos, ◌<◌, ◌^◌, length};
ghost use Rattle.format.specs.Label.{label as label_of};
ghost use Rattle.write_bytes.specs.State.{Puts};

use super::as_bytes::AsBytes;
use super::encoded::Label;
use format::Refusal;

// A length as a label.
pub fn count_label(n: usize) -> i64
    requires { n < 2 ^ 63 }
    ensures { result ≡ pos n }
{
    n as i64
}

// Whether bytes that end there go beyond the output.
fn is_over(out: &[u8], end: usize) -> bool
    ensures { result ≡ ltb (length out.now) end }
{
    out.len() < end
}

pub fn put_bytes<B: AsBytes>(
    out: &mut [u8],
    put: bool,
    at: usize,
    bytes: B,
) -> Result<usize, Refusal>
    requires { at < 2 ^ 32 }
    ensures { Puts put at (B.bytes bytes) out.old out.new result }
{
    let end = at + bytes.size();
    if !put {
        return Ok(end);
    }
    if is_over(out, end) {
        return Err(Refusal::NoRoom);
    }
    bytes.write(out, at);
    Ok(end)
}

// The label n, where the core goes on.
pub fn put_label(out: &mut [u8], put: bool, core: usize, n: i64) -> Result<usize, Refusal>
    requires { core < 2 ^ 32 }
    ensures { Puts put core (label_of n) out.old out.new result }
{
    put_bytes(out, put, core, Label(n))
}
