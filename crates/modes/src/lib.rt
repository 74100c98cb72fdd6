// Which modes there may be, for the reader's header and the writer's number alike; and what a literal takes in them.
#![tactic(auto)]

ghost use Rattle.std.specs.Prelude.{◌≡◌, ◌+◌, ◌<◌, ◌^◌, length};
ghost use Rattle.format.specs.Modes.{inline_everything, out_of_band_field_errors, null_terminated_strings, no_deduplication, are_allowed, read_header};
ghost use Rattle.format.specs.Read.{ending};
ghost use Rattle.modes.specs.Header.{header_of};

// One question for each mode: whoever asks of one asks here.
#[tactic(auto, unfolding(format::specs::Modes::has))]
pub fn inline_everything(modes: u64) -> bool
    ensures { result ≡ inline_everything modes }
{
    modes % 2 == 1
}

#[tactic(auto, unfolding(format::specs::Modes::has))]
pub fn out_of_band_field_errors(modes: u64) -> bool
    ensures { result ≡ out_of_band_field_errors modes }
{
    modes / 4 % 2 == 1
}

#[tactic(auto, unfolding(format::specs::Modes::has))]
pub fn null_terminated_strings(modes: u64) -> bool
    ensures { result ≡ null_terminated_strings modes }
{
    modes / 16 % 2 == 1
}

#[tactic(auto, unfolding(format::specs::Modes::has))]
pub fn no_deduplication(modes: u64) -> bool
    ensures { result ≡ no_deduplication modes }
{
    modes / 32 % 2 == 1
}

// Whether only modes 0, 2, 4 and 5 are set.
#[tactic(auto, unfolding(format::specs::Modes::are_allowed, format::specs::Modes::among))]
pub fn are_allowed(modes: u64) -> bool
    ensures { result ≡ are_allowed modes }
{
    modes == modes % 2 + modes / 4 % 2 * 4 + modes / 16 % 2 * 16 + modes / 32 % 2 * 32
}

// The modes of a header byte, or none where it is one that this codec does not read.
pub fn read_header(b: u8) -> Option<u64>
    ensures { header_of result ≡ read_header b }
{
    let w = u64::from(b);
    if w % 2 == 1 {
        return None;
    }
    let modes = w / 2;
    if are_allowed(modes) {
        Some(modes)
    } else {
        None
    }
}

// How many bytes of its piece a literal of `size` takes: one more where it is `ended` by a 00. Whoever adds up lengths,
// when reading and when writing, takes it from here.
#[tactic(auto, unfolding(format::specs::Read::ending))]
pub fn size_with_ending(size: usize, ended: bool) -> usize
    requires { size < 2 ^ 63 }
    ensures { result ≡ size + length (ending ended) }
{
    if ended {
        return size + 1;
    }
    size
}
