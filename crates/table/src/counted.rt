// A table that is as long as the number of its nodes asks.
ghost use Rattle.std.specs.Prelude.{◌+◌, ◌*◌, ◌≤◌, length};

#[derive(Clone, Copy)]
pub struct Counted<'a> {
    pub table: &'a [u8],
    pub n: usize,
    ghost inside: { 7 + 4 * n ≤ length table.now },
    ghost most: { n ≤ 1024 },
}
