// A part of some lent bytes: of a message, or of a pool.
#[derive(Clone, Copy, Debug, PartialEq, Eq)]
pub struct Place {
    pub start: usize,
    pub size: usize,
}
