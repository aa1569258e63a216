// A reading, and what it says of itself.

// What a reading holds. Its boards stay with the caller, who passes them to each call.
#[derive(Drop)]
pub struct Reading<L, W> {
    pub(crate) layout: L,
    pub(crate) rounds: u32,
    pub(crate) floor: W,
    pub(crate) ceiling: W,
}

// Floor and ceiling together as a pair, the rounds made, and whether the two are equal, which weights themselves don't show.
#[derive(Clone, Copy, Drop)]
pub struct Verdict<W> {
    pub bounds: (W, W),
    pub rounds: u32,
    pub met: bool,
}

// How far a reading has come, apart from its layout, which a call reads at the same time.
#[derive(Clone, Copy, Drop)]
pub(crate) struct Progress<W> {
    pub(crate) rounds: u32,
    pub(crate) floor: W,
    pub(crate) ceiling: W,
}
