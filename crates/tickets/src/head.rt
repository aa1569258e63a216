// What the head of a ticket says. The kind is the byte that stands there, which may be that of no kind.
#[derive(Clone, Copy, PartialEq, Eq, Debug)]
pub struct Head {
    pub kind: u8,
    pub cells: u8,
    pub rows: u8,
    pub edges: u16,
}
