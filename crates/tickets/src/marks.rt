// The two bytes with which each record of a ticket begins.
pub(crate) const HEAD_MARK: [u8; 2] = [0x4C, 0x48];

pub(crate) const WORD_MARK: [u8; 2] = [0x4C, 0x57];

pub(crate) const MULTIPLIER_MARK: [u8; 2] = [0x4C, 0x4D];
