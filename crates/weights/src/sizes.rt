// The size of each weight of a list.
ghost use Rattle.std.specs.Prelude.{◌≡◌};
ghost use Rattle.weights.specs.Sizes.{beyond};

use crate::Weight;

// No cost is larger.
pub const COST_SIZE: u32 = 1 << 16;

// No multiplier is larger.
pub const MULTIPLIER_SIZE: u32 = 1 << 18;

// Whether a weight is larger than the limit.
pub fn any_beyond<W: Weight>(list: &[W], limit: u32) -> bool
    ensures { result ≡ beyond W.kind limit list.now }
{
    list.iter().any(|w| w.size() > limit)
}
