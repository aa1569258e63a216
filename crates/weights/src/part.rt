// One signed part of a weight, cut where it would leave its range.
ghost use Rattle.std.specs.Prelude.{◌≡◌, ◌^◌, ◌≤◌, unsigned_abs};
ghost use Rattle.weights.specs.Parts.{cut, stepped, grey_cost};

// No part of a weight is farther from 0.
pub(crate) const PART_LIMIT: u32 = 1 << 30;

// No part of a moved weight is farther from 0.
pub(crate) const MOVED_LIMIT: u32 = 1 << 18;

pub(crate) fn cut(value: i64, limit: u32) -> i32
    requires { limit ≤ 2 ^ 30 }
    ensures value { result ≡ cut limit value }
    ensures bound { unsigned_abs result ≤ limit }
{
    // narrowed by `as`, which the limit shows to fit
    let most = i64::from(limit);
    value.clamp(-most, most) as i32
}

pub(crate) fn moved(a: i32, step: u32, up: bool) -> i32
    ensures value { result ≡ cut (2 ^ 18) (stepped a step up) }
    ensures bound { unsigned_abs result ≤ 2 ^ 18 }
{
    let by = i64::from(step);
    // Two sums: with the sign chosen first, the fact is lost where the branches join.
    let to = if up {
        i64::from(a) + by
    } else {
        i64::from(a) - by
    };
    cut(to, MOVED_LIMIT)
}

pub(crate) fn grey_cost(grey: u8) -> i64
    ensures { result ≡ grey_cost grey }
{
    256 * (i64::from(grey) - 128)
}
