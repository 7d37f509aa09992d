//! Ends of the shares that are wanted.
ghost use Rattle.std.specs.Prelude.{◌≤◌};
ghost use Rattle.mk_judge.specs.Below.{max_share};

/// The shares from 1 to 999,999 that are wanted form an interval. No share outside of the outer
/// ends is wanted, and each within the inner ones is.
#[derive(Clone, Copy, Debug)]
pub struct Wanted {
    pub outer_low: u32,
    pub inner_low: u32,
    pub inner_high: u32,
    pub outer_high: u32,
    ghost positive: { 1 ≤ outer_low },
    ghost low: { outer_low ≤ inner_low },
    ghost low_at_most: { inner_low ≤ 1000000 },
    ghost high: { inner_high ≤ outer_high },
    ghost high_at_most: { outer_high ≤ max_share },
}
