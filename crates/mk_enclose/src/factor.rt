//! A user's factor.
ghost use Rattle.std.specs.Prelude.{◌≡◌, ℕ, ◌+◌, ◌≤◌, ◌<◌, ◌^◌};
ghost use Rattle.mk_enclose.specs.Enclosure.{lower_of};
ghost use Rattle.mk_enclose.specs.Factor.{BitsFit, paid_in, taken_out};

use crate::Enclosure;

/// The exact factor `2^net * G / (2^40)^trades` of a gain `G` that is enclosed.
///
/// `net` counts the bits that were paid in, less those that were taken out.
#[derive(Clone, Copy, Debug)]
pub struct Factor {
    pub gain: Enclosure,
    pub trades: u32,
    pub net: i64,
}

impl Factor {
    /// The greatest `k` for which `2^k` is at most the factor at the lower end of its gain, or 0 where
    /// there is none.
    pub fn whole_bits(&self) -> u64
        ensures fits { 0 < result → BitsFit self.now result }
        ensures greatest { (k : ℕ) → BitsFit self.now k → k ≤ result }
    {
        (log2_of(&self.gain) + self.paid_in()).saturating_sub(
            40 * self.trades as u64 + self.taken_out(),
        )
    }

    /// The bits that were paid in on the whole: 0 where more were taken out.
    pub fn paid_in(&self) -> u64
        ensures value { result ≡ paid_in self.now.net }
        ensures small { result < 2 ^ 63 }
    {
        if self.net < 0 { 0 } else { self.net as u64 }
    }

    /// The bits that were taken out on the whole: 0 where more were paid in.
    pub fn taken_out(&self) -> u64
        ensures value { result ≡ taken_out self.now.net }
        ensures small { result ≤ 2 ^ 63 }
    {
        if self.net < 0 {
            self.net.unsigned_abs()
        } else {
            0
        }
    }
}

/// The greatest `k` with `2^k` at most the gain's lower end.
fn log2_of(gain: &Enclosure) -> u64
    ensures below { 2 ^ result ≤ lower_of gain.now }
    ensures greatest { lower_of gain.now < 2 ^ (result + 1) }
    ensures small { result < 2 ^ 52 }
{
    gain.lo().log2_floor()
}
