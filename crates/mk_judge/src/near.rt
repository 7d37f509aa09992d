//! How near printed numbers are to the exact ones.
ghost use Rattle.std.specs.Prelude.{◌≡◌, ◌^◌, ◌≤◌};
ghost use Rattle.mk_net.specs.Bounds.{sharpness};

use mk_names::limits::USUAL_TRADES;

/// Printed prices and cash are near by one part in this, where there may be so many trades.
pub fn near_part(most_trades: u32) -> u64
    ensures value { result ≡ sharpness most_trades }
    ensures some { 2 ≤ result }
    ensures few { result ≤ 2 ^ 42 }
{
    if most_trades <= USUAL_TRADES {
        1 << 42
    } else {
        1 << 39
    }
}

/// Printed cash and bits are near by one part in two to this, where there may be so many trades.
pub fn near_bits(most_trades: u32) -> u32
    ensures value { 2 ^ result ≡ sharpness most_trades }
    ensures some { 1 ≤ result }
    ensures few { result ≤ 42 }
{
    if most_trades <= USUAL_TRADES { 42 } else { 39 }
}
