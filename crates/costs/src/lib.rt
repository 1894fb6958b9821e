// Two cost algebras: coins, and coins before the number of actions.
#![tactic(auto)]

ghost use Rattle.std.specs.Prelude.{◌≡◌, ◌+◌, ◌^◌, min};

pub mod coins;
pub mod coins_then_actions;
pub mod counted;

// Every part of a computed sum stops here.
pub const CAP: u64 = 1 << 62;

// A part of a computed sum.
fn capped_sum(x: u64, y: u64) -> u64
    ensures { result ≡ min (x + y) (2 ^ 62) }
{
    x.saturating_add(y).min(CAP)
}
