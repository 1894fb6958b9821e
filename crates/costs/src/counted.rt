// Costs of so many coins and nothing else, which a plain number can stand for.
ghost use Rattle.std.specs.Prelude.{◌≡◌, ℕ};
ghost use Rattle.costs.specs.Counted.{CountedLaws, coins_counted, pair_counted};

use crate::coins::Coins;
use crate::coins_then_actions::CoinsThenActions;
use planning::cost::CostAlgebra;

pub trait Counted: CostAlgebra {
    ghost count: { ℕ → Self };

    fn counted(coins: u32) -> Self
        ensures { result ≡ count coins };

    // Does nothing: its promise is how such costs compare, and their size.
    fn lawful()
        ensures { CountedLaws Self.CostAlgebra.algebra count };
}

impl Counted for Coins {
    ghost count = { coins_counted };

    fn counted(coins: u32) -> Coins {
        Coins {
            amount: coins as u64,
        }
    }

    fn lawful() {}
}

impl Counted for CoinsThenActions {
    ghost count = { pair_counted };

    fn counted(coins: u32) -> CoinsThenActions {
        CoinsThenActions {
            coins: coins as u64,
            actions: 0,
        }
    }

    fn lawful() {}
}
