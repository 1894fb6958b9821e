// The plain sum of the coins.
ghost use Rattle.costs.specs.Coins.{coins_algebra};
ghost use Rattle.costs.specs.Laws.{coins_laws, coins_strict};

use crate::capped_sum;
use planning::cost::CostAlgebra;

#[derive(Clone, Copy, PartialEq, Eq, PartialOrd, Ord, Debug)]
pub struct Coins {
    pub amount: u64,
}

impl CostAlgebra for Coins {
    ghost algebra = { coins_algebra };

    ghost laws = { coins_laws };

    ghost strict = { coins_strict };

    fn zero() -> Coins {
        Coins { amount: 0 }
    }

    fn charge(coins: u32) -> Coins {
        Coins {
            amount: coins as u64,
        }
    }

    fn plus(self, other: Coins) -> Coins {
        Coins {
            amount: capped_sum(self.amount, other.amount),
        }
    }

    fn before(self, other: Coins) -> bool {
        self < other
    }
}
