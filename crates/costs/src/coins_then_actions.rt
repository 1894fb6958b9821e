// Coins first, and among equal coins the number of actions.
ghost use Rattle.costs.specs.CoinsThenActions.{pair_algebra};
ghost use Rattle.costs.specs.Laws.{pair_laws, pair_strict};

use crate::capped_sum;
use planning::cost::CostAlgebra;

// Compared by coins first: the order of the fields is the order of costs.
#[derive(Clone, Copy, PartialEq, Eq, PartialOrd, Ord, Debug)]
pub struct CoinsThenActions {
    pub coins: u64,
    pub actions: u64,
}

impl CostAlgebra for CoinsThenActions {
    ghost algebra = { pair_algebra };

    ghost laws = { pair_laws };

    ghost strict = { pair_strict };

    fn zero() -> CoinsThenActions {
        CoinsThenActions {
            coins: 0,
            actions: 0,
        }
    }

    fn charge(coins: u32) -> CoinsThenActions {
        CoinsThenActions {
            coins: coins as u64,
            actions: 1,
        }
    }

    fn plus(self, other: CoinsThenActions) -> CoinsThenActions {
        CoinsThenActions {
            coins: capped_sum(self.coins, other.coins),
            actions: capped_sum(self.actions, other.actions),
        }
    }

    fn before(self, other: CoinsThenActions) -> bool {
        self < other
    }
}
