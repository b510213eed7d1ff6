//! The greatest ranks.

ghost use Rattle.std.specs.Prelude.{ℕ, ◌≡◌, ◌≤◌, ◌<◌, ◌+◌, ◌⊎◌, MatchOption};
ghost use Rattle.rank_check.specs.Valid.{most_bound};
ghost use Rattle.rank_graph.specs.Solutions.{rank_of};
ghost use Rattle.rank_make.specs.Solved.{AreLow};

use rank_check::MOST_BOUND;
use rank_graph::Solution;

/// The first of so many nodes whose rank isn't below the greatest bound.
pub fn first_high(solution: &Solution, count: usize) -> Option<usize>
    ensures { MatchOption result
        (AreLow count (rank_of solution.now))
        (λ n. (n < count) × (most_bound ≤ rank_of solution.now n)) }
{
    for node in 0..count {
        if solution.rank(node) >= MOST_BOUND as usize {
            return Some(node);
        }
    }
    None
}

/// The least bound that is above the ranks of so many nodes.
pub fn bound_of(solution: &Solution, count: usize) -> u32
    requires { AreLow count (rank_of solution.now) }
    ensures above { (n : ℕ) → n < count → rank_of solution.now n < result }
    ensures least { (result ≡ 0) ⊎ ((n : ℕ) × (n < count) × (rank_of solution.now n + 1 ≡ result)) }
    ensures most { result ≤ most_bound }
{
    let mut bound = 0;
    for node in 0..count {
        let rank = solution.rank(node) as u32;
        if bound <= rank {
            bound = rank + 1;
        }
    }
    bound
}
