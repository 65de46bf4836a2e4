// The least, the greatest and the spread of some counts.
ghost use Rattle.std.specs.Prelude.{◌≡◌, ◌<◌, ◌≤◌, ◌^◌, length};
ghost use Rattle.std.specs.List.{All};
ghost use Rattle.sl_balance.specs.Spread.{lowest_of, highest_of, spread};

/// The least and the greatest of a count and others.
#[tactic(auto, using(crate::proofs::Sums::lowest_more, crate::proofs::Sums::highest_more))]
pub fn ends_of(first: u64, others: &[u64]) -> (u64, u64)
    ensures least { result.0 ≡ lowest_of first others.now }
    ensures greatest { result.1 ≡ highest_of first others.now }
{
    let mut least = first;
    let mut greatest = first;
    for count in others {
        least = least.min(*count);
        greatest = greatest.max(*count);
    }
    (least, greatest)
}

/// The sum, over all pairs of the counts, of the square of their difference: so many times the sum
/// of their squares, less the square of their sum.
pub fn spread_of(counts: &[u64]) -> u128
    requires few { length counts.now ≤ 2 ^ 12 }
    requires small { All (λ n. n < 2 ^ 40) counts.now }
    ensures { result ≡ spread counts.now }
{
    let mut sum: u128 = 0;
    let mut squares: u128 = 0;
    for count in counts {
        let count = u128::from(*count);
        sum += count;
        squares += count * count;
    }
    counts.len() as u128 * squares - sum * sum
}
