// The number that a unit has reached, by what a dump or a Done says.
ghost use Rattle.std.specs.Prelude.{◌≡◌, ◌≤◌, min};
ghost use Rattle.std.specs.List.{fold};
ghost use Rattle.sl_wire.specs.Reach.{reached};

/// The least of a number and others.
fn least_of(number: u64, others: &[u64]) -> u64
    ensures least { result ≡ fold min number others.now }
    ensures most { result ≤ number }
{
    let mut least = number;
    for other in others {
        least = least.min(*other);
    }
    least
}

/// The number that a unit has reached: the least of its id and the last-seen ids of its first
/// `count` data channels.
pub fn reached(count: usize, id: u64, last: &[u64; 8]) -> u64
    ensures reached { result ≡ reached count id last.now }
    ensures most { result ≤ id }
{
    least_of(id, &last[..count.min(8)])
}
