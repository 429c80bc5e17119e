// One pass over the demands of a port (document 02, L10).
ghost use Rattle.std.specs.Prelude.{◌≡◌, ◌≤◌, length};
ghost use Rattle.rate.specs.Units.{largest_rate};
ghost use Rattle.port_share.specs.Demands.{cut_sum};
ghost use Rattle.port_share.specs.Above.{above};

// The sum of the demands, each cut to s, and how many of them are above s.
#[derive(Clone, Copy)]
pub struct Sums {
    pub sum: u64,
    pub above: u64,
}

// No sum wraps: at most 1,024 numbers, none above the largest rate.
// A `for` and no chain of iterators, which would go over the demands twice.
#[tactic(auto, using(crate::proofs::Places::pass_steps))]
pub fn pass(demands: &[u64], s: u64) -> Sums
    requires { (length demands.now ≤ 1024) × (s ≤ largest_rate) }
    ensures { (result.sum ≡ cut_sum s demands.now) × (result.above ≡ above s demands.now) }
{
    let mut sum = 0;
    let mut above = 0;
    for &d in demands {
        sum += d.min(s);
        above += (s < d) as u64;
    }
    Sums { sum, above }
}
