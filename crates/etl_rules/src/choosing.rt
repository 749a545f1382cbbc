// How many of a series' partitions move on.
ghost use Rattle.std.specs.Prelude.{◌≡◌};
ghost use Rattle.etl_rules.specs.Choosing.{chosen, ripe};

/// How many of a series' partitions in one store are to move to the next, of the oldest ones. `ends` are the
/// moments at which the partitions end, oldest first; `hold` and `gather` are the store's settings. Moments
/// are nanoseconds since 1970-01-01T00:00:00Z.
pub fn choose(ends: &[u64], hold: u32, gather: u32, now: u64) -> usize
    ensures { result ≡ chosen hold gather (ripe now ends.now) }
{
    let ripe = ends.iter().filter(|end| **end <= now).count();
    if hold == 0 {
        return ripe;
    }
    if ripe < hold as usize {
        return 0;
    }
    ripe.min(gather as usize)
}
