// How many partitions.
ghost use Rattle.std.specs.Prelude.{◌≡◌};
ghost use Rattle.sums.specs.Cuts.{parts};

// The quotient t / slots rounded up, at least 1; slots of 0 are read as 1.
pub fn parts(t: u64, slots: u64) -> u64
    ensures { result ≡ parts t slots }
{
    if t == 0 {
        return 1;
    }
    (t - 1) / u64::max(1, slots) + 1
}
