// An id as a line shows it: a sign, and a magnitude.
ghost use Rattle.std.specs.Prelude.{◌≡◌, nat_abs};

// An id without its sign: 2 ^ 63 for the smallest.
pub fn magnitude(z: i64) -> u64
    ensures { result ≡ nat_abs z }
{
    z.unsigned_abs()
}
