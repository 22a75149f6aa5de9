// Powers of two and small products, each said once: the contracts carry the laws, so that nothing above shifts by hand.
ghost use Rattle.std.specs.Prelude.{◌≡◌, ◌*◌, ◌/◌, ◌%◌, ◌^◌, ◌<◌, ◌≤◌};

// 2 ^ k: the ids of a chunk, the words or the blocks of a page.
pub fn pow2(k: u64) -> u64
    requires { k < 64 }
    ensures { result ≡ 2 ^ k }
{
    1 << k
}

// The whole multiples of 2 ^ k in n: an id's chunk.
pub fn high(n: u64, k: u64) -> u64
    requires { k < 64 }
    ensures { result ≡ n / 2 ^ k }
{
    n >> k
}

// What is left of n past them: an id's offset.
pub fn low(n: u64, k: u64) -> u64
    requires { k < 64 }
    ensures { result ≡ n % 2 ^ k }
{
    n % pow2(k)
}

// x times 2 ^ k where nothing is lost: a chunk's first id.
pub fn shifted(x: u64, k: u64) -> u64
    requires { (k < 64) × (x * 2 ^ k < 2 ^ 64) }
    ensures { result ≡ x * 2 ^ k }
{
    x << k
}

// x times 2 ^ k for a slot number x: where a page or its block counts start.
pub fn scaled(x: u64, k: u64) -> u64
    requires { (x ≤ 65536) × (k < 32) }
    ensures { result ≡ x * 2 ^ k }
{
    shifted(x, k)
}

// The product of two sizes or slot numbers: where a row starts.
pub fn times(x: u64, y: u64) -> u64
    requires { (x ≤ 262144) × (y ≤ 262144) }
    ensures { result ≡ x * y }
{
    x * y
}
