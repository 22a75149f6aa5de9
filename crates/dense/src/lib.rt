// Dense chunks: bit maps in lent words of 64 bits, one bit for each offset.
#![tactic(auto)]

pub mod block;
pub mod list;
pub mod words;

ghost use Rattle.std.specs.Prelude.{◌≡◌, not, ◌*◌, ◌^◌, ◌≤◌, ◌<◌, length};
ghost use Rattle.dense.specs.Bits.{is_set, with_bit, with_row, any_in};

// Whether the offset is a member.
pub fn contains(words: &[u64], off: u64) -> bool
    requires { off < 64 * length words.now }
    ensures { result ≡ is_set words.now off }
{
    let i = (off / 64) as usize;
    (words[i] >> (off % 64)) % 2 == 1
}

// Sets the bit, and answers whether it was clear.
pub fn insert(words: &mut [u64], off: u64) -> bool
    requires { off < 64 * length words.old }
    ensures { (result ≡ not (is_set words.old off)) × (words.new ≡ with_bit words.old off) }
{
    let i = (off / 64) as usize;
    let b = off % 64;
    let w = words[i];
    words[i] |= 1 << b;
    (w >> b) % 2 != 1
}

// Sets the bits of a row's first `len` offsets. Each is taken mod 2^s, the chunk's size, so that no row leads outside the words.
pub fn write_row(words: &mut [u64], row: &[u32], len: usize, s: u64)
    requires { (len ≤ length row.now) × (s < 64) × (2 ^ s ≤ 64 * length words.old) }
    ensures { words.new ≡ with_row words.old row.now (2 ^ s) len }
{
    for off in &row[..len] {
        let off = u64::from(*off) % (1 << s);
        words[(off / 64) as usize] |= 1 << (off % 64);
    }
}

// Whether a member lies in `lo` to `hi`, both included.
pub fn any_in(words: &[u64], lo: u64, hi: u64) -> bool
    requires { hi < 64 * length words.now }
    ensures { result ≡ any_in words.now lo hi }
{
    if hi < lo {
        return false;
    }
    let first = (lo / 64) as usize;
    let last = (hi / 64) as usize;
    let above = words[first] >> (lo % 64);
    if first == last {
        return above << (63 - (hi - lo)) != 0;
    }
    above != 0
        || words[first + 1..last].iter().any(|w| *w != 0)
        || words[last] << (63 - hi % 64) != 0
}
