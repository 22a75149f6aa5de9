// A block of eight words, as one value.
ghost use Rattle.std.specs.Prelude.{◌≡◌, ◌+◌, ◌≤◌, ◌<◌, length, take, drop};
ghost use Rattle.dense.specs.Bits.{bits_to};

use crate::words;

// The eight words from `at` on.
pub fn block_at(words: &[u64], at: usize) -> [u64; 8]
    requires { at + 8 ≤ length words.now }
    ensures { result ≡ take 8 (drop at words.now) }
{
    let mut block = [0u64; 8];
    block.copy_from_slice(&words[at..at + 8]);
    block
}

// How many members a block has.
pub fn block_count(block: [u64; 8]) -> u64
    ensures { result ≡ bits_to block 512 }
{
    words::count(&block)
}

// How many members a block has strictly below an offset.
pub fn rank_within(block: [u64; 8], off: u64) -> u64
    requires { off < 512 }
    ensures { result ≡ bits_to block off }
{
    let last = (off / 64) as usize;
    words::count(&block[..last]) + u64::from((block[last] % (1 << (off % 64))).count_ones())
}
