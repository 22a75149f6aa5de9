// Whole words: counting, union, copying.
ghost use Rattle.std.specs.Prelude.{◌≡◌, ◌*◌, ◌^◌, ◌≤◌, ◌<◌, length};
ghost use Rattle.dense.specs.Bits.{bits_to, or_words};

// How many members there are.
pub fn count(words: &[u64]) -> u64
    requires { length words.now < 2 ^ 58 }
    ensures { result ≡ bits_to words.now (64 * length words.now) }
{
    words.iter().map(|w| u64::from(w.count_ones())).sum()
}

// The union: a bit of `dst` is set after exactly where either was.
pub fn or_into(dst: &mut [u64], src: &[u64])
    requires { length dst.old ≤ length src.now }
    ensures { dst.new ≡ or_words dst.old src.now }
{
    // By index: of places lent through a `zip` a proof learns nothing.
    for (i, word) in dst.iter_mut().enumerate() {
        *word |= src[i];
    }
}

// All of `src`, word for word.
pub fn copy(dst: &mut [u64], src: &[u64])
    requires { length dst.old ≡ length src.now }
    ensures { dst.new ≡ src.now }
{
    // By index, as above; and not by `copy_from_slice`, which a union would compile to C's `memmove`: the archive leans on `memcpy` and `memset` alone.
    for (i, word) in dst.iter_mut().enumerate() {
        *word = src[i];
    }
}
