// A chunk's offsets as ids, written into the places of a record.
ghost use Rattle.std.specs.Prelude.{◌≡◌, [], ◌∷◌, ◌+◌, ◌-◌, ◌*◌, ◌^◌, ◌≤◌, length};
ghost use Rattle.sums.specs.Members.{members_in, plus, fill, fill_to};
ghost use Rattle.dense.specs.Bits.{is_set};

// The ids of one word, whose bit 0 is id `at`: the lowest set bit is read and cleared, until none is left or no place.
fn word(w: u64, at: u64, out: &mut [i64], k: usize) -> usize
    requires { (k ≤ length out.old) × (at + 64 ≤ 2 ^ 63) }
    ensures { let ns = plus at (members_in (is_set (w ∷ [])) 0 64) in
        (out.new ≡ fill out.old k ns) × (result ≡ fill_to out.old k ns) }
{
    let mut rest = w;
    let mut n = k;
    // A `while`: as a `for` over the places it was slower over empty words.
    while rest != 0 && n < out.len() {
        out[n] = (at + u64::from(rest.trailing_zeros())) as i64;
        rest &= rest - 1;
        n += 1;
    }
    n
}

// The ids from offset `from` on, of the chunk whose first id is `base`, to the places from `k` on, as far as there are any. Answers the first unused place.
pub fn ids(words: &[u64], from: u64, base: u64, out: &mut [i64], k: usize) -> usize
    requires { (k ≤ length out.old) × (base + 64 * length words.now ≤ 2 ^ 63) }
    ensures { let ns = plus base (members_in (is_set words.now) from (64 * length words.now - from)) in
        (out.new ≡ fill out.old k ns) × (result ≡ fill_to out.old k ns) }
{
    let first = (from / 64) as usize;
    if words.len() <= first {
        return k;
    }
    let low = from % 64;
    let mut n = word(
        words[first] >> low << low,
        base + (first as u64) * 64,
        out,
        k,
    );
    for i in first + 1..words.len() {
        if n == out.len() {
            break;
        }
        n = word(words[i], base + (i as u64) * 64, out, n);
    }
    n
}
