// A row's offsets as ids, written into the places of a record.
ghost use Rattle.std.specs.Prelude.{◌≡◌, ◌+◌, ◌^◌, ◌≤◌, ◌<◌, length};
ghost use Rattle.sums.specs.Members.{plus, fill, fill_to};
ghost use Rattle.sparse.specs.Listed.{offsets_from};

// The ids from offset `from` on, of the chunk whose first id is `base`, to the places from `k` on, as far as there are any. Answers the first unused place.
// Each offset is taken mod 2^s, the chunk's size, so that no row leads outside its chunk.
#[tactic(auto, using(crate::proofs::Halving::lower_le))]
pub fn ids(
    row: &[u32],
    len: usize,
    from: u32,
    base: u64,
    s: u64,
    out: &mut [i64],
    k: usize,
) -> usize
    requires { (len ≤ length row.now) × (s < 32) × (base + 2 ^ s ≤ 2 ^ 63) × (k ≤ length out.old) }
    ensures { let ns = plus base (offsets_from row.now len (2 ^ s) from) in
        (out.new ≡ fill out.old k ns) × (result ≡ fill_to out.old k ns) }
{
    let first = crate::below(row, len, from);
    let n = (len - first).min(out.len() - k);
    for (i, off) in row[first..first + n].iter().enumerate() {
        out[k + i] = (base + u64::from(*off) % (1 << s)) as i64;
    }
    k + n
}
