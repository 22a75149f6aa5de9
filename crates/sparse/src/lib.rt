// Sparse rows: sorted lists of u32 offsets in lent slices, or in parts of a pool.
#![tactic(auto)]

pub mod list;

ghost use Rattle.std.specs.Prelude.{◌≡◌, ◌+◌, ◌*◌, ◌≤◌, ◌<◌, length};
ghost use Rattle.sparse.specs.Search.{lower_in, lower_of, found_in, search_in, spot_in, any_in};
ghost use Rattle.sparse.specs.Edit.{inserted_at, cleared, copied};
ghost use Rattle.sparse.specs.Union.{merged, union, on_front};

// ---- searching

// What is left of a search: n places from lo on.
#[derive(Clone, Copy)]
struct Left {
    lo: usize,
    n: usize,
}

// The half that holds the answer, as a choice of two numbers: which one it is can't be foreseen. One place stays as it is.
#[tactic(auto, using(crate::proofs::Halving::upper_same, crate::proofs::Halving::lower_same))]
fn halved(row: &[u32], off: u32, left: Left) -> Left
    requires { (1 ≤ left.n) × (left.lo + left.n ≤ length row.now) }
    ensures { (1 ≤ result.n) × (2 * result.n ≤ left.n + 1) × (result.lo + result.n ≤ left.lo + left.n)
        × (lower_in result.n row.now off result.lo result.n ≡ lower_in left.n row.now off left.lo left.n) }
{
    let half = left.n / 2;
    let mid = left.lo + half;
    let lo = if row[mid] < off { mid } else { left.lo };
    Left {
        lo,
        n: left.n - half,
    }
}

// Five times: up to 32 places become one. Turns in a row, and not in a loop, since in a loop the compiler jumps.
fn halved_five_times(row: &[u32], off: u32, left: Left) -> Left
    requires { (1 ≤ left.n) × (left.lo + left.n ≤ length row.now) }
    ensures { (1 ≤ result.n) × (32 * result.n ≤ left.n + 31) × (result.lo + result.n ≤ left.lo + left.n)
        × (lower_in result.n row.now off result.lo result.n ≡ lower_in left.n row.now off left.lo left.n) }
{
    let a = halved(row, off, left);
    let b = halved(row, off, a);
    let c = halved(row, off, b);
    let d = halved(row, off, c);
    halved(row, off, d)
}

// The number of offsets below a bound, by halving; no row has more than 1,024. Not by std's `partition_point`: it jumps, and promises nothing of a row that does not rise.
#[tactic(auto, using(crate::proofs::Halving::lower_none, crate::proofs::Halving::lower_some, crate::proofs::Halving::in_end))]
pub fn below(row: &[u32], len: usize, off: u32) -> usize
    requires { len ≤ length row.now }
    ensures { result ≡ lower_of row.now len off }
{
    if len == 0 {
        return 0;
    }
    let mut left = Left { lo: 0, n: len };
    while 1024 < left.n {
        left = halved(row, off, left);
    }
    if 32 < left.n {
        left = halved_five_times(row, off, left);
    }
    let last = halved_five_times(row, off, left);
    let lo = last.lo;
    lo + (row[lo] < off) as usize
}

// Whether an offset is there.
#[tactic(auto, unfolding(crate::specs::Search::found_in))]
pub fn contains(row: &[u32], len: usize, off: u32) -> bool
    requires { len ≤ length row.now }
    ensures { result ≡ found_in row.now len off }
{
    let i = below(row, len, off);
    i < len && row[i] == off
}

// As Rust's `binary_search`: `Ok`, the place where an offset stands, or `Err`, where it would.
#[tactic(auto, unfolding(crate::specs::Search::search_in, crate::specs::Search::found_in))]
pub fn search(row: &[u32], len: usize, off: u32) -> Result<usize, usize>
    requires { len ≤ length row.now }
    ensures { result ≡ search_in row.now len off }
{
    let i = below(row, len, off);
    if i < len && row[i] == off {
        Ok(i)
    } else {
        Err(i)
    }
}

// `search` with the append fast path: ascending population never searches.
#[tactic(auto, unfolding(crate::specs::Search::spot_in))]
pub fn spot(row: &[u32], len: usize, off: u32) -> Result<usize, usize>
    requires { len ≤ length row.now }
    ensures { result ≡ spot_in row.now len off }
{
    if len == 0 || row[len - 1] < off {
        Err(len)
    } else {
        search(row, len, off)
    }
}

// Whether an offset lies in lo to hi, both included.
#[tactic(auto, unfolding(crate::specs::Search::any_in))]
pub fn any_in(row: &[u32], len: usize, lo: u32, hi: u32) -> bool
    requires { len ≤ length row.now }
    ensures { result ≡ any_in row.now len lo hi }
{
    let i = below(row, len, lo);
    i < len && row[i] <= hi
}

// ---- editing

// A new offset at its place: the tail moves up by one.
#[tactic(auto, using(crate::proofs::Edits::copied_up))]
pub fn insert_at(row: &mut [u32], len: usize, at: usize, off: u32)
    requires { (at ≤ len) × (len < length row.old) }
    ensures { row.new ≡ inserted_at row.old len at off }
{
    row.copy_within(at..len, at + 1);
    row[at] = off;
}

// A freed row is filled with zeros.
#[tactic(auto, unfolding(crate::specs::Edit::cleared))]
pub fn clear(row: &mut [u32], len: usize)
    requires { len ≤ length row.old }
    ensures { row.new ≡ cleared row.old len }
{
    row[..len].fill(0);
}

// A row's first offsets over those of another. Not by `copy_from_slice`, which a union would compile to C's `memmove`: the archive leans on `memcpy` and `memset` alone.
pub fn copy(src: &[u32], dst: &mut [u32], len: usize)
    requires { (len ≤ length src.now) × (len ≤ length dst.old) }
    ensures { dst.new ≡ copied src.now dst.old len }
{
    for i in 0..len {
        dst[i] = src[i];
    }
}

// ---- union

// Writes the union's front while both lists last, and returns the unused part of the one that lasts longer; `written`, which the docs name, is the front's length.
pub fn merge<'a>(a: &'a [u32], b: &'a [u32], out: &mut [u32], written: &mut usize) -> &'a [u32]
    requires { length a.now + length b.now ≤ length out.old }
    ensures { (result.now ≡ (merged a.now b.now).rest) × (out.new
        ≡ on_front (merged a.now b.now).front out.old) × (written.new
        ≡ length (merged a.now b.now).front) }
{
    let mut i = 0;
    let mut j = 0;
    let mut k = 0;
    // Either index moves on or not, by a test and without a jump: no iterator goes so.
    while i < a.len() && j < b.len() {
        let x = a[i];
        let y = b[j];
        // By the test that moves i, too: `x.min(y)` takes one of its own, and was slower.
        out[k] = if x <= y { x } else { y };
        i += (x <= y) as usize;
        j += (y <= x) as usize;
        k += 1;
    }
    *written = k;
    if i < a.len() {
        return &a[i..];
    }
    &b[j..]
}

// The length of the union, without writing it.
#[tactic(auto, using(crate::proofs::Merges::union_step, crate::proofs::Merges::union_rest_a, crate::proofs::Merges::union_rest_b))]
pub fn union_len(a: &[u32], b: &[u32]) -> usize
    ensures { result ≡ length (union a.now b.now) }
{
    let mut i = 0;
    let mut j = 0;
    let mut k = 0;
    // The loop of `merge`, for its reason.
    while i < a.len() && j < b.len() {
        let p = a[i];
        let q = b[j];
        i += (p <= q) as usize;
        j += (q <= p) as usize;
        k += 1;
    }
    k + (a.len() - i) + (b.len() - j)
}

// The union at the front of out, and its length.
#[tactic(auto, using(crate::proofs::Unions::merged_le), unfolding(crate::specs::Union::union, crate::specs::Union::on_front, crate::specs::Edit::copied))]
pub fn union_sorted<'a>(a: &'a [u32], b: &'a [u32], out: &mut [u32]) -> usize
    requires { length a.now + length b.now ≤ length out.old }
    ensures { (result ≡ length (union a.now b.now)) × (out.new
        ≡ on_front (union a.now b.now) out.old) }
{
    let mut front = 0;
    let rest = merge(a, b, out, &mut front);
    copy(rest, &mut out[front..], rest.len());
    front + rest.len()
}
