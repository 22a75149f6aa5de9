// Elements of lent slices at places of any size: `none` is read and nothing is written past the end.
ghost use Rattle.std.specs.Prelude.{◌≡◌, get_or, set};

// The element at i.
pub fn at<T: Copy>(t: &[T], i: u64, none: T) -> T
    ensures { result ≡ get_or t.now i none }
{
    t.get(i as usize).copied().unwrap_or(none)
}

// The element v to i.
pub fn put<T: Copy>(t: &mut [T], i: u64, v: T)
    ensures { t.new ≡ set t.old i v }
{
    let k = i as usize;
    // Not `get_mut`: what was written through it is not known to a proof.
    if k < t.len() {
        t[k] = v;
    }
}
