// Runs of elements that are all alike: unused words, spare entries, free rows and pages, which are zeros.
ghost use Rattle.std.specs.Prelude.{◌≡◌, ℕ, ◌+◌, ◌≤◌, length, get_or};
ghost use Rattle.sums.specs.Rules.{all_to};

// The n elements from a are v. Not `all`: nearly every run holds, and a loop without branches is faster there.
#[tactic(auto, using(sums::proofs::Rules::all_none, sums::proofs::Rules::all_more, crate::proofs::Runs::of_run))]
pub fn all_are<T: Copy + PartialEq>(t: &[T], a: u64, n: u64, v: T) -> bool
    requires { a + n ≤ length t.now }
    ensures { result ≡ all_to (λ (i : ℕ). T.eq (get_or t.now (a + i) v) v) n }
{
    let mut ok = true;
    for x in &t[a as usize..(a + n) as usize] {
        ok &= *x == v;
    }
    ok
}
