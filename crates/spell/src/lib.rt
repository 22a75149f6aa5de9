// Text behind text in a lent buffer: bytes, and numbers by their decimal digits.
#![tactic(auto)]

ghost use Rattle.std.specs.Prelude.{◌+◌, ◌≤◌, length};
ghost use Rattle.spell.specs.Spell.{decimal, Appends};

// The bytes, from `at` on. Answers where they end.
pub fn text(out: &mut [u8], at: usize, bytes: &[u8]) -> usize
    requires { at + length bytes.now ≤ length out.old }
    ensures { Appends (length bytes.now) out.old out.new at result bytes.now }
{
    let end = at + bytes.len();
    out[at..end].copy_from_slice(bytes);
    end
}

// A number, from `at` on. Answers where it ends.
pub fn number(out: &mut [u8], at: usize, n: u64) -> usize
    requires { at + 20 ≤ length out.old }
    ensures { Appends 20 out.old out.new at result (decimal n) }
{
    let mut digits = [0u8; 20];
    let k = io::decimal(n, &mut digits);
    text(out, at, &digits[..k])
}
