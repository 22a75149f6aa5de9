// What a part of a pool holds.
ghost use Rattle.std.specs.Prelude.{◌≡◌, length};
ghost use Rattle.layout.specs.Part.{Within, has_in};

use crate::find::Spot;
use document::refusal::Refusal;

// Whether offset o of the chunk is a member.
pub fn has(pages: &[u64], rows: &[u32], q: Result<Spot, Refusal>, o: u64) -> Result<bool, Refusal>
    requires { Within (length pages.now) (length rows.now) o q }
    ensures { result ≡ has_in pages.now rows.now o q }
{
    match q? {
        Spot::Nowhere => Ok(false),
        Spot::Row(a, n, l) => {
            let e = a + n;
            Ok(sparse::contains(&rows[a..e], l, o as u32))
        }
        Spot::Page(a, n) => {
            let e = a + n;
            Ok(dense::contains(&pages[a..e], o))
        }
    }
}
