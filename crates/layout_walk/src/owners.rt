// The owners of rows and of pages, each as one run: the lowest free one, and how many are taken.
ghost use Rattle.std.specs.Prelude.{◌≡◌, not, ◌&&◌, ℕ, ◌+◌, ◌-◌, ◌≤◌, get_or, eqb};
ghost use Rattle.sums.specs.Ids.{count};
ghost use Rattle.document.specs.Sizes.{InRange};
ghost use Rattle.layout.specs.Places.{row_owner, page_owner};
ghost use Rattle.layout.specs.Free.{first_free, free_row_in, free_page_in};
ghost use Rattle.layout.specs.Tests.{rows_owned, pages_owned, froms_are};

use document::sizes::Sizes;
use layout::head;
use numbers::element;

// The first of places i to n - 1 whose owner is 0, else the one past them; the owners start at a.
fn first_free(table: &[u64], a: u64, i: u64, n: u64) -> u64
    requires { (a ≤ 1048576) × (n ≤ 65536) }
    ensures { result ≡ first_free (λ (j : ℕ). get_or table.now (a + j) 0) i (n - i) }
{
    for k in i..n {
        if element::at(table, a + k, 0) == 0 {
            return k;
        }
    }
    i.max(n)
}

// The lowest free row from the header's word on, R where there is none.
pub fn free_row(table: &[u64], h: Sizes) -> u64
    requires { InRange h }
    ensures { result ≡ free_row_in h table.now }
{
    first_free(table, head::row_owners_at(h), head::rows_from(table), h.r)
}

// The lowest free page from the header's word on, P where there is none.
pub fn free_page(table: &[u64], h: Sizes) -> u64
    requires { InRange h }
    ensures { result ≡ free_page_in h table.now }
{
    first_free(table, head::page_owners_at(h), head::pages_from(table), h.p)
}

// The lowest free row from `next` on.
pub fn next_row(table: &[u64], h: Sizes, next: u64) -> u64
    requires { InRange h }
    ensures { result ≡ first_free (row_owner h table.now) next (h.r - next) }
{
    first_free(table, head::row_owners_at(h), next, h.r)
}

// The lowest free page from `next` on.
pub fn next_page(table: &[u64], h: Sizes, next: u64) -> u64
    requires { InRange h }
    ensures { result ≡ first_free (page_owner h table.now) next (h.p - next) }
{
    first_free(table, head::page_owners_at(h), next, h.p)
}

// The header's words are not above the lowest free row and page.
#[tactic(auto, using(crate::proofs::Free::free_first), unfolding(layout::specs::Tests::froms_are))]
pub fn froms_are(table: &[u64], h: Sizes) -> bool
    requires { InRange h }
    ensures { result ≡ froms_are h table.now }
{
    let r = first_free(table, head::row_owners_at(h), 0, h.r);
    let p = first_free(table, head::page_owners_at(h), 0, h.p);
    (head::rows_from(table) <= r) & (head::pages_from(table) <= p)
}

// How many of the n owners from a on are not 0.
#[tactic(auto, using(sums::proofs::Counts::count_zero, crate::proofs::Free::count_more))]
fn owned_count(table: &[u64], a: u64, n: u64) -> u64
    requires { (a ≤ 1048576) × (n ≤ 65536) }
    ensures { result ≡ count (λ (i : ℕ). not (eqb (get_or table.now (a + i) 0) 0)) n }
{
    let mut k: u64 = 0;
    for i in 0..n {
        k += u64::from(element::at(table, a + i, 0) != 0);
    }
    k
}

// How many rows have an owner.
pub fn rows_owned(table: &[u64], h: Sizes) -> u64
    requires { InRange h }
    ensures { result ≡ count (λ (r : ℕ). not (eqb (row_owner h table.now r) 0)) h.r }
{
    owned_count(table, head::row_owners_at(h), h.r)
}

// How many pages have an owner.
pub fn pages_owned(table: &[u64], h: Sizes) -> u64
    requires { InRange h }
    ensures { result ≡ count (λ (p : ℕ). not (eqb (page_owner h table.now p) 0)) h.p }
{
    owned_count(table, head::page_owners_at(h), h.p)
}

// So many rows and so many pages have an owner.
pub fn owners_are(table: &[u64], h: Sizes, rows: u64, pages: u64) -> bool
    requires { InRange h }
    ensures { let t = table.now in result ≡ (eqb (rows_owned h t) rows && eqb (pages_owned h t) pages) }
{
    (rows_owned(table, h) == rows) & (pages_owned(table, h) == pages)
}
