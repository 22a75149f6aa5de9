// Where a chunk's members are: nowhere, in the first of a row's offsets (row, length), or in a page.
ghost use Rattle.std.specs.Prelude.{◌≡◌, ◌≤◌};
ghost use Rattle.layout.specs.Places.{decoded, encoded, has_row, has_page};
ghost use Rattle.layout.specs.declared.place.Place.TheVariants.{Sparse, Dense};

#[derive(Clone, Copy)]
pub enum Place {
    Absent,
    Sparse(u64, u64),
    Dense(u64),
}

// What an entry's word says.
pub fn decode(w: u64) -> Place
    ensures { result ≡ decoded w }
{
    if 268435456 <= w {
        return Place::Dense(w - 268435456);
    }
    if w == 0 {
        return Place::Absent;
    }
    Place::Sparse((w - 1) / 2048, (w - 1) % 2048)
}

pub fn has_row(q: Place) -> bool
    ensures { result ≡ has_row q }
{
    match q {
        Place::Absent => false,
        Place::Sparse(_, _) => true,
        Place::Dense(_) => false,
    }
}

pub fn has_page(q: Place) -> bool
    ensures { result ≡ has_page q }
{
    match q {
        Place::Absent => false,
        Place::Sparse(_, _) => false,
        Place::Dense(_) => true,
    }
}

// The word of a chunk with l members in row r.
pub fn row_word(r: u64, l: u64) -> u64
    requires { (r ≤ 131072) × (l ≤ 2047) }
    ensures { result ≡ encoded (Sparse r l) }
{
    1 + (2048 * r + l)
}

// The word of a chunk in page p.
pub fn page_word(p: u64) -> u64
    requires { p ≤ 65536 }
    ensures { result ≡ encoded (Dense p) }
{
    268435456 + p
}
