// The calls that only read: each answers the code of what the call that it wraps answers.
ghost use Rattle.layout.specs.Mem.{mem};
ghost use Rattle.document.specs.Calls.{get, range_test, chunk_id, len, is_empty, has_any, chunk_count, iterate, rank_of, rank_if_set, total_count, check};
ghost use Rattle.document.specs.Calls.{whether, many, maybe, listed};
ghost use Rattle.contracts.specs.Does.{Answers};
ghost use Rattle.codes.specs.Codes.{Coded, truth_code, amount_code, perhaps_code};
ghost use Rattle.document.specs.Results.{Amount, Perhaps, Truth};
ghost use Rattle.std.specs.Prelude.{Ok};

use codes::answer::{NumberAnswer, OptionalAnswer, TruthAnswer};
use counts::count;
use document::answer::Listing;
use idset::read;
use iteration::listing;
use ranked::rank;
use scan::range;

// The full check: whether memory follows the layout.
#[unsafe(no_mangle)]
pub extern "C" fn bp_check(pages: &[u64], rows: &[u32], blocks: &[u32], table: &[u64]) -> bool
    ensures { let x = mem pages.now rows.now blocks.now table.now in Answers x check (whether (Ok result)) }
{
    fullcheck::check(pages, rows, blocks, table)
}

// Whether an id is a member.
#[unsafe(no_mangle)]
pub extern "C" fn bp_get(
    pages: &[u64],
    rows: &[u32],
    blocks: &[u32],
    table: &[u64],
    id: i64,
) -> TruthAnswer
    ensures { let x = mem pages.now rows.now blocks.now table.now in
        Coded truth_code (λ (a : Truth). Answers x (get id) (whether a)) result }
{
    TruthAnswer::from(read::get(pages, rows, blocks, table, id))
}

// Whether a member lies in min to max, both included.
#[unsafe(no_mangle)]
pub extern "C" fn bp_any_in_range(
    pages: &[u64],
    rows: &[u32],
    blocks: &[u32],
    table: &[u64],
    min: i64,
    max: i64,
) -> TruthAnswer
    ensures { let x = mem pages.now rows.now blocks.now table.now in
        Coded truth_code (λ (a : Truth). Answers x (range_test min max) (whether a)) result }
{
    TruthAnswer::from(range::any_in_range(pages, rows, blocks, table, min, max))
}

// The chunk that an id lives in, or none.
#[unsafe(no_mangle)]
pub extern "C" fn bp_chunk_of(
    pages: &[u64],
    rows: &[u32],
    blocks: &[u32],
    table: &[u64],
    id: i64,
) -> OptionalAnswer
    ensures { let x = mem pages.now rows.now blocks.now table.now in
        Coded perhaps_code (λ (a : Perhaps). Answers x (chunk_id id) (maybe a)) result }
{
    OptionalAnswer::from(read::chunk_of(pages, rows, blocks, table, id))
}

// The members.
#[unsafe(no_mangle)]
pub extern "C" fn bp_len(pages: &[u64], rows: &[u32], blocks: &[u32], table: &[u64]) -> NumberAnswer
    ensures { let x = mem pages.now rows.now blocks.now table.now in
        Coded amount_code (λ (a : Amount). Answers x len (many a)) result }
{
    NumberAnswer::from(count::len(pages, rows, blocks, table))
}

// Whether there is no member.
#[unsafe(no_mangle)]
pub extern "C" fn bp_is_empty(
    pages: &[u64],
    rows: &[u32],
    blocks: &[u32],
    table: &[u64],
) -> TruthAnswer
    ensures { let x = mem pages.now rows.now blocks.now table.now in
        Coded truth_code (λ (a : Truth). Answers x is_empty (whether a)) result }
{
    TruthAnswer::from(count::is_empty(pages, rows, blocks, table))
}

// Whether there is a chunk, be it empty.
#[unsafe(no_mangle)]
pub extern "C" fn bp_has_any(
    pages: &[u64],
    rows: &[u32],
    blocks: &[u32],
    table: &[u64],
) -> TruthAnswer
    ensures { let x = mem pages.now rows.now blocks.now table.now in
        Coded truth_code (λ (a : Truth). Answers x has_any (whether a)) result }
{
    TruthAnswer::from(count::has_any(pages, rows, blocks, table))
}

// The chunks, empty ones too.
#[unsafe(no_mangle)]
pub extern "C" fn bp_allocated_chunk_count(
    pages: &[u64],
    rows: &[u32],
    blocks: &[u32],
    table: &[u64],
) -> NumberAnswer
    ensures { let x = mem pages.now rows.now blocks.now table.now in
        Coded amount_code (λ (a : Amount). Answers x chunk_count (many a)) result }
{
    NumberAnswer::from(count::allocated_chunk_count(pages, rows, blocks, table))
}

// The 64 smallest members not below start, or all if fewer. The record is C's own as it stands.
#[unsafe(no_mangle)]
pub extern "C" fn bp_iter_from(
    pages: &[u64],
    rows: &[u32],
    blocks: &[u32],
    table: &[u64],
    start: i64,
) -> Listing
    ensures { let x = mem pages.now rows.now blocks.now table.now in Answers x (iterate start) (listed result) }
{
    listing::iter_from(pages, rows, blocks, table, start)
}

// The members below an id, in a ranked set.
#[unsafe(no_mangle)]
pub extern "C" fn bp_rank(
    pages: &[u64],
    rows: &[u32],
    blocks: &[u32],
    table: &[u64],
    id: i64,
) -> NumberAnswer
    ensures { let x = mem pages.now rows.now blocks.now table.now in
        Coded amount_code (λ (a : Amount). Answers x (rank_of id) (many a)) result }
{
    NumberAnswer::from(rank::rank(pages, rows, blocks, table, id))
}

// The rank of a member; none for any other id.
#[unsafe(no_mangle)]
pub extern "C" fn bp_rank_if_set(
    pages: &[u64],
    rows: &[u32],
    blocks: &[u32],
    table: &[u64],
    id: i64,
) -> OptionalAnswer
    ensures { let x = mem pages.now rows.now blocks.now table.now in
        Coded perhaps_code (λ (a : Perhaps). Answers x (rank_if_set id) (maybe a)) result }
{
    OptionalAnswer::from(rank::rank_if_set(pages, rows, blocks, table, id))
}

// The members of a ranked set, as ranking counted them.
#[unsafe(no_mangle)]
pub extern "C" fn bp_total_count(
    pages: &[u64],
    rows: &[u32],
    blocks: &[u32],
    table: &[u64],
) -> NumberAnswer
    ensures { let x = mem pages.now rows.now blocks.now table.now in
        Coded amount_code (λ (a : Amount). Answers x total_count (many a)) result }
{
    NumberAnswer::from(rank::total_count(pages, rows, blocks, table))
}
