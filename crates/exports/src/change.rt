// The calls that change a set: answer and memory after are those of the call that each wraps.
ghost use Rattle.layout.specs.Mem.{mem};
ghost use Rattle.layout.specs.SetUp.{sizes_of};
ghost use Rattle.document.specs.Calls.{insert, put, prepared, prepare, rank_up, leave, whether, that};
ghost use Rattle.contracts.specs.Does.{Does, SetsUp};
ghost use Rattle.codes.specs.Codes.{Coded, outcome_code, truth_code};
ghost use Rattle.document.specs.Results.{Outcome, Truth};

use codes::answer::{DoneAnswer, TruthAnswer};
use idset::setup;
use inserts::insert;
use ranked::form;

// An empty open set of these sizes, in lent memory.
#[unsafe(no_mangle)]
pub extern "C" fn bp_set_up(
    s: u64,
    m: u64,
    d: u64,
    v: u64,
    r: u64,
    p: u64,
    pages: &mut [u64],
    rows: &mut [u32],
    blocks: &mut [u32],
    table: &mut [u64],
) -> DoneAnswer
    ensures { let x = mem pages.old rows.old blocks.old table.old in
        let y = mem pages.new rows.new blocks.new table.new in
        Coded outcome_code (λ (o : Outcome). SetsUp (sizes_of s m d v r p) x o y) result }
{
    DoneAnswer::from(setup::set_up(s, m, d, v, r, p, pages, rows, blocks, table))
}

// Inserts an id, and drops the answer.
#[unsafe(no_mangle)]
pub extern "C" fn bp_set(
    pages: &mut [u64],
    rows: &mut [u32],
    blocks: &mut [u32],
    table: &mut [u64],
    id: i64,
) -> DoneAnswer
    ensures { let x = mem pages.old rows.old blocks.old table.old in
        let y = mem pages.new rows.new blocks.new table.new in
        Coded outcome_code (λ (a : Outcome). Does x (put id) (that a) y) result }
{
    DoneAnswer::from(insert::set(pages, rows, blocks, table, id))
}

// Inserts an id, and answers whether it is new.
#[unsafe(no_mangle)]
pub extern "C" fn bp_set_if_new(
    pages: &mut [u64],
    rows: &mut [u32],
    blocks: &mut [u32],
    table: &mut [u64],
    id: i64,
) -> TruthAnswer
    ensures { let x = mem pages.old rows.old blocks.old table.old in
        let y = mem pages.new rows.new blocks.new table.new in
        Coded truth_code (λ (a : Truth). Does x (insert id) (whether a) y) result }
{
    TruthAnswer::from(insert::set_if_new(pages, rows, blocks, table, id))
}

// Inserts an id into a dense chunk, and answers whether it is new.
#[unsafe(no_mangle)]
pub extern "C" fn bp_set_prepared(
    pages: &mut [u64],
    rows: &mut [u32],
    blocks: &mut [u32],
    table: &mut [u64],
    id: i64,
) -> TruthAnswer
    ensures { let x = mem pages.old rows.old blocks.old table.old in
        let y = mem pages.new rows.new blocks.new table.new in
        Coded truth_code (λ (a : Truth). Does x (prepared id) (whether a) y) result }
{
    TruthAnswer::from(insert::set_prepared(pages, rows, blocks, table, id))
}

// Every chunk from 0 to the maximum's becomes dense, with its members.
#[unsafe(no_mangle)]
pub extern "C" fn bp_pre_allocate(
    pages: &mut [u64],
    rows: &mut [u32],
    blocks: &mut [u32],
    table: &mut [u64],
    max: i64,
) -> DoneAnswer
    ensures { let x = mem pages.old rows.old blocks.old table.old in
        let y = mem pages.new rows.new blocks.new table.new in
        Coded outcome_code (λ (a : Outcome). Does x (prepare max) (that a) y) result }
{
    DoneAnswer::from(prepare::pre_allocate(pages, rows, blocks, table, max))
}

// Counts for ranks: the set is ranked.
#[unsafe(no_mangle)]
pub extern "C" fn bp_into_ranked(
    pages: &[u64],
    rows: &[u32],
    blocks: &mut [u32],
    table: &mut [u64],
) -> DoneAnswer
    ensures { let x = mem pages.now rows.now blocks.old table.old in
        let y = mem pages.now rows.now blocks.new table.new in
        Coded outcome_code (λ (a : Outcome). Does x rank_up (that a) y) result }
{
    DoneAnswer::from(form::into_ranked(pages, rows, blocks, table))
}

// Leaves the ranked form: the counts are cleared.
#[unsafe(no_mangle)]
pub extern "C" fn bp_into_open(
    pages: &[u64],
    rows: &[u32],
    blocks: &mut [u32],
    table: &mut [u64],
) -> DoneAnswer
    ensures { let x = mem pages.now rows.now blocks.old table.old in
        let y = mem pages.now rows.now blocks.new table.new in
        Coded outcome_code (λ (a : Outcome). Does x leave (that a) y) result }
{
    DoneAnswer::from(form::into_open(pages, rows, blocks, table))
}
