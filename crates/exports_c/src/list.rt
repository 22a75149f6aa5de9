// Calls over a list of ids, for C: each calls the entry of exports that it is named for, under that one's clauses.
ghost use Rattle.layout.specs.Mem.{mem};
ghost use Rattle.lists.specs.Lists.{get_all, rank_all, rank_if_all, AnswersAll};
ghost use Rattle.lists.specs.Inserts.{InsertsAll};
ghost use Rattle.codes.specs.Codes.{Coded, outcome_code};
ghost use Rattle.document.specs.Results.{Outcome};

use codes::answer::DoneAnswer;
use exports::list;
use lists::insert::Inserted;

// Whether each id is a member: 1 or 0.
#[unsafe(no_mangle)]
pub extern "C" fn bp_get_all(
    ids: &[i64],
    answers: &mut [u8],
    pages: &[u64],
    rows: &[u32],
    blocks: &[u32],
    table: &[u64],
) -> DoneAnswer
    ensures { let x = mem pages.now rows.now blocks.now table.now in
        Coded outcome_code (λ (a : Outcome). AnswersAll x get_all ids.now answers.old a answers.new) result }
{
    list::bp_get_all(ids, answers, pages, rows, blocks, table)
}

// The rank of each id.
#[unsafe(no_mangle)]
pub extern "C" fn bp_rank_all(
    ids: &[i64],
    answers: &mut [u64],
    pages: &[u64],
    rows: &[u32],
    blocks: &[u32],
    table: &[u64],
) -> DoneAnswer
    ensures { let x = mem pages.now rows.now blocks.now table.now in
        Coded outcome_code (λ (a : Outcome). AnswersAll x rank_all ids.now answers.old a answers.new) result }
{
    list::bp_rank_all(ids, answers, pages, rows, blocks, table)
}

// The rank of each member; 2^64 - 1 stands for none.
#[unsafe(no_mangle)]
pub extern "C" fn bp_rank_if_set_all(
    ids: &[i64],
    answers: &mut [u64],
    pages: &[u64],
    rows: &[u32],
    blocks: &[u32],
    table: &[u64],
) -> DoneAnswer
    ensures { let x = mem pages.now rows.now blocks.now table.now in
        Coded outcome_code (λ (a : Outcome). AnswersAll x rank_if_all ids.now answers.old a answers.new) result }
{
    list::bp_rank_if_set_all(ids, answers, pages, rows, blocks, table)
}

// Inserts ids up to the first that is refused. The record is C's own as it stands.
#[unsafe(no_mangle)]
pub extern "C" fn bp_insert_all(
    ids: &[i64],
    pages: &mut [u64],
    rows: &mut [u32],
    blocks: &mut [u32],
    table: &mut [u64],
) -> Inserted
    ensures { let x = mem pages.old rows.old blocks.old table.old in
        let y = mem pages.new rows.new blocks.new table.new in
        InsertsAll x ids.now result y }
{
    list::bp_insert_all(ids, pages, rows, blocks, table)
}
