// Reading calls over a list: judged once by a walk, and then as many answers as the shorter of the two lists has. Answers past them stay.
ghost use Rattle.std.specs.Prelude.{◌≡◌, ℤ};
ghost use Rattle.layout.specs.Mem.{mem};
ghost use Rattle.lists.specs.Lists.{get_all, rank_all, rank_if_all, answered, list_answer, AnswersAll, Each};

use crate::each;
use document::refusal::Refusal;
use layout::head;
use layout_walk::walk;

// What `one` answers each id, as many as the shorter list has. It is compiled into each caller, and `one` into its loop.
fn answer_each<A: Copy, F: Fn(i64) -> A>(ids: &[i64], answers: &mut [A], one: F)
    requires { F.IsAlwaysCallable one }
    ensures { (f : ℤ → A) → Each (F.post one) f → answers.new ≡ answered f ids.now answers.old }
{
    let n = ids.len().min(answers.len());
    // Not `zip` with `iter_mut`: what was written through it is not known to a proof.
    for i in 0..n {
        answers[i] = one(ids[i]);
    }
}

// Whether each id is a member, 1 or 0.
pub fn get_all(
    ids: &[i64],
    answers: &mut [u8],
    pages: &[u64],
    rows: &[u32],
    blocks: &[u32],
    table: &[u64],
) -> Result<(), Refusal>
    ensures { let x = mem pages.now rows.now blocks.now table.now in
        AnswersAll x get_all ids.now answers.old result answers.new }
{
    if !walk::walk(pages, rows, blocks, table) {
        return Err(Refusal::NotLaidOut);
    }
    let h = head::read(table);
    answer_each(
        ids,
        answers,
        |id| each::got(pages, rows, blocks, table, h, id),
    );
    Ok(())
}

// 3 where the walk finds the table wrong, 5 of an open set.
fn judge(pages: &[u64], rows: &[u32], blocks: &[u32], table: &[u64]) -> Result<(), Refusal>
    ensures { result ≡ list_answer (mem pages.now rows.now blocks.now table.now) rank_all }
{
    if !walk::walk(pages, rows, blocks, table) {
        return Err(Refusal::NotLaidOut);
    }
    if head::mode(table) != head::RANKED {
        return Err(Refusal::IsOpen);
    }
    Ok(())
}

// The rank of each id.
pub fn rank_all(
    ids: &[i64],
    answers: &mut [u64],
    pages: &[u64],
    rows: &[u32],
    blocks: &[u32],
    table: &[u64],
) -> Result<(), Refusal>
    ensures { let x = mem pages.now rows.now blocks.now table.now in
        AnswersAll x rank_all ids.now answers.old result answers.new }
{
    judge(pages, rows, blocks, table)?;
    let h = head::read(table);
    answer_each(
        ids,
        answers,
        |id| each::rank_of(pages, rows, blocks, table, h, id),
    );
    Ok(())
}

// The rank of each member; 2^64 - 1 stands for none.
pub fn rank_if_set_all(
    ids: &[i64],
    answers: &mut [u64],
    pages: &[u64],
    rows: &[u32],
    blocks: &[u32],
    table: &[u64],
) -> Result<(), Refusal>
    ensures { let x = mem pages.now rows.now blocks.now table.now in
        AnswersAll x rank_if_all ids.now answers.old result answers.new }
{
    judge(pages, rows, blocks, table)?;
    let h = head::read(table);
    answer_each(
        ids,
        answers,
        |id| each::rank_if(pages, rows, blocks, table, h, id),
    );
    Ok(())
}
