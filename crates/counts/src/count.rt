// Counts of members and of chunks, in both modes. The run tests each entry as it comes, and passes over absent ones.
ghost use Rattle.layout.specs.Mem.{mem};
ghost use Rattle.document.specs.Calls.{len, is_empty, has_any, chunk_count, whether, many};
ghost use Rattle.contracts.specs.Does.{Answers};

use crate::parts;
use document::refusal::Refusal;
use layout::entry;

// The members.
pub fn len(pages: &[u64], rows: &[u32], blocks: &[u32], table: &[u64]) -> Result<u64, Refusal>
    ensures { let x = mem pages.now rows.now blocks.now table.now in Answers x len (many result) }
{
    if !entries::are(table) {
        return Err(Refusal::NotLaidOut);
    }
    let n = entries::number(table);
    let mut members: u64 = 0;
    let mut e: u64 = 0;
    // No `for`, here and below: the next entry that has a word follows.
    while e < n {
        members += parts::size_at(pages, rows, blocks, table, e)?;
        e = entries::next_used(table, e + 1, n);
    }
    Ok(members)
}

// Whether there is no member.
pub fn is_empty(pages: &[u64], rows: &[u32], blocks: &[u32], table: &[u64]) -> Result<bool, Refusal>
    ensures { let x = mem pages.now rows.now blocks.now table.now in Answers x is_empty (whether result) }
{
    if !entries::are(table) {
        return Err(Refusal::NotLaidOut);
    }
    let n = entries::number(table);
    let mut empty = true;
    let mut e: u64 = 0;
    while e < n {
        empty &= parts::is_empty_at(pages, rows, blocks, table, e)?;
        e = entries::next_used(table, e + 1, n);
    }
    Ok(empty)
}

// Whether there is a chunk, be it empty.
pub fn has_any(pages: &[u64], rows: &[u32], blocks: &[u32], table: &[u64]) -> Result<bool, Refusal>
    ensures { let x = mem pages.now rows.now blocks.now table.now in Answers x has_any (whether result) }
{
    if !entries::are(table) {
        return Err(Refusal::NotLaidOut);
    }
    let n = entries::number(table);
    Ok(entries::next_used(table, 0, n) < n)
}

// The chunks, empty ones too.
pub fn allocated_chunk_count(
    pages: &[u64],
    rows: &[u32],
    blocks: &[u32],
    table: &[u64],
) -> Result<u64, Refusal>
    ensures { let x = mem pages.now rows.now blocks.now table.now in Answers x chunk_count (many result) }
{
    if !entries::are(table) {
        return Err(Refusal::NotLaidOut);
    }
    let n = entries::number(table);
    let mut chunks: u64 = 0;
    let mut e: u64 = 0;
    while e < n {
        chunks += (entry::word_by(table, e) != 0) as u64;
        e = entries::next_used(table, e + 1, n);
    }
    Ok(chunks)
}
