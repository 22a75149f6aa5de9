// Calls that answer a word or a number, each by its verb.
use exports::{change, read, union};
use lines::words;
use replies::memory::Pools;
use replies::told::Told;
use replies::verb;
use replies::verb::{Ask, Change, Join};

// What changes a set: by an id, word 2, but for those that change its form.
pub fn change(v: Change, line: &[u8], set: &mut Pools) -> Told {
    let Pools {
        pages,
        rows,
        blocks,
        table,
        ..
    } = set;
    let id = words::id_or(line, 2, 0);
    match v {
        Change::SetUp => {
            let [s, m, d, v, r, p] = verb::numbers(line);
            Told::from(change::bp_set_up(s, m, d, v, r, p, pages, rows, blocks, table))
        }
        Change::Set => Told::from(change::bp_set(pages, rows, blocks, table, id)),
        Change::New => Told::from(change::bp_set_if_new(pages, rows, blocks, table, id)),
        Change::Put => Told::from(change::bp_set_prepared(pages, rows, blocks, table, id)),
        Change::Prepare => Told::from(change::bp_pre_allocate(pages, rows, blocks, table, id)),
        Change::RankUp => Told::from(change::bp_into_ranked(pages, rows, blocks, table)),
        Change::Open => Told::from(change::bp_into_open(pages, rows, blocks, table)),
    }
}

// What asks of one: of an id, word 2, or of all.
pub fn ask(v: Ask, line: &[u8], set: &Pools) -> Told {
    let Pools {
        pages,
        rows,
        blocks,
        table,
        ..
    } = set;
    let id = words::id_or(line, 2, 0);
    match v {
        Ask::Get => Told::from(read::bp_get(pages, rows, blocks, table, id)),
        Ask::Any => {
            let max = words::id_or(line, 3, 0);
            Told::from(read::bp_any_in_range(pages, rows, blocks, table, id, max))
        }
        Ask::Len => Told::from(read::bp_len(pages, rows, blocks, table)),
        Ask::Chunks => Told::from(read::bp_allocated_chunk_count(pages, rows, blocks, table)),
        Ask::Empty => Told::from(read::bp_is_empty(pages, rows, blocks, table)),
        Ask::Has => Told::from(read::bp_has_any(pages, rows, blocks, table)),
        Ask::Chunk => Told::from(read::bp_chunk_of(pages, rows, blocks, table, id)),
        Ask::Rank => Told::from(read::bp_rank(pages, rows, blocks, table, id)),
        Ask::RankIf => Told::from(read::bp_rank_if_set(pages, rows, blocks, table, id)),
        Ask::Total => Told::from(read::bp_total_count(pages, rows, blocks, table)),
    }
}

// `from K J` and `merge K J`
pub fn join(v: Join, set: &mut Pools, other: &mut Pools) -> Told {
    let Pools {
        pages,
        rows,
        blocks,
        table,
        ..
    } = set;
    Told::from(match v {
        Join::From => union::bp_merge_from(
            pages,
            rows,
            blocks,
            table,
            &other.pages,
            &other.rows,
            &other.blocks,
            &other.table,
        ),
        Join::Merge => union::bp_merge(
            pages,
            rows,
            blocks,
            table,
            &mut other.pages,
            &mut other.rows,
            &mut other.blocks,
            &mut other.table,
        ),
    })
}
