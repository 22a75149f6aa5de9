// A set's memory: made by hand by `poke`, seen by `dump`.
use crate::say::Id;
use crate::told::Told;
use lines::words;
use std::fmt::Display;
use std::io;
use std::io::{Stdout, Write};

// A set's pools, and boundaries.
#[derive(Drop)]
pub struct Pools {
    pub pages: [u64; 8192],
    pub rows: [u32; 4096],
    pub blocks: [u32; 1024],
    pub table: [u64; 1024],
    pub bounds: [i64; 256],
}

// One element, where it is in the pool and the value fits.
fn put<T: Copy>(pool: &mut [T], i: usize, v: Option<T>) -> Told {
    match (pool.get_mut(i), v) {
        (Some(place), Some(v)) => {
            *place = v;
            Told::Done
        }
        _ => Told::NoCall,
    }
}

// Each element that is not 0, as `p7=12`, with a space before it but for the first of a line. Answers what stands before the next.
fn elements<T: Copy + Default + PartialEq + Display>(
    out: &mut Stdout,
    mut before: &'static str,
    name: char,
    pool: &[T],
) -> io::Result<&'static str> {
    for (i, v) in pool.iter().enumerate() {
        if *v != T::default() {
            write!(out, "{before}{name}{i}={v}")?;
            before = " ";
        }
    }
    Ok(before)
}

// The same of boundaries, which are ids.
fn ids(out: &mut Stdout, mut before: &'static str, name: char, pool: &[i64]) -> io::Result<()> {
    for (i, z) in pool.iter().enumerate() {
        if *z != 0 {
            write!(out, "{before}{name}{i}={}", Id(*z))?;
            before = " ";
        }
    }
    Ok(())
}

impl Pools {
    // All zero.
    pub fn new() -> Pools {
        Pools {
            pages: [0; 8192],
            rows: [0; 4096],
            blocks: [0; 1024],
            table: [0; 1024],
            bounds: [0; 256],
        }
    }

    // `poke K slice index value`
    pub fn poke(&mut self, line: &[u8]) -> Told {
        let i = words::number_or(line, 3, 0) as usize;
        let v = words::number_or(line, 4, 0);
        match words::number_or(line, 2, 0) {
            0 => put(&mut self.pages, i, Some(v)),
            1 => put(&mut self.rows, i, u32::try_from(v).ok()),
            2 => put(&mut self.blocks, i, u32::try_from(v).ok()),
            3 => put(&mut self.table, i, Some(v)),
            _ => Told::NoCall,
        }
    }

    // `dump K`
    pub fn dump(&self, out: &mut Stdout) -> io::Result<()> {
        let before = elements(out, "", 'p', &self.pages)?;
        let before = elements(out, before, 'r', &self.rows)?;
        let before = elements(out, before, 'b', &self.blocks)?;
        let before = elements(out, before, 't', &self.table)?;
        ids(out, before, 'c', &self.bounds)?;
        writeln!(out)
    }
}
