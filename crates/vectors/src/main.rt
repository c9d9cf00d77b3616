// Replays recorded answers of the Rust, and those of document 02 that it has none of (docs/VECTORS.md has the format and how they were
// made), through `opening::open`, `session::round` and `combine::combine`: every message, result and refusal, and the state after. Prints
// how many were compared, and a line for each difference.
#![tactic(auto)]

ghost use Rattle.std.specs.Prelude.{◌≤◌, length, IfOk};

use block::Block;
use report::{LIST_LENGTH, LIST_MARK, RECORD};
use std::fs::File;
use std::io;
use std::io::Read;
use std::rt::Files;
use table::{CURRENT, DAMAGED, DUE, HONEST, LIST, TABLE_LEN, Table};
use turns::Works;

mod boxes;
mod combining;
mod record;
mod report;
mod table;
mod turns;

// The lists' marks, NZVECT04 and NZCOMB03, low byte first.
const SESSIONS: u64 = 0x3430544345565a4e;

const COMBININGS: u64 = 0x3330424d4f435a4e;

// Reads until s is full or the input ends. Answers how many bytes it put at the start of s.
fn read_full(input: &mut impl Read, s: &mut [u8]) -> io::Result<usize>
    ensures { IfOk result (λ n. n ≤ length s.new) }
{
    let mut done = 0;
    while done < s.len() {
        let n = input.read(&mut s[done..])?;
        if n == 0 {
            break;
        }
        done += n;
    }
    Ok(done)
}

// Reads a list into the table, from `from` on. Answers where it ends; of a file that can't be opened it says why, and answers 0.
fn read(rt: &(impl Files + Eprint), t: &mut [u8], from: usize, name: &str) -> io::Result<usize> {
    let mut file = match File::open(rt, name) {
        Ok(file) => file,
        Err(error) => {
            eprintln!(rt; "{name}: {error}")?;
            return Ok(0);
        }
    };
    if t.len() < from {
        return Ok(0);
    }
    let n = read_full(&mut file, &mut t[from..])?;
    Ok(table::sum(from, n))
}

// Whether a list has its mark, and ends where it should.
fn note_list(rt: &impl Print, t: &mut Table, mark: u64, good: bool) -> io::Result<()> {
    let x = report::unless(table::word(t, LIST) == mark, LIST_MARK, 0);
    report::note(rt, t, 0, 0, report::unless(good, LIST_LENGTH, x))
}

// The session whose record starts at `at` and ends at `end`.
fn replay(
    rt: &impl Print,
    t: &mut Table,
    works: &mut Works,
    at: usize,
    end: usize,
) -> io::Result<()>
    requires { at ≤ 2000000000 }
{
    let p = record::parse(t, at);
    let l = p.l;
    let good = (p.leaky == table::product(l, plan::bucket_size(l)))
        & (table::sum(p.ends, table::product(4, p.n)) == end);
    report::note(rt, t, 0, 0, report::unless(good, RECORD, 0))?;
    let place = if p.rules == p.hashes { HONEST } else { DAMAGED };
    table::count(t, place, 1);
    table::put_block(t, DUE, Block(0, 0));
    record::strings(t, p.seed);
    turns::all(rt, t, works, p)
}

fn replay_all(rt: &impl Print, t: &mut Table, works: &mut Works, end: usize) -> io::Result<()> {
    let count = table::length(t, LIST + 8);
    let mut at = LIST + 16;
    for q in 0..count {
        table::put_block(t, CURRENT, Block(q as u64, 0));
        let next = table::sum(at, table::length(t, at));
        replay(rt, t, works, at, next)?;
        at = next;
    }
    note_list(rt, t, SESSIONS, (at == end) & (0 < count))
}

fn sessions(rt: &(impl Files + Print + Eprint), t: &mut Table) -> io::Result<()> {
    let mut works = [0u8; 1500000];
    let end = read(rt, t, LIST, "sessions")?;
    replay_all(rt, t, &mut works, end)
}

fn combinings(rt: &(impl Files + Print + Eprint), t: &mut Table) -> io::Result<()> {
    let end = read(rt, t, LIST, "combine")?;
    let count = table::length(t, LIST + 8);
    let mut at = LIST + 16;
    for q in 0..count {
        table::put_block(t, CURRENT, Block(q as u64, 0));
        combining::replay(rt, t, at)?;
        at = table::sum(at, 48);
    }
    note_list(rt, t, COMBININGS, (at == end) & (0 < count))
}

fn main(rt: HostRuntime) -> io::Result<()> {
    let mut t = [0u8; TABLE_LEN];
    sessions(&rt, &mut t)?;
    combinings(&rt, &mut t)?;
    report::report(&rt, &t)
}
