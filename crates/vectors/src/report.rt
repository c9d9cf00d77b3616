// What is printed: differences as they are found, and the counts in the end.
use crate::table::{
    COMBINED, CURRENT, DAMAGED, DIFFERENCES, ENDS, HONEST, MESSAGES, Table, UNCOMBINED,
};
use std::io;

// ---- differences

// What differs, a bit each: a comparison adds its bit where it fails.
pub const RECORD: u64 = 1;

pub const LIST_LENGTH: u64 = 2;

pub const LIST_MARK: u64 = 4;

pub const ROUNDS_LEFT: u64 = 8;

pub const SESSION: u64 = 16;

pub const ROUND_DUE: u64 = 32;

pub const WRITTEN: u64 = 64;

pub const NOTHING_WRITTEN: u64 = 128;

pub const NUMBER: u64 = 256;

pub const ROUND: u64 = 512;

pub const PARTY: u64 = 1024;

pub const REFUSED_WROTE: u64 = 2048;

pub const WORK_AREA: u64 = 4096;

pub const AFTER: u64 = 8192;

pub const AFTER_PARTY: u64 = 16384;

pub const AFTER_SESSION: u64 = 32768;

pub const AFTER_DUE: u64 = 65536;

pub(crate) fn unless(good: bool, bit: u64, bad: u64) -> u64 {
    if good { bad } else { bad | bit }
}

const MEANINGS: [(u64, &str); 17] = [
    (RECORD, "record"),
    (LIST_LENGTH, "length of the list"),
    (LIST_MARK, "mark of the list"),
    (ROUNDS_LEFT, "rounds left"),
    (SESSION, "session"),
    (ROUND_DUE, "round due"),
    (WRITTEN, "what was written"),
    (NOTHING_WRITTEN, "something written"),
    (NUMBER, "number"),
    (ROUND, "round"),
    (PARTY, "party"),
    (REFUSED_WROTE, "a refused call wrote"),
    (WORK_AREA, "work area not zero"),
    (AFTER, "not 20 after the end"),
    (AFTER_PARTY, "20 names another"),
    (AFTER_SESSION, "session after the end"),
    (AFTER_DUE, "a round is due after the end"),
];

// Counts the differences, and says which: box i, by the call for round k.
pub(crate) fn note(rt: &impl Print, t: &mut Table, i: usize, k: usize, bad: u64) -> io::Result<()> {
    for (bit, meaning) in MEANINGS {
        if bad & bit != 0 {
            crate::table::count(t, DIFFERENCES, 1);
            let current = crate::table::length(t, CURRENT);
            println!(rt; "difference in {current}, party {i}, round {k}: {meaning}")?;
        }
    }
    Ok(())
}

// ---- the end

// How many boxes ended by each number, and the other counts.
pub(crate) fn report(rt: &impl Print, t: &Table) -> io::Result<()> {
    println!(rt; "honest sessions {}", crate::table::length(t, HONEST))?;
    println!(rt; "damaged sessions {}", crate::table::length(t, DAMAGED))?;
    println!(rt; "messages {}", crate::table::length(t, MESSAGES))?;
    println!(rt; "results {}", crate::table::length(t, ENDS))?;
    for k in 1..256 {
        let x = crate::table::length(t, ENDS + 16 * k);
        if x != 0 {
            println!(rt; "refused by {k}: {x}")?;
        }
    }
    println!(rt; "combined {}", crate::table::length(t, COMBINED))?;
    println!(rt; "not combined {}", crate::table::length(t, UNCOMBINED))?;
    println!(rt; "differences {}", crate::table::length(t, DIFFERENCES))
}
