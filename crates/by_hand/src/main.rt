// The limits of document 01, "Checked by hand", through the public calls. "300,001 is 16" and 9 "is 15". With l = 300,000 and no share
// lists the reason is another, 6: the limit lets it pass; host/large runs such a session. The limits of document 02, order 7, likewise, in
// their order: 15, 23, 16, 3. A session of 8 is opened and called: the echo among 8 has 112 bytes, and counts that opening can't have made
// are 20. (The program `sizes` has the lengths by plan, `sessions` those of sessions of 2 and 3; `cases` the starred ones.)
#![tactic(auto)]

use engine::{Answer, Session, Verdict};
use std::io;

// The bytes of a work area of 8 boxes for one AND, and of a record among 8.
const WORK_LEN: usize = 131906;

const RECORD_LEN: usize = 288;

// What was asked, and the number that came.
fn line(rt: &impl Print, what: &str, number: u8) -> io::Result<()> {
    println!(rt; "{what}: {number}")
}

// 0 for accepted.
fn number(v: Verdict) -> u8 {
    match v {
        Ok(()) => 0,
        Err(refusal) => refusal.reason.number(),
    }
}

// Opening with nothing lent but counts: the first number that n and they give, or 6 for the share lists behind them.
fn bare(rt: &impl Print, what: &str, n: usize, counts: &[u32]) -> io::Result<()> {
    let none = [0u8; 1];
    let mut work = [0u8; 1];
    let mut out = [0u8; 1];
    let a = opening::open(
        n, 0, counts, &none, &none, &none, &none, &none, &none, &none, &mut work, &mut out,
    );
    line(rt, what, number(a.verdict))
}

// A list of box 0's records, zero but for their heads.
fn zeros<const N: usize>() -> [u8; N] {
    let mut list = [0; N];
    let (records, _) = list.as_chunks_mut::<RECORD_LEN>();
    for record in records {
        share::put_lent_head(record, 8, 0, false);
    }
    list
}

// Opening of 8 boxes for one AND, all inputs zero but the records' heads.
fn open_eight(work: &mut [u8; WORK_LEN]) -> Answer {
    let shares: [u8; 288] = zeros();
    opening::open(
        8,
        0,
        &[1],
        &[0; 16],
        &[0; 32],
        &[0; 256],
        &zeros::<50400>(),
        &shares,
        &shares,
        &[0; 40],
        work,
        &mut [0; 280],
    )
}

// The call for round 1 among 8, with a commitment of each; the outgoing buffer is for seven echoes.
fn echo(
    rt: &impl Print,
    what: &str,
    s: Session,
    work: &mut [u8; WORK_LEN],
    out: &mut [u8],
) -> io::Result<()> {
    let mut incoming = [0; 40];
    incoming[0] = 1;
    let a = session::round(s, 1, &incoming, &[0; 8], &[40; 8], &[0; 8], &[], work, out);
    line(rt, what, number(a.verdict))
}

// A session of 8 with one AND, and the same with other counts, which is called with an outgoing buffer as it is due.
fn eight(rt: &impl Print) -> io::Result<()> {
    let mut work = [0; WORK_LEN];
    let a = open_eight(&mut work);
    line(rt, "8 boxes, 1 result", number(a.verdict))?;
    let s = a.session;
    let mut long = [0; 791];
    echo(rt, "echoes of 113 bytes among 8", s, &mut work, &mut long)?;
    let mut out = [0; 784];
    let forged = [
        ("no batch in the session", 0, 0),
        ("batches of 2 for 1 result", 2, 0),
        ("batches of 1 and 1 for 1 result", 1, 1),
        ("batches of 0 and 1 for 1 result", 0, 1),
    ];
    for (what, first, second) in forged {
        let mut counts = [0; 16];
        counts[0] = first;
        counts[1] = second;
        echo(rt, what, Session { counts, ..s }, &mut work, &mut out)?;
    }
    echo(rt, "echoes of 112 bytes among 8", s, &mut work, &mut out)
}

// How many batches there may be, and that 15 comes before it.
fn batches(rt: &impl Print) -> io::Result<()> {
    bare(rt, "no batch", 2, &[])?;
    bare(rt, "16 batches, no share lists", 2, &[18750; 16])?;
    bare(rt, "17 batches", 2, &[1; 17])?;
    bare(rt, "17 batches of 300000", 2, &[300000; 17])?;
    bare(rt, "9 boxes, no batch", 9, &[])?;
    bare(rt, "9 boxes, 17 batches", 9, &[1; 17])
}

// Their sum, and batches of 0.
fn sums(rt: &impl Print) -> io::Result<()> {
    bare(rt, "299999 and 1, no share lists", 2, &[299999, 1])?;
    bare(rt, "299999 and 2", 2, &[299999, 2])?;
    bare(rt, "4294967295 and 2", 2, &[u32::MAX, 2])?;
    bare(rt, "16 of 4294967295", 2, &[u32::MAX; 16])?;
    bare(rt, "0", 2, &[0])?;
    bare(rt, "0 and 1", 2, &[0, 1])?;
    bare(rt, "300000 and 0", 2, &[300000, 0])?;
    bare(rt, "300001 and 0", 2, &[300001, 0])?;
    bare(rt, "9 boxes, 300001 and 0", 9, &[300001, 0])
}

fn main(rt: HostRuntime) -> io::Result<()> {
    bare(&rt, "300000 results, no share lists", 2, &[300000])?;
    bare(&rt, "300001 results", 2, &[300001])?;
    bare(&rt, "8 boxes, no share lists", 8, &[1])?;
    bare(&rt, "9 boxes", 9, &[1])?;
    batches(&rt)?;
    sums(&rt)?;
    eight(&rt)
}
