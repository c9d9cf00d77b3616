// The turns of a session: the calls of all boxes for a round, against the record.
ghost use Rattle.std.specs.Prelude.{◌<◌};

use crate::boxes::{MARK, Mail, Reply, Turn};
use crate::record::Play;
use crate::report::{
    AFTER, AFTER_DUE, AFTER_PARTY, AFTER_SESSION, NOTHING_WRITTEN, NUMBER, PARTY, REFUSED_WROTE,
    ROUND, ROUND_DUE, ROUNDS_LEFT, SESSION, WORK_AREA, WRITTEN,
};
use crate::table::{DUE, ENDS, MESSAGES, OTHER_OUT, OUT, OUT_LEN, REFUSED, Table};
use std::io;

// The work areas, WORK_LEN bytes for each box.
pub type Works = [u8; 1500000];

const WORK_LEN: usize = 187500;

// An end by the call for round k, against the word of the recorded one.
fn recorded(a: Reply, k: usize, w: u64) -> u64 {
    let (number, party) = crate::boxes::recorded(a.refusal);
    let x = crate::report::unless(crate::table::field(w, 0) == number, NUMBER, 0);
    let y = crate::report::unless(crate::table::field(w, 1) == k, ROUND, x);
    crate::report::unless(crate::table::field(w, 2) == party, PARTY, y)
}

// The answer of box i to the call after the end.
fn after(b: Reply, i: usize) -> u64 {
    let (number, party) = crate::boxes::recorded(b.refusal);
    let x = crate::report::unless(number == 20, AFTER, 0);
    let y = crate::report::unless(party == i, AFTER_PARTY, x);
    let z = crate::report::unless(b.same, AFTER_SESSION, y);
    crate::report::unless(b.due == 0, AFTER_DUE, z)
}

// What stands in the outgoing buffer, with its hash recorded at `at`: what was written, or what was there before a refused call.
pub(crate) fn written(t: &Table, at: usize, refused: bool, out: &[u8]) -> u64 {
    if !refused {
        return crate::report::unless(crate::table::stands(t, at, out), WRITTEN, 0);
    }
    let x = crate::report::unless(crate::table::only(out, MARK), REFUSED_WROTE, 0);
    crate::report::unless(crate::table::none(t, at), NOTHING_WRITTEN, x)
}

// Once box i has ended: the work area, and the same call again.
fn left(
    t: &Table,
    p: Play,
    k: usize,
    i: usize,
    ended: bool,
    mail: Mail,
    work: &mut [u8],
    out: &mut [u8],
) -> u64 {
    if !ended {
        return 0;
    }
    let x = crate::report::unless(crate::table::only(work, 0), WORK_AREA, 0);
    let b = crate::boxes::call(t, p, k, i, 0, mail, work, out);
    crate::report::unless(crate::table::only(work, 0), WORK_AREA, x | after(b, i))
}

// What box i answered in a turn, against the record, and into the log.
fn noted(t: &mut Table, p: Play, r: Turn, i: usize, a: Reply) -> u64
    requires { (i < 8) × (i < p.n) }
{
    let next = if a.refusal.is_none() { r.next } else { 0 };
    crate::table::put(t, DUE + i, crate::table::small(a.due));
    let x = crate::report::unless(a.same, SESSION, 0);
    let y = crate::report::unless(a.due == next, ROUND_DUE, x);
    if next != 0 {
        crate::table::count(t, MESSAGES, p.n - 1);
        return y;
    }
    let k = r.k;
    crate::table::put(t, REFUSED + i, crate::table::small(k));
    let (number, _) = crate::boxes::recorded(a.refusal);
    let place = crate::table::sum(ENDS, crate::table::product(16, number));
    crate::table::count(t, place, 1);
    let w = crate::table::word(t, crate::table::sum(p.ends, 4 * i));
    y | recorded(a, k, w)
}

// Box i's calls in a turn: the bits of what differs.
fn differs(t: &mut Table, p: Play, r: Turn, i: usize, work: &mut [u8], out: &mut [u8]) -> u64
    requires { (i < 8) × (i < p.n) }
{
    let k = r.k;
    let room = OUT_LEN * i;
    let hash = crate::table::sum(r.hashes, 32 * i);
    let due = crate::table::get(t, DUE + i) as usize;
    let mail = crate::boxes::delivered(t, p, r, i);
    let a = crate::boxes::call(t, p, k, i, due, mail, work, out);
    let x = noted(t, p, r, i, a);
    let ended = a.refusal.is_some() || r.next == 0;
    let y = left(t, p, k, i, ended, mail, work, out);
    crate::table::store(t, crate::table::sum(r.to, room), out);
    x | y | written(t, hash, a.refusal.is_some(), out)
}

// The same, with the box's part of the work areas and an outgoing buffer.
fn at_work(t: &mut Table, works: &mut [u8], p: Play, r: Turn, i: usize) -> u64
    requires { (i < 8) × (i < p.n) }
{
    let n = p.n;
    let l = p.l;
    let o = plan::out_len(n, l, r.k).min(OUT_LEN);
    let a = WORK_LEN * i;
    let e = a + area::work_len(n, l).min(WORK_LEN);
    if works.len() < e {
        return WORK_AREA;
    }
    let mut out = [MARK; 35000];
    differs(t, p, r, i, &mut works[a..e], &mut out[0..o])
}

// Box i's turn, unless it refused before.
fn one(
    rt: &impl Print,
    t: &mut Table,
    works: &mut [u8],
    p: Play,
    r: Turn,
    i: usize,
) -> io::Result<()>
    requires { (i < 8) × (i < p.n) }
{
    let k = r.k;
    if crate::table::get(t, REFUSED + i) != 0 {
        let good = crate::table::none(t, crate::table::sum(r.hashes, 32 * i));
        return crate::report::note(rt, t, i, k, crate::report::unless(good, NOTHING_WRITTEN, 0));
    }
    if k == 0 {
        crate::record::inputs(t, p, i);
    }
    let bad = at_work(t, works, p, r, i);
    crate::report::note(rt, t, i, k, bad)
}

fn take_turn(
    rt: &impl Print,
    t: &mut Table,
    works: &mut Works,
    p: Play,
    r: Turn,
) -> io::Result<()> {
    for i in 0..p.n.min(8) {
        one(rt, t, works, p, r, i)?;
    }
    Ok(())
}

// The turn behind r.
fn following(p: Play, r: Turn) -> Turn {
    let n = p.n;
    let k = r.next;
    let len = plan::out_len(n, p.l, r.k);
    Turn {
        k,
        next: plan::next_round(n, k),
        len: if n < 2 { 0 } else { len / (n - 1) },
        from: r.to,
        to: r.from,
        hashes: crate::table::sum(r.hashes, crate::table::product(32, n)),
    }
}

// All turns in order, and what is left of the rounds in the end.
pub(crate) fn all(rt: &impl Print, t: &mut Table, works: &mut Works, p: Play) -> io::Result<()> {
    let mut r = Turn {
        k: 0,
        next: 1,
        len: 0,
        from: OTHER_OUT,
        to: OUT,
        hashes: p.hashes,
    };
    for _ in 0..23 {
        if r.hashes < p.ends {
            take_turn(rt, t, works, p, r)?;
            r = following(p, r);
        }
    }
    let good = (r.k == 0) & (r.hashes == p.ends);
    crate::report::note(rt, t, 0, 0, crate::report::unless(good, ROUNDS_LEFT, 0))
}
