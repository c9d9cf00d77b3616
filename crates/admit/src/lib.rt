// What a round call refuses before it looks at what was received (document 01, "Round call: 20, 19, 17, 18"; 18 no longer occurs since 02,
// order 6): it leaves everything as it was. 14, 13, 21 and 6: crate form. The definitions are those of crates/engine (Step, Plain) over the
// table of crates/rounds. Nothing here is secret. A host may lend anything: every number is taken as it comes, and no sum wraps.
#![tactic(auto)]

ghost use Rattle.std.specs.Prelude.{◌≡◌, true, ◌&&◌, [], ℕ, ◌<◌, ◌≤◌, length, eqb};
ghost use Rattle.refusals.specs.Reason.{code_of};
ghost use Rattle.plan.specs.Plan.{InRange};
ghost use Rattle.engine.specs.Step.{frame, parts_in, reason_of};
ghost use Rattle.engine.specs.Plain.{protocol_of, lent_of};
ghost use Rattle.rounds.specs.Fabitn.{r_fits};
ghost use Rattle.rounds.specs.Table as T;
ghost use Rattle.rounds.specs.Table.{table};
ghost use Rattle.admit.specs.Admit.{loan, given, lengths_fit, fits};

use engine::{Frame, Session};
use refusals::Reason;

// ---- 20

// n, i and l are in opening's ranges.
fn fine(n: usize, i: usize, l: usize) -> bool
    ensures { result ≡ T.fine (frame n l i) }
{
    (2 <= n) & (n <= 8) & (i < n) & (1 <= l) & (l <= 300000)
}

// The session is neither done nor ended, and opening can have made it.
pub fn alive(s: Session) -> bool
    ensures { result ≡ (protocol_of table).alive s }
{
    let Frame { n, i, l } = s.party;
    fine(n, i, l) & batches::are_whole(l, s.counts) & plan::is_round(n, s.due)
}

// ---- 17 of what is lent

// r is as long as all strings, or a seed.
fn r_fits(r: usize, l: usize) -> bool
    requires { l ≤ 300000 }
    ensures { result ≡ r_fits l r }
{
    (r == plan::r_len(l)) | draw::is_seed(r)
}

// The r Blocks that are lent with the call for round k are as many as are due. They are due by the round that it writes.
pub fn lent(k: usize, n: usize, l: usize, r: &[u8]) -> Result<(), Reason>
    requires { InRange n l }
    ensures { code_of result ≡ lent_of table k n l (loan r.now) }
{
    let due = if plan::next_round(n, k) == plan::FABITN {
        r_fits(r.len(), l)
    } else {
        r.len() == 0
    };
    if due {
        Ok(())
    } else {
        Err(Reason::WrongBuffer)
    }
}

// ---- 17 of the buffers

// The lengths of work area, outgoing buffer, starts, lens and missing are those due.
fn lengths(
    n: usize,
    l: usize,
    k: usize,
    work: usize,
    out: usize,
    starts: usize,
    lens: usize,
    missing: usize,
) -> bool
    requires { InRange n l }
    ensures { result ≡ lengths_fit n l k work out starts lens missing }
{
    let work_due = area::work_len(n, l);
    let out_due = plan::out_len(n, l, k);
    (work == work_due) & (out == out_due) & (starts == n) & (lens == n) & (missing == n)
}

// Party k's message lies inside the incoming buffer, or is missing, or k is the own number.
fn part_in(
    incoming: &[u8],
    starts: &[usize],
    lens: &[usize],
    missing: &[u8],
    i: usize,
    k: usize,
) -> bool
    requires { (k < length starts.now) × (k < length lens.now) × (k < length missing.now) }
    ensures { result ≡ fits i (given incoming.now starts.now lens.now missing.now [] []) k }
{
    if k == i {
        return true;
    }
    if missing[k] != 0 {
        return true;
    }
    message::inside(incoming.len(), starts[k], lens[k])
}

// So do all.
fn parts_in(
    incoming: &[u8],
    starts: &[usize],
    lens: &[usize],
    missing: &[u8],
    n: usize,
    i: usize,
) -> bool
    requires { (length starts.now ≡ n) × (length lens.now ≡ n) × (length missing.now ≡ n) }
    ensures { (l : ℕ) → result ≡ parts_in (frame n l i) (given incoming.now starts.now lens.now missing.now [] []) }
{
    lists::all_of(n, |k| part_in(incoming, starts, lens, missing, i, k))
}

// ---- the call

// The first reason to refuse the call for round k.
pub fn check(
    s: Session,
    k: usize,
    incoming: &[u8],
    starts: &[usize],
    lens: &[usize],
    missing: &[u8],
    r: &[u8],
    work: &[u8],
    out: &[u8],
) -> Result<(), Reason>
    ensures { code_of result ≡ reason_of (protocol_of table) s k
        (given incoming.now starts.now lens.now missing.now r.now out.now)
        work.now }
{
    let Frame { n, i, l } = s.party;
    if !alive(s) {
        return Err(Reason::NoSession);
    }
    if k != s.due {
        return Err(Reason::WrongRound);
    }
    if !lengths(
        n,
        l,
        k,
        work.len(),
        out.len(),
        starts.len(),
        lens.len(),
        missing.len(),
    ) {
        return Err(Reason::WrongBuffer);
    }
    if !parts_in(incoming, starts, lens, missing, n, i) {
        return Err(Reason::WrongBuffer);
    }
    lent(k, n, l, r)
}
