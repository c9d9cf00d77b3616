// Whole sessions in memory, of 2 and 3 boxes, through the public calls `opening::open` and `session::round`, round by round in lockstep:
// what each box sent (its length, and the first bytes of its BLAKE3), what the results are worth, and how boxes refuse when a bit is
// flipped on the way. Then sessions whose boxes have their results in batches, each by a list of its own (document 02, order 7), against
// the same in one batch. The inputs are those of `oracle gen N L 32`, so the Rust of oracle/ can be held against every line but those of
// round 11 (it doesn't open the third commitment), and of batches.
#![tactic(auto)]

ghost use Rattle.std.specs.Prelude.{◌≤◌, ◌<◌, IfOk};

use boxes::To::{Both, One};
use boxes::{Flip, Play, To, WORK_LEN, Works};
use std::io;
use table::Table;

mod boxes;
mod deal;
mod report;
mod table;

// Whether the rounds are printed.
#[derive(Clone, Copy, PartialEq, Eq)]
enum Rounds {
    Shown,
    Hidden,
}

// Round k: what the boxes wrote is sent, and each is called. Answers how many bytes a box sent, which had sent `sum` before.
// Where printing fails it hands the error on, and says nothing of t and works.
fn turn(
    rt: &impl Print,
    t: &mut Table,
    works: &mut Works,
    p: &Play,
    rounds: Rounds,
    k: usize,
    sum: usize,
) -> io::Result<usize>
    ensures { IfOk result (λ len. len ≤ 7696) }
{
    let n = p.n;
    let len = boxes::sent_len(p, k);
    boxes::send_all(t, n, sum, len);
    if rounds == Rounds::Shown {
        report::round(rt, t, n, len, k)?;
    }
    boxes::call_all(t, works, p, k);
    Ok(len)
}

// All calls of a session, and the table after it. Answers how many bytes a box sent in all.
fn play(
    rt: &impl Print,
    t: &mut Table,
    works: &mut Works,
    p: &Play,
    rounds: Rounds,
) -> io::Result<usize> {
    deal::inputs(t, p);
    boxes::call_all(t, works, p, 0);
    let mut sum = 0;
    for k in 1..=plan::FAAND {
        if plan::is_round(p.n, k) {
            sum += turn(rt, t, works, p, rounds, k, sum)?;
        }
    }
    Ok(sum)
}

// Results, what a box sent, the work areas, how the boxes ended, and how they answer a call behind the last.
fn whole(rt: &impl Print, n: usize, l: usize) -> io::Result<()>
    requires { (n ≤ 3) × (l ≤ 16) }
{
    println!(rt; "parties {n}, results {l}")?;
    let counts = [l as u32];
    let p = Play {
        n,
        l,
        batches: [&counts; 3],
        flip: None,
    };
    let mut t = Table::new();
    let mut works = [[0xa5; WORK_LEN]; 3];
    let sum = play(rt, &mut t, &mut works, &p, Rounds::Shown)?;
    report::results(rt, &t, &p)?;
    report::left(rt, &t.rooms[..n], sum)?;
    report::ends(rt, &t.rooms[..n])?;
    println!(rt; "a call for round 22 behind it")?;
    boxes::call_all(&mut t, &mut works, &p, plan::FAAND);
    report::ends(rt, &t.rooms[..n])
}

// The session of 3 with a bit flipped: how the boxes ended.
fn flipped(rt: &impl Print, round: usize, from: usize, to: To, at: usize) -> io::Result<()>
    requires { (from < 3) × (at < 3848) }
{
    let flip = Flip {
        round,
        from,
        to,
        at,
    };
    println!(rt; "{flip}")?;
    let p = Play {
        n: 3,
        l: 2,
        batches: [&[2]; 3],
        flip: Some(flip),
    };
    let mut t = Table::new();
    let mut works = [[0xa5; WORK_LEN]; 3];
    play(rt, &mut t, &mut works, &p, Rounds::Hidden)?;
    report::ends(rt, &t.rooms)
}

// A session in batches, against the same in one.
fn batched(rt: &impl Print, n: usize, l: usize, batches: [&[u32]; 3]) -> io::Result<()>
    requires { (n ≤ 3) × (l ≤ 16) }
{
    let counts = [l as u32];
    let one = Play {
        n,
        l,
        batches: [&counts; 3],
        flip: None,
    };
    let p = Play {
        n,
        l,
        batches,
        flip: None,
    };
    let mut t = Table::new();
    let mut u = Table::new();
    let mut works = [[0xa5; WORK_LEN]; 3];
    play(rt, &mut t, &mut works, &one, Rounds::Hidden)?;
    let sum = play(rt, &mut u, &mut works, &p, Rounds::Hidden)?;
    report::lists(rt, &p)?;
    report::batched(rt, &t, &u, &p, sum)?;
    report::told(rt, &u.rooms[..n])?;
    boxes::call_all(&mut u, &mut works, &p, plan::FAAND);
    report::quiet(rt, &u.rooms[..n])
}

fn main(rt: HostRuntime) -> io::Result<()> {
    whole(&rt, 2, 1)?;
    whole(&rt, 3, 2)?;
    flipped(&rt, 1, 1, One(0), 8)?;
    flipped(&rt, 1, 1, Both, 8)?;
    flipped(&rt, 6, 1, One(0), 8)?;
    flipped(&rt, 6, 1, Both, 8)?;
    flipped(&rt, 6, 1, One(0), 9)?;
    flipped(&rt, 8, 1, Both, 72)?;
    flipped(&rt, 10, 2, One(0), 17)?;
    flipped(&rt, 10, 2, Both, 17)?;
    flipped(&rt, 12, 0, One(1), 8)?;
    flipped(&rt, 12, 0, Both, 8)?;
    flipped(&rt, 19, 2, One(1), 8)?;
    flipped(&rt, 19, 2, Both, 8)?;
    flipped(&rt, 21, 0, One(2), 16)?;
    flipped(&rt, 22, 1, One(2), 8)?;
    batched(&rt, 2, 16, [&[1; 16], &[7, 9], &[]])?;
    batched(&rt, 3, 6, [&[1, 2, 3], &[6], &[2, 2, 2]])
}
