// Combinings, one by one, against the recorded ones.
ghost use Rattle.std.specs.Prelude.{◌≤◌};

use crate::boxes::MARK;
use crate::report::{NUMBER, PARTY};
use crate::table::{COMBINED, INPUTS, Table, UNCOMBINED};
use std::io;

// Where the d bytes lie; the triples lie where a box's inputs do.
const DS: usize = 80000;

// The most that combining writes: three records among eight boxes.
const RESULT_LEN: usize = 864;

fn put_ds(t: &mut Table, seed: u64, i: usize, count: usize)
    requires { count ≤ 255 }
{
    for q in 0..count {
        crate::table::put(t, DS + q, crate::record::draw_bit(seed, 9, i, 0, q + 1));
    }
}

// The call whose record starts with word w and has its hash at `at`: the bits of what differs.
fn differs(t: &Table, w: u64, at: usize, out: &mut [u8]) -> u64 {
    let i = crate::table::field(w, 1);
    let count = crate::table::field(w, 2);
    let len = crate::table::product(count, out.len());
    let ds = count.saturating_sub(1);
    let v = combine::combine(
        crate::table::field(w, 0),
        i,
        count,
        crate::table::part(t, INPUTS, len),
        crate::table::part(t, DS, ds),
        out,
    );
    let refusal = crate::boxes::refused(v);
    let (number, party) = crate::boxes::recorded(refusal);
    let x = crate::report::unless(number == crate::table::field(w, 3), NUMBER, 0);
    let y = crate::report::unless(refusal.is_none() || party == i, PARTY, x);
    y | crate::turns::written(t, at, refusal.is_some(), out)
}

// The combining recorded at `at`.
pub(crate) fn replay(rt: &impl Print, t: &mut Table, at: usize) -> io::Result<()>
    requires { at ≤ 2000000000 }
{
    let w = crate::table::word(t, at);
    let seed = crate::table::word(t, at + 8);
    let n = crate::table::field(w, 0);
    let i = crate::table::field(w, 1);
    let count = crate::table::field(w, 2);
    crate::record::records(t, INPUTS, seed, 8, n, i, 3 * count);
    put_ds(t, seed, i, count);
    let place = if crate::table::field(w, 3) == 0 {
        COMBINED
    } else {
        UNCOMBINED
    };
    crate::table::count(t, place, 1);
    let mut out = [MARK; RESULT_LEN];
    let size = crate::table::product(3, crate::record::record_len(n)).min(RESULT_LEN);
    let bad = differs(t, w, at + 16, &mut out[0..size]);
    crate::report::note(rt, t, i, 0, bad)
}
