// The boxes of a session: opening, which is called round 0 here, and the round calls, with what came for each.
ghost use Rattle.std.specs.Prelude.{◌<◌, ◌≤◌};

use crate::table::{ALL_LEN, ALPHA, BETA, BITS, Inputs, MAIL_LEN, OUT_LEN, Room, Table, first};
use engine::Answer;
use std::fmt;

// The work areas of the boxes.
pub type Works = [[u8; WORK_LEN]; 3];

pub const WORK_LEN: usize = 57400;

// The most that a message has among three boxes.
const HALF: usize = 3848;

// What an outgoing buffer holds before a call.
const MARK: u8 = 0x5a;

// Whom a flip is meant for.
#[derive(Clone, Copy)]
pub enum To {
    One(usize),
    Both,
}

impl To {
    fn reaches(self, i: usize) -> bool {
        match self {
            To::One(j) => i == j,
            To::Both => true,
        }
    }
}

impl fmt::Display for To {
    fn fmt<W: fmt::Write>(&self, f: &mut fmt::Formatter<W>) -> fmt::Result {
        match self {
            To::One(i) => write!(f, "{i}"),
            To::Both => f.write_str("both"),
        }
    }
}

// The bit that is flipped on the way: the lowest of byte `at` of a box's message of a round.
#[derive(Clone, Copy)]
pub struct Flip {
    pub round: usize,
    pub from: usize,
    pub to: To,
    pub at: usize,
    ghost within: { (from < 3) × (at < 3848) },
}

impl fmt::Display for Flip {
    fn fmt<W: fmt::Write>(&self, f: &mut fmt::Formatter<W>) -> fmt::Result {
        write!(
            f,
            "round {} flipped in byte {} from {} to {}",
            self.round, self.at, self.from, self.to
        )
    }
}

// A session: how many boxes and results, the list of batches of each box, and what is flipped.
#[derive(Clone, Copy)]
pub struct Play<'a> {
    pub n: usize,
    pub l: usize,
    pub batches: [&'a [u32]; 3],
    pub flip: Option<Flip>,
    ghost within: { (n ≤ 3) × (l ≤ 16) },
}

// ---- mail

// The bytes of a message of round k.
fn message_len(p: &Play, k: usize) -> usize
    ensures { result ≤ 3848 }
{
    if plan::in_range(p.n, p.l) {
        plan::msg_len(p.n, p.l, k).min(HALF)
    } else {
        0
    }
}

// How many bytes a box sends for round k.
pub(crate) fn sent_len(p: &Play, k: usize) -> usize
    ensures { result ≤ 7696 }
{
    let len = message_len(p, k);
    if p.n == 3 { len + len } else { len }
}

// Where the message for box i starts in the mail, of box j's, which have len bytes.
fn letter(i: usize, j: usize, len: usize) -> usize
    requires { (j < 3) × (len ≤ 3848) }
    ensures { result ≤ 19240 }
{
    let first = (i == 0) | ((i == 1) & (j == 0));
    OUT_LEN * j + if first { 0 } else { len }
}

// What the boxes wrote is sent, len bytes of each, which had sent `sum` before.
pub(crate) fn send_all(t: &mut Table, n: usize, sum: usize, len: usize)
    requires { (n ≤ 3) × (len ≤ 7696) }
{
    let at = sum.min(ALL_LEN - OUT_LEN);
    let (stretches, _) = t.mail.as_chunks_mut::<OUT_LEN>();
    let rooms = &mut t.rooms[..];
    for (room, stretch) in rooms[..n].iter_mut().zip(stretches) {
        stretch.copy_from_slice(&room.out);
        let all = &mut room.all[..];
        all[at..at + len].copy_from_slice(&room.out[..len]);
    }
}

// Flips the bit, if it is one of the message that box i gets in round k; flips it back the second time.
fn flip_bit(mail: &mut [u8; MAIL_LEN], p: &Play, i: usize, k: usize) {
    let Some(f) = p.flip else { return };
    if f.round == k && f.from != i && f.to.reaches(i) {
        mail[letter(i, f.from, message_len(p, k)) + f.at] ^= 1;
    }
}

// ---- the calls

fn open(inputs: &Inputs, p: &Play, i: usize, work: &mut [u8], out: &mut [u8]) -> Answer
    requires { i < 3 }
{
    let n = p.n;
    let l = p.l;
    let shares = plan::shares_len(n, l);
    opening::open(
        n,
        i,
        p.batches[i],
        &inputs.delta,
        &inputs.seed,
        first(&inputs.pairs, plan::pairs_len(n)),
        first(&inputs.lists[BITS..], plan::bits_len(n, l)),
        first(&inputs.lists[ALPHA..], shares),
        first(&inputs.lists[BETA..], shares),
        first(&inputs.masks, plan::masks_len(n, l)),
        work,
        out,
    )
}

// Box i's call for round k. Missing is the mail of boxes that refused in an earlier round.
pub(crate) fn call(t: &mut Table, p: &Play, i: usize, k: usize, work: &mut [u8; WORK_LEN])
    requires { i < 3 }
{
    let n = p.n;
    let l = p.l;
    let mut missing = [0; 3];
    for (mark, room) in missing.iter_mut().zip(&t.rooms) {
        *mark = block::bit_byte(room.log.ended_before(k));
    }
    let Table {
        rooms,
        mail,
        strings,
    } = t;
    let Room {
        inputs,
        out,
        log,
        ..
    } = &mut rooms[i];
    let work = &mut work[..area::work_len(n, l).min(WORK_LEN)];
    let out = &mut out[..plan::out_len(n, l, k).min(OUT_LEN)];
    out.fill(MARK);
    let a = if k == 0 {
        open(inputs, p, i, work, out)
    } else {
        let len = message_len(p, k);
        let starts = [letter(i, 0, len), letter(i, 1, len), letter(i, 2, len)];
        session::round(
            log.session,
            k,
            mail,
            &starts[..n],
            &[len; 3][..n],
            &missing[..n],
            first(strings, plan::r_due(n, l, k)),
            work,
            out,
        )
    };
    let zero = work.iter().all(|&b| b == 0);
    let untouched = out.iter().all(|&b| b == MARK);
    log.note(a, k, zero, zero && untouched);
}

// The calls for round k of the boxes that did not refuse yet.
pub(crate) fn call_all(t: &mut Table, works: &mut Works, p: &Play, k: usize) {
    for i in 0..p.n {
        if t.rooms[i].log.refusal.is_none() {
            flip_bit(&mut t.mail, p, i, k);
            call(t, p, i, k, &mut works[i]);
            flip_bit(&mut t.mail, p, i, k);
        }
    }
}
