// The boxes of a session: opening and the round calls, with what comes for each.
ghost use Rattle.std.specs.Prelude.{◌<◌, ◌≤◌};

use crate::record::Play;
use crate::table::{
    ALPHA, BETA, BITS, INPUTS, INPUTS_LEN, OUT_LEN, REFUSED, STRINGS, Table, first,
};
use engine::{Answer, Frame, Session, Verdict};

// What an outgoing buffer holds before a call.
pub const MARK: u8 = 165;

// The calls for round k, 0 for opening: the round after it, the bytes of a message, where what was sent starts, where what is written goes,
// and the recorded hashes of that.
#[derive(Clone, Copy)]
pub struct Turn {
    pub k: usize,
    pub next: usize,
    pub len: usize,
    pub from: usize,
    pub to: usize,
    pub hashes: usize,
}

// ---- mail

// The messages for a box, by sender.
#[derive(Clone, Copy)]
pub struct Mail {
    pub starts: [usize; 8],
    pub lens: [usize; 8],
    pub missing: [u8; 8],
}

// Where the message for box i starts in what box j sent, of messages of len bytes.
fn letter(i: usize, j: usize, len: usize) -> usize {
    let place = if i <= j { i } else { i - 1 };
    crate::table::sum(
        crate::table::product(j, OUT_LEN),
        crate::table::product(place, len),
    )
}

// Whether nothing came from box j in round k: it refused in an earlier one.
fn absent(t: &Table, j: usize, k: usize) -> u8
    requires { j < 8 }
{
    let round = crate::table::get(t, REFUSED + j);
    block::bit_byte((round != 0) & (round != crate::table::small(k)))
}

// What a rule does to a message: a byte is changed, the message ends early, or it is missing.
#[derive(Clone, Copy)]
enum Damage {
    Xor { at: usize, mask: u8 },
    End(usize),
    Missing,
}

// A rule of a session, for the messages of a round from one box to one other, or to all.
#[derive(Clone, Copy)]
struct Rule {
    damage: Damage,
    round: usize,
    from: usize,
    to: Option<usize>,
}

impl Rule {
    fn of(w: u64) -> Self {
        let at = (w >> 48) as usize;
        let to = crate::table::field(w, 3);
        Rule {
            damage: match crate::table::field(w, 0) {
                0 => Damage::Xor {
                    at,
                    mask: crate::table::small(crate::table::field(w, 4)),
                },
                1 => Damage::End(at),
                _ => Damage::Missing,
            },
            round: crate::table::field(w, 1),
            from: crate::table::field(w, 2),
            to: if to == 255 { None } else { Some(to) },
        }
    }

    // What it does to the mail of box i in round k; bytes are changed where they lie.
    fn apply(self, t: &mut Table, i: usize, k: usize, mail: &mut Mail) {
        let from = self.from;
        if self.round != k || from == i || self.to.unwrap_or(i) != i || 8 <= from {
            return;
        }
        match self.damage {
            Damage::Xor { at, mask } => {
                let spot = crate::table::sum(mail.starts[from], at);
                let b = crate::table::get(t, spot);
                crate::table::put(t, spot, b ^ mask);
            }
            Damage::End(len) => mail.lens[from] = len,
            Damage::Missing => mail.missing[from] = 1,
        }
    }
}

// What was sent to box i.
fn letters(t: &Table, r: Turn, i: usize) -> Mail {
    let mut now = Mail {
        starts: [0; 8],
        lens: [0; 8],
        missing: [0; 8],
    };
    for j in 0..8 {
        now.starts[j] = crate::table::sum(r.from, letter(i, j, r.len));
        now.lens[j] = r.len;
        now.missing[j] = absent(t, j, r.k);
    }
    now
}

// The same by the rules.
pub(crate) fn delivered(t: &mut Table, p: Play, r: Turn, i: usize) -> Mail {
    let mut now = letters(t, r, i);
    for at in (p.rules..p.hashes.min(2000000000)).step_by(8) {
        Rule::of(crate::table::word(t, at)).apply(t, i, r.k, &mut now);
    }
    now
}

// ---- the calls

// A refusal: its number and the party that it names.
#[derive(Clone, Copy, PartialEq, Eq)]
pub struct Refusal {
    pub number: usize,
    pub party: usize,
}

pub(crate) fn refused(v: Verdict) -> Option<Refusal> {
    match v {
        Ok(()) => None,
        Err(refusal) => Some(Refusal {
            number: refusal.reason.number() as usize,
            party: refusal.party,
        }),
    }
}

// What stands in a record: the number and the party, 0 for a box that goes on or is done.
pub(crate) fn recorded(refusal: Option<Refusal>) -> (usize, usize) {
    match refusal {
        None => (0, 0),
        Some(Refusal { number, party }) => (number, party),
    }
}

// What a call answered: its refusal, the round due, and whether the session is still that of the box, and told what is due.
#[derive(Clone, Copy)]
pub struct Reply {
    pub refusal: Option<Refusal>,
    pub due: usize,
    pub same: bool,
}

// l as the count of the only batch.
fn single(l: usize) -> u32 {
    u32::from(crate::table::small(l))
}

// Whether x stands at `at` of the numbers, and zeros else.
fn alone(s: &[u32], at: usize, x: u32) -> bool {
    s.iter()
        .enumerate()
        .all(|(q, &y)| y == if q == at { x } else { 0 })
}

// What the call for round k answered. The last tells of the batch if it accepts; the others tell zeros.
fn answered(a: Answer, n: usize, i: usize, l: usize, k: usize) -> Reply {
    let s = a.session;
    let f = s.party;
    let refusal = refused(a.verdict);
    let told = if k == plan::FAAND && refusal.is_none() {
        single(l)
    } else {
        0
    };
    Reply {
        refusal,
        due: s.due,
        same: f.n == n
            && f.i == i
            && f.l == l
            && alone(&s.counts, 0, single(l))
            && alone(&a.told, 1, told),
    }
}

fn opened(t: &Table, n: usize, i: usize, l: usize, work: &mut [u8], out: &mut [u8]) -> Answer {
    let x = crate::table::part(t, INPUTS, INPUTS_LEN);
    let shares = plan::shares_len(n, l);
    let counts = [single(l)];
    opening::open(
        n,
        i,
        &counts,
        crate::table::part(x, 0, 16),
        crate::table::part(x, 16, 32),
        crate::table::part(x, 48, plan::pairs_len(n)),
        crate::table::part(x, BITS, plan::bits_len(n, l)),
        crate::table::part(x, ALPHA, shares),
        crate::table::part(x, BETA, shares),
        crate::table::part(x, 400, plan::masks_len(n, l)),
        work,
        out,
    )
}

fn called(t: &Table, s: Session, k: usize, mail: Mail, work: &mut [u8], out: &mut [u8]) -> Answer {
    let Frame { n, l, .. } = s.party;
    session::round(
        s,
        k,
        t,
        first(&mail.starts, n),
        first(&mail.lens, n),
        first(&mail.missing, n),
        crate::table::part(t, STRINGS, plan::r_due(n, l, k)),
        work,
        out,
    )
}

// Box i's call for round k.
pub(crate) fn call(
    t: &Table,
    p: Play,
    k: usize,
    i: usize,
    due: usize,
    mail: Mail,
    work: &mut [u8],
    out: &mut [u8],
) -> Reply {
    let n = p.n;
    let l = p.l;
    if k == 0 {
        return answered(opened(t, n, i, l, work, out), n, i, l, k);
    }
    let mut counts = [0; 16];
    counts[0] = single(l);
    let s = Session {
        party: Frame { n, i, l },
        due,
        counts,
    };
    answered(called(t, s, k, mail, work, out), n, i, l, k)
}
