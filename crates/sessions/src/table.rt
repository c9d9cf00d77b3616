// All that a session has but its work areas: a room for each of three boxes, what they sent last, and r. There is room for 3 boxes with l
// up to 6, and for 2 with l up to 16.
ghost use Rattle.std.specs.Prelude.{◌+◌, ◌<◌, ◌≤◌};

use block::Block;
use engine::{Answer, Frame, Session, Verdict};
use share::LENT_HEAD;
use std::fmt;

// The bytes of a list of shares, of what a box writes in a call, of that of three, of what a box sends in all, and of r.
pub const SHARES_LEN: usize = 1536;

pub const OUT_LEN: usize = 7696;

pub const MAIL_LEN: usize = 3 * OUT_LEN;

pub const ALL_LEN: usize = 32000;

pub const STRINGS_LEN: usize = 7680;

// Where a box's lists of records start, and what there is room for: behind the last record it holds the longest.
pub const ALPHA: usize = 0;

pub const BETA: usize = 1536;

pub const BITS: usize = 3072;

pub const BITS_LEN: usize = 38400;

pub const LISTS_LEN: usize = 41760;

#[derive(Drop)]
pub struct Table {
    pub rooms: [Room; 3],

    // what each box sent last, OUT_LEN bytes a box
    pub mail: [u8; MAIL_LEN],
    pub strings: [u8; STRINGS_LEN],
}

// A box: what it is lent (deal.rt), what it wrote last and what it sent in all.
#[derive(Drop)]
pub struct Room {
    pub inputs: Inputs,
    pub out: [u8; OUT_LEN],
    pub all: [u8; ALL_LEN],
    pub log: Log,
}

#[derive(PartialEq, Eq, Drop)]
pub struct Inputs {
    pub delta: [u8; 16],
    pub seed: [u8; 32],
    pub pairs: [u8; 96],
    pub masks: [u8; 160],
    pub lists: [u8; LISTS_LEN],
}

impl Table {
    pub(crate) fn new() -> Self {
        Table {
            rooms: [Room::new(), Room::new(), Room::new()],
            mail: [0; MAIL_LEN],
            strings: [0; STRINGS_LEN],
        }
    }
}

impl Room {
    fn new() -> Self {
        Room {
            inputs: Inputs {
                delta: [0; 16],
                seed: [0; 32],
                pairs: [0; 96],
                masks: [0; 160],
                lists: [0; LISTS_LEN],
            },
            out: [0; OUT_LEN],
            all: [0; ALL_LEN],
            log: Log::new(),
        }
    }

    // Whether the inputs, all messages and what was written last are the same.
    pub(crate) fn same(&self, o: &Room) -> bool {
        self.inputs == o.inputs && self.out == o.out && self.all == o.all
    }
}

impl Inputs {
    // 16 bytes of a record.
    pub(crate) fn put(&mut self, at: usize, b: Block)
        requires { at + 16 ≤ 41760 }
    {
        let lists = &mut self.lists[..];
        block::store(&mut lists[at..at + 16], b);
    }

    // The head of box j's record among n.
    pub(crate) fn put_head(&mut self, at: usize, n: usize, j: usize, bit: bool)
        requires { (at + 32 ≤ 41760) × (n ≤ 8) × (j < n) }
    {
        let lists = &mut self.lists[..];
        share::put_lent_head(&mut lists[at..at + LENT_HEAD], n, j, bit);
    }
}

// The first n; none where there aren't as many.
pub(crate) fn first<T>(s: &[T], n: usize) -> &[T] {
    s.get(..n).unwrap_or(&[])
}

// ---- the log

// A refusal: the number, the party, and the round of the call.
#[derive(Clone, Copy)]
pub struct Refusal {
    pub number: u8,
    pub party: usize,
    pub round: usize,
}

// A box's session, the refusal that ended it, and what the last call told; whether that left zeros in the work area, and also the outgoing
// buffer alone; how many calls told of batches.
#[derive(Clone, Copy)]
pub struct Log {
    pub session: Session,
    pub refusal: Option<Refusal>,
    pub told: [u32; 32],
    pub zero: bool,
    pub clean: bool,
    pub loud: u8,
}

fn refused(v: Verdict, round: usize) -> Option<Refusal> {
    match v {
        Ok(()) => None,
        Err(refusal) => Some(Refusal {
            number: refusal.reason.number(),
            party: refusal.party,
            round,
        }),
    }
}

impl Log {
    fn new() -> Self {
        Log {
            session: Session {
                party: Frame { n: 0, i: 0, l: 0 },
                due: 0,
                counts: [0; 16],
            },
            refusal: None,
            told: [0; 32],
            zero: false,
            clean: false,
            loud: 0,
        }
    }

    // Whether the box refused in a round before k.
    pub(crate) fn ended_before(&self, k: usize) -> bool {
        self.refusal.is_some_and(|r| r.round != k)
    }

    // What was answered in round k, and what it left.
    pub(crate) fn note(&mut self, a: Answer, k: usize, zero: bool, clean: bool) {
        self.zero = zero;
        self.clean = clean;
        self.session = a.session;
        self.refusal = refused(a.verdict, k);
        self.told = a.told;
        if !a.told.iter().all(|&x| x == 0) {
            self.loud = self.loud.saturating_add(1);
        }
    }
}

// How the box ended.
impl fmt::Display for Log {
    fn fmt<W: fmt::Write>(&self, f: &mut fmt::Formatter<W>) -> fmt::Result {
        let Some(
            Refusal {
                number,
                party,
                round,
            },
        ) = self.refusal
        else {
            return f.write_str("done");
        };
        write!(f, "{number} of {party} in round {round}; ")?;
        f.write_str(if self.clean {
            "its work area is zero, its buffer untouched"
        } else {
            "ITS MEMORY IS NOT AS DUE"
        })
    }
}
