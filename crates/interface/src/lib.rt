// What the calls for C are in numbers: a session as twenty numbers, an answer as one, what is told of the batches in a lent buffer, and what
// a host asks for, 0 where there is none. specs/Interface.antt has what the calls themselves leave; crate nuzsdike exports them.
#![tactic(auto)]

ghost use Rattle.interface.specs.Interface as Interface;
ghost use Rattle.std.specs.Prelude.{◌≡◌, ◌<◌, ◌≤◌, length};
ghost use Rattle.refusals.specs.Reason.{number};
ghost use Rattle.plan.specs.Plan.{within};
ghost use Rattle.engine.specs.Step.{Refused, reply_of, frame};
ghost use Rattle.engine.specs.Area.{off};
ghost use Rattle.rounds.specs.Area.{size_of};
ghost use Rattle.interface.specs.Interface.{TOLD, session_at, head_of, numbers_of, packed_of, told_c, told_reason};
ghost use Rattle.interface.specs.Interface.{sum_c, due_of, round_after, message_len, name_byte, record_bytes, bucket_of, joint_at, pairwise_at};
ghost use Rattle.interface.specs.Narrow.{Narrow, named};

use batches::Pairs;
use engine::{Frame, Refusal, Session, Verdict};
use refusals::Reason;

// Above every 32-bit number: an answer that names no party.
pub const NO_PARTY: usize = 0x1_0000_0000;

// ---- sessions and answers

// The numbers of a session: n, i, l, the round due, and then the counts.
pub const SESSION: usize = 20;

const COUNTS: usize = 4;

// The session in its numbers.
pub fn load(s: &[u32]) -> Session
    requires { length s.now ≡ Interface.SESSION }
    ensures { (result ≡ session_at s.now) × Narrow result }
{
    let party = Frame {
        n: s[0] as usize,
        i: s[1] as usize,
        l: s[2] as usize,
    };
    let counts = batches::kept(&s[COUNTS..]);
    Session {
        party,
        due: s[3] as usize,
        counts,
    }
}

// n, i, l and the round due.
fn put_head(out: &mut [u32], party: Frame, due: usize)
    requires out_len { (length out.old ≡ Interface.COUNTS) × (party.n < 0x1_0000_0000) × (party.i < 0x1_0000_0000) }
    requires l_bound { (party.l < 0x1_0000_0000) × (due < 0x1_0000_0000) }
    ensures { out.new ≡ head_of party due }
{
    out[0] = party.n as u32;
    out[1] = party.i as u32;
    out[2] = party.l as u32;
    out[3] = due as u32;
}

pub fn store(out: &mut [u32], s: Session)
    requires out_len { length out.old ≡ Interface.SESSION }
    requires narrow { Narrow s }
    ensures { out.new ≡ numbers_of s }
{
    put_head(&mut out[0..COUNTS], s.party, s.due);
    out[COUNTS..].copy_from_slice(&s.counts);
}

// What is told of the batches stands in the buffer after an accepted call after which no round is due; any other leaves it as it was.
pub fn tell(out: &mut [u32], v: Verdict, due: usize, told: Pairs)
    requires { length out.old ≡ TOLD }
    ensures { out.new ≡ told_c (reply_of v) due told out.old }
{
    match v {
        Ok(()) => {
            if due == 0 {
                out.copy_from_slice(&told);
            }
        }
        Err(_) => {}
    }
}

// Why a round call is refused whose buffer for them has another length.
pub fn told_reason(s: Session, k: usize) -> Reason
    ensures { number result ≡ told_reason s k }
{
    if !admit::alive(s) {
        return Reason::NoSession;
    }
    if k != s.due {
        return Reason::WrongRound;
    }
    Reason::WrongBuffer
}

// Number and party in one.
pub fn packed(code: u8, party: usize) -> u64
    requires { party ≤ Interface.NO_PARTY }
    ensures { result ≡ packed_of (Refused code party) }
{
    code as u64 + 256 * party as u64
}

// The number of a reason and a party in one.
pub fn packed_refusal(reason: Reason, party: usize) -> u64
    requires { party ≤ Interface.NO_PARTY }
    ensures { result ≡ packed_of (Refused (number reason) party) }
{
    packed(reason.number(), party)
}

pub fn answer(v: Verdict) -> u64
    requires { named (reply_of v) ≤ Interface.NO_PARTY }
    ensures { result ≡ packed_of (reply_of v) }
{
    match v {
        Ok(()) => 0,
        Err(Refusal { reason, party }) => packed_refusal(reason, party),
    }
}

// ---- counts

// The sum, or why opening refuses them, with no party to name.
pub fn sum(counts: &[u32]) -> u64
    ensures { result ≡ sum_c counts.now }
{
    match batches::fault(counts) {
        Ok(()) => batches::sum(counts) as u64,
        Err(reason) => packed_refusal(reason, NO_PARTY),
    }
}

// ---- lengths

pub fn message_len(n: u32, l: u32, round: u32) -> usize
    ensures { result ≡ message_len n l round }
{
    if plan::in_range(n as usize, l as usize) {
        if plan::is_round(n as usize, round as usize) {
            plan::msg_len(n as usize, l as usize, round as usize)
        } else {
            0
        }
    } else {
        0
    }
}

pub fn record_len(n: u32) -> usize
    ensures { result ≡ record_bytes n }
{
    if plan::parties(n as usize) {
        share::lent_len(n as usize)
    } else {
        0
    }
}

// ---- where what a host needs lies in the work area

// 0 where opening refuses n or l.
fn section_or_0(n: u32, l: u32, s: usize) -> usize
    requires { s ≤ 24 }
    ensures { result ≡ within n l (off (size_of (frame n l 0)) s) }
{
    if plan::in_range(n as usize, l as usize) {
        let f = Frame {
            n: n as usize,
            i: 0,
            l: l as usize,
        };
        area::section_at(f, s)
    } else {
        0
    }
}

// The joint seed, from which the seed of r may be taken.
pub fn joint_seed_at(n: u32, l: u32) -> usize
    ensures { result ≡ joint_at n l }
{
    section_or_0(n, l, area::JOINT)
}

pub fn pairwise_seeds_at(n: u32, l: u32) -> usize
    ensures { result ≡ pairwise_at n l }
{
    section_or_0(n, l, area::PAIRWISE)
}

// ---- rounds and buckets

pub fn bucket_size(l: u32) -> u32
    ensures { result ≡ bucket_of l }
{
    if (1 <= l) & (l <= 300000) {
        plan::bucket_size(l as usize) as u32
    } else {
        0
    }
}

// The round after a round, the first after 0, and 0 after the last and where there is no such session.
pub fn next_round(n: u32, round: u32) -> u32
    ensures { result ≡ round_after n round }
{
    if plan::parties(n as usize) {
        plan::writes(n as usize, round as usize) as u32
    } else {
        0
    }
}

// The round that is due, 0 for none.
pub fn due(session: &[u32]) -> u32
    ensures { result ≡ due_of session.now }
{
    if session.len() != SESSION {
        return 0;
    }
    if admit::alive(load(session)) {
        session[3]
    } else {
        0
    }
}

// Byte k of the name of a round.
pub fn name_byte(round: u32, k: usize) -> u8
    ensures { result ≡ name_byte round k }
{
    if k < 16 {
        let name = plan::round_name(round as usize);
        name[k]
    } else {
        0
    }
}
