// The interface for C: include/nuzsdike.h. Numbers and slices only; a session is twenty numbers in a lent buffer, an answer is one number.
// The calls promise what `opening`, `session` and `combine` promise, refused calls included; the rest tells a host the lengths of what it
// lends.
#![tactic(auto)]

ghost use Rattle.std.specs.Prelude.{◌≡◌};
ghost use Rattle.plan.specs.Plan.{within, out_len, bits_len, shares_len, masks_len, pairs_len, r_due};
ghost use Rattle.engine.specs.Step.{frame};
ghost use Rattle.rounds.specs.Area.{work_len};
ghost use Rattle.rounds.specs.Combine as Combine;
ghost use Rattle.inputs.specs.Given.{args};
ghost use Rattle.admit.specs.Admit.{given};
ghost use Rattle.interface.specs.Interface.{exported, open_c, turned, round_c, combined, combine_c, sum_c, due_of};
ghost use Rattle.interface.specs.Interface.{round_after, message_len, name_byte, record_bytes, bucket_of, joint_at, pairwise_at};

use engine::Frame;
use refusals::Reason;

// ---- the calls

// Opens a session (crate opening).
#[unsafe(no_mangle)]
pub extern "C" fn nuzsdike_open(
    session: &mut [u32],
    n: u32,
    i: u32,
    counts: &[u32],
    delta: &[u8],
    seed: &[u8],
    pairs: &[u8],
    bits: &[u8],
    alpha: &[u8],
    beta: &[u8],
    masks: &[u8],
    work: &mut [u8],
    out: &mut [u8],
) -> u64
    ensures { exported result session.new work.new out.new ≡ open_c session.old
        (args n i counts.now delta.now seed.now pairs.now bits.now alpha.now beta.now masks.now
        work.old out.old) }
{
    let own = i as usize;
    if session.len() != interface::SESSION {
        let f = Frame {
            n: n as usize,
            i: own,
            l: batches::sum(counts),
        };
        let refused = batches::fault(counts);
        return match inputs::check_lengths(f, refused, bits.len(), alpha.len(), beta.len(), false) {
            Ok(()) => interface::packed_refusal(Reason::WrongBuffer, own),
            Err(reason) => interface::packed_refusal(reason, own),
        };
    }
    let a = opening::open(
        n as usize, own, counts, delta, seed, pairs, bits, alpha, beta, masks, work, out,
    );
    match a.verdict {
        Ok(()) => {
            interface::store(session, a.session);
            0
        }
        Err(refusal) => interface::packed_refusal(refusal.reason, own),
    }
}

// The call for a round (crate session).
#[unsafe(no_mangle)]
pub extern "C" fn nuzsdike_round(
    session: &mut [u32],
    round: u32,
    incoming: &[u8],
    starts: &[usize],
    lens: &[usize],
    missing: &[u8],
    r: &[u8],
    work: &mut [u8],
    out: &mut [u8],
    told: &mut [u32],
) -> u64
    ensures { turned (exported result session.new work.new out.new) told.new ≡ round_c session.old round
        (given incoming.now starts.now lens.now missing.now r.now out.old)
        work.old told.old }
{
    if session.len() != interface::SESSION {
        return interface::packed_refusal(Reason::NoSession, interface::NO_PARTY);
    }
    let s = interface::load(session);
    if told.len() != batches::TOLD {
        return interface::packed_refusal(interface::told_reason(s, round as usize), s.party.i);
    }
    let step = session::round(
        s,
        round as usize,
        incoming,
        starts,
        lens,
        missing,
        r,
        work,
        out,
    );
    interface::store(session, step.session);
    interface::tell(told, step.verdict, step.session.due, step.told);
    interface::answer(step.verdict)
}

// Combines triples (crate combine).
#[unsafe(no_mangle)]
pub extern "C" fn nuzsdike_combine(
    n: u32,
    i: u32,
    count: u32,
    triples: &[u8],
    d: &[u8],
    out: &mut [u8],
) -> u64
    ensures { combined result out.new ≡ combine_c (Combine.args n i count triples.now d.now out.old) }
{
    interface::answer(combine::combine(n as usize, i as usize, count as usize, triples, d, out))
}

// ---- lengths

// The l of a list of counts, or why opening refuses them.
#[unsafe(no_mangle)]
pub extern "C" fn nuzsdike_sum(counts: &[u32]) -> u64
    ensures { result ≡ sum_c counts.now }
{
    interface::sum(counts)
}

#[unsafe(no_mangle)]
pub extern "C" fn nuzsdike_work_len(n: u32, l: u32) -> usize
    ensures { result ≡ within n l (work_len (frame n l 0)) }
{
    area::work_len(n as usize, l as usize)
}

#[unsafe(no_mangle)]
pub extern "C" fn nuzsdike_out_len(n: u32, l: u32, round: u32) -> usize
    ensures { result ≡ out_len n l round }
{
    plan::out_len(n as usize, l as usize, round as usize)
}

#[unsafe(no_mangle)]
pub extern "C" fn nuzsdike_message_len(n: u32, l: u32, round: u32) -> usize
    ensures { result ≡ message_len n l round }
{
    interface::message_len(n, l, round)
}

#[unsafe(no_mangle)]
pub extern "C" fn nuzsdike_bits_len(n: u32, l: u32) -> usize
    ensures { result ≡ bits_len n l }
{
    plan::bits_len(n as usize, l as usize)
}

#[unsafe(no_mangle)]
pub extern "C" fn nuzsdike_shares_len(n: u32, l: u32) -> usize
    ensures { result ≡ shares_len n l }
{
    plan::shares_len(n as usize, l as usize)
}

#[unsafe(no_mangle)]
pub extern "C" fn nuzsdike_masks_len(n: u32, l: u32) -> usize
    ensures { result ≡ masks_len n l }
{
    plan::masks_len(n as usize, l as usize)
}

#[unsafe(no_mangle)]
pub extern "C" fn nuzsdike_pairs_len(n: u32) -> usize
    ensures { result ≡ pairs_len n }
{
    plan::pairs_len(n as usize)
}

#[unsafe(no_mangle)]
pub extern "C" fn nuzsdike_r_len(n: u32, l: u32, round: u32) -> usize
    ensures { result ≡ r_due n l round }
{
    plan::r_due(n as usize, l as usize, round as usize)
}

#[unsafe(no_mangle)]
pub extern "C" fn nuzsdike_record_len(n: u32) -> usize
    ensures { result ≡ record_bytes n }
{
    interface::record_len(n)
}

// ---- where what a host needs lies in the work area

// The joint seed, from which the seed of r may be taken.
#[unsafe(no_mangle)]
pub extern "C" fn nuzsdike_joint_seed_at(n: u32, l: u32) -> usize
    ensures { result ≡ joint_at n l }
{
    interface::joint_seed_at(n, l)
}

#[unsafe(no_mangle)]
pub extern "C" fn nuzsdike_pairwise_seeds_at(n: u32, l: u32) -> usize
    ensures { result ≡ pairwise_at n l }
{
    interface::pairwise_seeds_at(n, l)
}

// ---- rounds and buckets

#[unsafe(no_mangle)]
pub extern "C" fn nuzsdike_bucket_size(l: u32) -> u32
    ensures { result ≡ bucket_of l }
{
    interface::bucket_size(l)
}

// The round after a round, the first after 0, and 0 after the last and where there is no such session.
#[unsafe(no_mangle)]
pub extern "C" fn nuzsdike_next_round(n: u32, round: u32) -> u32
    ensures { result ≡ round_after n round }
{
    interface::next_round(n, round)
}

// The round that is due, 0 for none.
#[unsafe(no_mangle)]
pub extern "C" fn nuzsdike_due(session: &[u32]) -> u32
    ensures { result ≡ due_of session.now }
{
    interface::due(session)
}

// Byte k of the name of a round.
#[unsafe(no_mangle)]
pub extern "C" fn nuzsdike_round_name(round: u32, k: usize) -> u8
    ensures { result ≡ name_byte round k }
{
    interface::name_byte(round, k)
}
