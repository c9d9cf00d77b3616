// Echoes (document 01, "What each round means"): everybody tells everybody the hash of each list that it got in the round before. From
// src/mpc/faand.rs of polytune (`broadcast_verification`, `hash_vec`). What is kept of the lists, what is sent, and the check of what the
// others heard; the definitions stand in crates/rounds (Echo). A list that was broadcast is public, and so is its hash.
#![tactic(auto)]

ghost use Rattle.std.specs.Prelude.{◌≡◌, ◌≢◌, ◌&&◌, ◌+◌, ◌-◌, ◌*◌, ◌<◌, ◌≤◌, length};
ghost use Rattle.algebra.specs.Sum.{neq};
ghost use Rattle.refusals.specs.Reason.{code_of};
ghost use Rattle.block.specs.Block.{bytes_of};
ghost use Rattle.message.specs.Format.{decodes, form_of};
ghost use Rattle.plan.specs.Plan.{kind_of, count_due, msg_len};
ghost use Rattle.engine.specs.Step.{by_party};
ghost use Rattle.engine.specs.Area.{to_others};
ghost use Rattle.engine.specs.Plain.{rows_of};
ghost use Rattle.rounds.specs.Mail.{letter};
ghost use Rattle.rounds.specs.FaultLaws.{Finds};
ghost use Rattle.rounds.specs.Echo as Echo;
ghost use Rattle.rounds.specs.EchoLaws.{Received, entry, entry_len, told_fault, echo_faults};

use block::Block;
use engine::{Frame, Verdict};
use message::Kind;
use refusals::Reason;
use rounds::Mail;

// ---- what is kept of the lists

// `hash_vec`: the first 16 bytes of BLAKE3 of the list of round k, its count included; of the bits alone where the items are a bit and a
// Block.
fn hash_list(list: &[u8], k: usize) -> Block
    requires { 8 ≤ length list.now }
    ensures { bytes_of result ≡ Echo.hash_vec k list.now }
{
    if (k == plan::FABITN) | (k == plan::FLAAND) {
        blake3::hash128_firsts(list, 17)
    } else {
        blake3::hash128(list)
    }
}

// The hash of the list that party j sent.
fn hash_of(incoming: &[u8], mail: Mail, f: Frame, k: usize, j: usize) -> Block
    requires j_lt_n { (j < f.n) × (f.i ≢ j) }
    requires received { Received (kind_of f.l k) (count_due f.n f.l k) f incoming.now mail }
    ensures { bytes_of result ≡ Echo.hash_vec k (letter incoming.now mail j) }
{
    hash_list(rounds::letter(incoming, mail, j), k)
}

// The hashes of the lists of round k, by party; zero for the own number.
pub fn keep_hashes(section: &mut [u8], incoming: &[u8], mail: Mail, f: Frame, k: usize)
    requires n_bound { (f.n ≤ 8) × (length section.old ≡ f.n * 16) }
    requires received { Received (kind_of f.l k) (count_due f.n f.l k) f incoming.now mail }
    ensures { section.new ≡ rows_of f (λ j. Echo.hash_vec k (letter incoming.now mail j)) }
{
    rounds::put_rows(
        section,
        f,
        16,
        |row, j| block::store(row, hash_of(incoming, mail, f, k, j)),
    );
}

// ---- messages

// Whether what i and r tell each other has an entry for k: neither of the two is k.
fn told(i: usize, r: usize, k: usize) -> bool
    ensures { result ≡ (neq i k && neq r k) }
{
    (i != k) & (r != k)
}

// The bytes of entry k.
fn entry_len(i: usize, r: usize, k: usize) -> usize
    ensures { result ≡ entry_len i r k }
{
    if told(i, r, k) { 17 } else { 1 }
}

// Entry k of the echo from i to r: the hash of k's list, or absent.
fn put_entry(out: &mut [u8], hashes: &[u8], i: usize, r: usize, k: usize)
    requires { (length out.old ≡ entry_len i r k) × (k * 16 + 16 ≤ length hashes.now) }
    ensures { out.new ≡ entry i r hashes.now k }
{
    if told(i, r, k) {
        encode::put_some(out, block::load(hashes, k * 16));
    } else {
        encode::put_none(out);
    }
}

// The echo from i to r: n options, whose lengths vary, one behind the other.
fn put_echo(out: &mut [u8], hashes: &[u8], f: Frame, r: usize)
    requires n_bound { (f.n ≤ 8) × ((f.i < f.n) × ((r < f.n) × (f.i ≢ r))) }
    requires out_len { (length out.old ≡ msg_len f.n 1 2) × (length hashes.now ≡ f.n * 16) }
    ensures { out.new ≡ Echo.echo_msg f.n f.i hashes.now r }
{
    encode::put_count(&mut out[0..8], f.n);
    let mut a = 8;
    for k in 0..f.n {
        let e = a + entry_len(f.i, r, k);
        put_entry(&mut out[a..e], hashes, f.i, r, k);
        a = e;
    }
}

// The echoes to all others.
pub fn write_echoes(out: &mut [u8], hashes: &[u8], f: Frame)
    requires le_n { (2 ≤ f.n) × ((f.n ≤ 8) × (f.i < f.n)) }
    requires out_len { (length out.old ≡ (f.n - 1) * msg_len f.n 1 2) × (length hashes.now ≡ f.n * 16) }
    ensures { out.new ≡ to_others f.n f.i (Echo.echo_msg f.n f.i hashes.now) }
{
    rounds::to_others(
        out,
        f,
        plan::msg_len(f.n, 1, 2),
        |row, r| put_echo(row, hashes, f, r),
    );
}

// ---- the check

// Entry k of an echo: refused if it is absent, or another hash than the own one.
fn check_hash(m: &[u8], hashes: &[u8], n: usize, k: usize) -> Result<(), Reason>
    requires m_value { form_of Kind.Options n m.now ≡ 0 }
    requires n_bound { (n ≤ 8) × ((k < n) × (length hashes.now ≡ n * 16)) }
    ensures { code_of result ≡ Echo.entry_fault hashes.now m.now k }
{
    let at = message::item_at(Kind::Options, m, k);
    if m[at] == 0 {
        return Err(Reason::EmptyVector);
    }
    if block::load(m, at + 1).equals(block::load(hashes, k * 16)) {
        Ok(())
    } else {
        Err(Reason::InconsistentBroadcast)
    }
}

// Entry k of what j told i; nothing is checked where k is one of the two.
fn check_entry(m: &[u8], hashes: &[u8], f: Frame, j: usize, k: usize) -> Result<(), Reason>
    requires m_value { form_of Kind.Options f.n m.now ≡ 0 }
    requires n_bound { (f.n ≤ 8) × ((k < f.n) × (length hashes.now ≡ f.n * 16)) }
    ensures { code_of result ≡ told_fault f.i j hashes.now m.now k }
{
    if told(f.i, j, k) {
        check_hash(m, hashes, f.n, k)
    } else {
        Ok(())
    }
}

// The first fault of what j told i.
pub fn check_echo(m: &[u8], hashes: &[u8], f: Frame, j: usize) -> Result<(), Reason>
    requires m_value { form_of Kind.Options f.n m.now ≡ 0 }
    requires n_bound { (f.n ≤ 8) × (length hashes.now ≡ f.n * 16) }
    ensures { code_of result ≡ Echo.echo_fault f.n f.i j hashes.now m.now }
{
    for k in 0..f.n {
        check_entry(m, hashes, f, j, k)?;
    }
    Ok(())
}

// The first fault of party j's echo.
fn check_letter(
    hashes: &[u8],
    incoming: &[u8],
    mail: Mail,
    f: Frame,
    j: usize,
) -> Result<(), Reason>
    requires n_bound { (f.n ≤ 8) × (j < f.n) × (f.i ≢ j) × (length hashes.now ≡ f.n * 16) }
    requires received { Received Kind.Options f.n f incoming.now mail }
    ensures { code_of result ≡ echo_faults f.n f.i hashes.now (letter incoming.now mail) j }
{
    check_echo(rounds::letter(incoming, mail, j), hashes, f, j)
}

// 3 or 7 with the first sender whose echo has a fault.
pub fn check_echoes(hashes: &[u8], incoming: &[u8], mail: Mail, f: Frame) -> Verdict
    requires n_bound { (f.n ≤ 8) × (length hashes.now ≡ f.n * 16) }
    requires received { Received Kind.Options f.n f incoming.now mail }
    ensures { Finds result (by_party f (echo_faults f.n f.i hashes.now (letter incoming.now mail))) }
{
    rounds::by_party(f, |j| check_letter(hashes, incoming, mail, f, j))
}
