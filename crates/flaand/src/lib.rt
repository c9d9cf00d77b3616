// Round 15, `flaand` of src/mpc/faand.rs: the leaky AND (WRK17b, Pi_LaAND). e and u are sent, the others' e are kept, and h is made.
// What was hashed of the x keys and MACs stands in the rows that `fhaand` kept (crate haand). The definitions are those of crate rounds,
// specs/Flaand.antt. Bits, MACs, keys, delta, z and h are secret: they decide no branch and no index. An e that was received is public.
#![tactic(auto)]

ghost use Rattle.std.specs.Prelude.{◌≡◌, ◌≢◌, ◌+◌, ◌-◌, ◌*◌, ◌<◌, ◌≤◌, length, get_or};
ghost use Rattle.lists.specs.Over.{tab};
ghost use Rattle.algebra.specs.Group.{XorGroup, sel, odd, num};
ghost use Rattle.algebra.specs.Sum.{others};
ghost use Rattle.block.specs.Group.{blocks};
ghost use Rattle.share.specs.Record.{record_len, mac_at, key_at};
ghost use Rattle.encode.specs.Encode.{bit_block};
ghost use Rattle.plan.specs.Plan as Plan;
ghost use Rattle.plan.specs.Plan.{FLAAND, InRange, msg_len};
ghost use Rattle.engine.specs.Area.{to_others};
ghost use Rattle.rounds.specs.Area.{BITS, LEAKY, ZS, ES, HS, leaky_len, at, keep};
ghost use Rattle.rounds.specs.Mail.{letter, Arrived};
ghost use Rattle.rounds.specs.Haand as R;
ghost use Rattle.rounds.specs.Flaand as F;
ghost use Rattle.rounds.specs.Table as Table;
ghost use Rattle.area.specs.Given.{Ranged, Work, Place};
ghost use Rattle.flaand.specs.Given.{HalfAnds};
ghost use Rattle.flaand.specs.HLaws.{z_term, hashes_at, masked_at};

use area::{Span, Z_LEN};
use block::Block;
use engine::Frame;
use rounds::Mail;
use share::Delta;

// The bytes before the first item of a message, and of an item: a bit and a Block.
const COUNT: usize = 8;

const ITEM: usize = 17;

// ---- e and u are sent, the others' e are kept

// e at position t.
fn e_at(recs: &[u8], zs: &[u8], rows: &[u8], f: Frame, t: usize) -> bool
    requires { (HalfAnds f recs.now rows.now zs.now) × (t < Plan.leaky f.l) }
    ensures { result ≡ F.e f recs.now zs.now t }
{
    block::bit(zs, t * Z_LEN) ^ share::bit_at(recs, area::r_at(f, t))
}

// The item for party k at position t: u stands in the row of LEAKY.
fn put_item(out: &mut [u8], recs: &[u8], rows: &[u8], zs: &[u8], f: Frame, k: usize, t: usize)
    requires out_len { (length out.old ≡ 17) × (k < f.n) }
    requires half_ands { (HalfAnds f recs.now rows.now zs.now) × (t < Plan.leaky f.l) }
    ensures { out.new ≡ bit_block (F.e f recs.now zs.now t)
        (R.u_at f rows.now k t) }
{
    let e = e_at(recs, zs, rows, f, t);
    let u = block::load(rows, area::entry_at(f, t, k));
    encode::put_bit_block(out, e, u);
}

// The message to party k.
fn put_message(out: &mut [u8], recs: &[u8], rows: &[u8], zs: &[u8], f: Frame, k: usize)
    requires out_len { (length out.old ≡ 8 + Plan.leaky f.l * 17) × (k < f.n) }
    requires half_ands { HalfAnds f recs.now rows.now zs.now }
    ensures { out.new ≡ F.flaand_msg f recs.now rows.now zs.now k }
{
    let count = plan::leaky(f.l);
    encode::put_count(&mut out[..COUNT], count);
    lists::write_rows(
        &mut out[COUNT..],
        count,
        ITEM,
        |row, t| put_item(row, recs, rows, zs, f, k, t),
    );
}

// The messages to all others.
fn write_all(out: &mut [u8], recs: &[u8], rows: &[u8], zs: &[u8], f: Frame)
    requires out_len { length out.old ≡ (f.n - 1) * (8 + Plan.leaky f.l * 17) }
    requires half_ands { HalfAnds f recs.now rows.now zs.now }
    ensures { out.new ≡ to_others f.n f.i
        (F.flaand_msg f recs.now rows.now zs.now) }
{
    let len = COUNT + plan::leaky(f.l) * ITEM;
    rounds::to_others(out, f, len, |row, k| put_message(row, recs, rows, zs, f, k));
}

// The bits e of the message m, as many as the row has bytes.
fn put_es(row: &mut [u8], m: &[u8])
    requires { 8 + length row.old * 17 ≤ length m.now }
    ensures { row.new ≡ tab (length row.old) (λ t. num (odd (get_or m.now (8 + t * 17) 0))) }
{
    for t in 0..row.len() {
        row[t] = block::bit_byte(block::bit(m, COUNT + t * ITEM));
    }
}

// The bits e of party k.
fn keep_e_row(row: &mut [u8], incoming: &[u8], mail: Mail, f: Frame, k: usize)
    requires k_lt_n { (k < f.n) × (f.i ≢ k) }
    requires arrived { Arrived f (8 + length row.old * 17) incoming.now mail }
    ensures { row.new ≡ tab (length row.old) (λ t. num (F.e_told (letter incoming.now mail) k t)) }
{
    put_es(row, rounds::letter(incoming, mail, k));
}

// The bits e of all others.
fn keep_es(section: &mut [u8], incoming: &[u8], mail: Mail, f: Frame)
    requires ranged { (Ranged f) × (length section.old ≡ f.n * Plan.leaky f.l) }
    requires arrived { Arrived f (8 + Plan.leaky f.l * 17) incoming.now mail }
    ensures { section.new ≡ F.e_rows f
        (letter incoming.now mail) }
{
    rounds::put_rows(
        section,
        f,
        plan::leaky(f.l),
        |row, k| keep_e_row(row, incoming, mail, f, k),
    );
}

// ---- h

// What a party of e adds: the MAC and the key of z. The key of z is r's, plus delta where e is 1.
fn term(recs: &[u8], at: usize, k: usize, delta: Delta, e: bool) -> Block
    requires { (k < 8) × (at + record_len (k + 1) ≤ length recs.now) }
    ensures { result ≡ blocks.op (mac_at recs.now at k)
        (blocks.op (key_at recs.now at k) (sel blocks e delta.0)) }
{
    let key = share::key_at(recs, at, k).z_key(delta.times(e));
    share::mac_at(recs, at, k).0.xor(key.0)
}

// The same of party k at position t. The r record is at `at`.
fn z_term(
    recs: &[u8],
    at: usize,
    delta: Delta,
    incoming: &[u8],
    mail: Mail,
    f: Frame,
    t: usize,
    k: usize,
) -> Block
    requires n_bound { (f.n ≤ 8) × (k < f.n) × (f.i ≢ k) × (t < Plan.leaky f.l) }
    requires n_in_bounds { at + record_len f.n ≤ length recs.now }
    requires arrived { Arrived f (8 + Plan.leaky f.l * 17) incoming.now mail }
    ensures { result ≡ z_term recs.now at delta.0 (letter incoming.now mail) t k }
{
    let e = block::bit(rounds::letter(incoming, mail, k), COUNT + t * ITEM);
    term(recs, at, k, delta, e)
}

// The same of all others.
fn z_terms(
    recs: &[u8],
    at: usize,
    delta: Delta,
    incoming: &[u8],
    mail: Mail,
    f: Frame,
    t: usize,
) -> Block
    requires n_bound { (f.n ≤ 8) × (t < Plan.leaky f.l) }
    requires n_in_bounds { at + record_len f.n ≤ length recs.now }
    requires arrived { Arrived f (8 + Plan.leaky f.l * 17) incoming.now mail }
    ensures { result ≡ others blocks f.i f.n (z_term recs.now at delta.0
        (letter incoming.now mail) t) }
{
    algebra::sum_others(
        f.i,
        f.n,
        |k| z_term(recs, at, delta, incoming, mail, f, t, k),
    )
}

// The u that party k sent at position t.
fn u_told(incoming: &[u8], mail: Mail, f: Frame, k: usize, t: usize) -> Block
    requires k_lt_n { (k < f.n) × (f.i ≢ k) × (t < Plan.leaky f.l) }
    requires arrived { Arrived f (8 + Plan.leaky f.l * 17) incoming.now mail }
    ensures { result ≡ F.u_told (letter incoming.now mail) k t }
{
    block::load(rounds::letter(incoming, mail, k), COUNT + t * ITEM + 1)
}

// The sum of the others' u at position t.
fn u_sum(incoming: &[u8], mail: Mail, f: Frame, t: usize) -> Block
    requires t_bound { t < Plan.leaky f.l }
    requires arrived { Arrived f (8 + Plan.leaky f.l * 17) incoming.now mail }
    ensures { result ≡ others blocks f.i f.n
        (λ k. F.u_told (letter incoming.now mail) k t) }
{
    algebra::sum_others(f.i, f.n, |k| u_told(incoming, mail, f, k, t))
}

// The sums of G over the x keys and over the x MACs.
fn hashes(recs: &[u8], rows: &[u8], zs: &[u8], f: Frame, t: usize) -> Block
    requires { (HalfAnds f recs.now rows.now zs.now) × (t < Plan.leaky f.l) }
    ensures { result ≡ hashes_at f rows.now zs.now t }
{
    let key_hash = block::load(rows, area::leaky_at(f, t) + 16);
    key_hash.xor(block::load(zs, t * Z_LEN + 1))
}

// The received u and phi where x is 1, and delta where z is 1. u and phi are added first and multiplied by x once, behind the loop: in the
// loop, or for a Block that is just loaded, the compiler makes a branch of the product, and x is secret.
fn masked(
    rows: &[u8],
    zs: &[u8],
    x: bool,
    delta: Delta,
    incoming: &[u8],
    mail: Mail,
    f: Frame,
    t: usize,
) -> Block
    requires in_range { (InRange f.n f.l) × (t < Plan.leaky f.l) × (length rows.now ≡ Plan.leaky f.l * leaky_len f.n)
        × (length zs.now ≡ Plan.leaky f.l * 17) }
    requires arrived { Arrived f (8 + Plan.leaky f.l * 17) incoming.now mail }
    ensures { result ≡ masked_at f delta.0 x rows.now zs.now
        (letter incoming.now mail) t }
{
    let us = u_sum(incoming, mail, f, t);
    let phi = block::load(rows, area::leaky_at(f, t));
    let z = block::bit(zs, t * Z_LEN);
    us.xor(phi).const_mul(x).xor(delta.times(z).0)
}

// h at position t.
fn h(
    recs: &[u8],
    rows: &[u8],
    zs: &[u8],
    delta: Delta,
    incoming: &[u8],
    mail: Mail,
    f: Frame,
    t: usize,
) -> Block
    requires half_ands { (HalfAnds f recs.now rows.now zs.now) × (t < Plan.leaky f.l) }
    requires arrived { Arrived f (8 + Plan.leaky f.l * 17) incoming.now mail }
    ensures { result ≡ F.h f delta.0 recs.now rows.now zs.now
        (letter incoming.now mail) t }
{
    let x = share::bit_at(recs, area::x_at(f, t));
    let told = z_terms(recs, area::r_at(f, t), delta, incoming, mail, f, t);
    told.xor(hashes(recs, rows, zs, f, t))
        .xor(masked(rows, zs, x, delta, incoming, mail, f, t))
}

// The same from the sections of the work area.
fn h_at(
    work: &[u8],
    recs: Span,
    rows: Span,
    zs: Span,
    delta: Delta,
    incoming: &[u8],
    mail: Mail,
    f: Frame,
    t: usize,
) -> Block
    requires work { (Work f work.now) × (t < Plan.leaky f.l) }
    requires place { (Place f BITS recs.0 recs.1) × (Place f LEAKY rows.0 rows.1) × (Place f ZS zs.0 zs.1) }
    requires arrived { Arrived f (8 + Plan.leaky f.l * 17) incoming.now mail }
    ensures { result ≡ F.h f delta.0 (at f BITS work.now) (at f LEAKY work.now) (at f ZS work.now)
        (letter incoming.now mail) t }
{
    h(
        &work[recs.0..recs.1],
        &work[rows.0..rows.1],
        &work[zs.0..zs.1],
        delta,
        incoming,
        mail,
        f,
        t,
    )
}

// Keeps h of every position in HS.
fn keep_hs(work: &mut [u8], incoming: &[u8], mail: Mail, f: Frame)
    requires work { Work f work.old }
    requires arrived { Arrived f (8 + Plan.leaky f.l * 17) incoming.now mail }
    ensures { work.new ≡ keep f HS (F.hs f (Table.delta f work.old) (at f BITS work.old)
        (at f LEAKY work.old) (at f ZS work.old) (letter incoming.now mail)) work.old }
{
    let delta = area::delta(work, f);
    let recs = area::place(f, area::BITS);
    let rows = area::place(f, area::LEAKY);
    let zs = area::place(f, area::ZS);
    let hs = area::section_at(f, area::HS);
    for t in 0..plan::leaky(f.l) {
        let b = h_at(work, recs, rows, zs, delta, incoming, mail, f, t);
        let a = hs + t * 16;
        let e = a + 16;
        block::store(&mut work[a..e], b);
    }
}

// ---- the round

// The bits e of all others, into ES.
fn hold_es(work: &mut [u8], incoming: &[u8], mail: Mail, f: Frame)
    requires work { Work f work.old }
    requires arrived { Arrived f (8 + Plan.leaky f.l * 17) incoming.now mail }
    ensures { work.new ≡ keep f ES (F.e_rows f (letter incoming.now mail)) work.old }
{
    let p = area::place(f, area::ES);
    keep_es(&mut work[p.0..p.1], incoming, mail, f);
}

// What is received: the bits e, and own h. Neither is made from the other's section.
pub fn keep(work: &mut [u8], incoming: &[u8], mail: Mail, f: Frame)
    requires work { Work f work.old }
    requires arrived { Arrived f (8 + Plan.leaky f.l * 17) incoming.now mail }
    ensures { work.new ≡ keep f HS (F.hs f (Table.delta f work.old) (at f BITS work.old)
        (at f LEAKY work.old) (at f ZS work.old) (letter incoming.now mail))
        (keep f ES (F.e_rows f (letter incoming.now mail)) work.old) }
{
    hold_es(work, incoming, mail, f);
    keep_hs(work, incoming, mail, f);
}

// The messages.
pub fn write(out: &mut [u8], work: &[u8], f: Frame)
    requires work { Work f work.now }
    requires out_len { length out.old ≡ (f.n - 1) * msg_len f.n f.l FLAAND }
    ensures { out.new ≡ to_others f.n f.i
        (F.flaand_msg f (at f BITS work.now) (at f LEAKY work.now) (at f ZS work.now)) }
{
    let recs = area::section(work, f, area::BITS);
    let rows = area::section(work, f, area::LEAKY);
    let zs = area::section(work, f, area::ZS);
    write_all(out, recs, rows, zs, f);
}
