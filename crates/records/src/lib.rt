// The check of lent share records: a bit byte above 1, a label that isn't as due, an own entry that isn't zero.
// Bits, MACs and keys decide no branch before all records are seen.
#![tactic(auto)]

ghost use Rattle.std.specs.Prelude.{◌≡◌, true, ◌+◌, ◌-◌, ◌*◌, ◌<◌, ◌≤◌, length, get_or, eqb};
ghost use Rattle.lists.specs.All.{all_of};
ghost use Rattle.share.specs.Record.{own_zero};
ghost use Rattle.share.specs.Lent as L;
ghost use Rattle.share.specs.Lent.{lent_len, record_fault, records_fault};
ghost use Rattle.records.specs.Seen.{ored};
ghost use Rattle.refusals.specs.Reason.{code_of};

use block::Block;
use refusals::Reason;
use share::{ENTRY, LABEL, LENT_HEAD};

// Whether the label is that of party i's records among n parties: all of it is looked at.
fn labelled(s: &[u8], at: usize, n: usize, i: usize) -> bool
    requires { (n ≤ 8) × (i < n) × (at + lent_len n ≤ length s.now) }
    ensures { result ≡ L.labelled n i s.now at }
{
    let mut due = [0u8; LENT_HEAD];
    share::put_lent_head(&mut due, n, i, false);
    lists::all_of(LABEL, |k| s[at + (1 + k)] == due[1 + k])
}

// Whether party i's own entry is zero: all of it is looked at.
fn own_zero(s: &[u8], at: usize, i: usize) -> bool
    requires { (i < 8) × (at + lent_len (i + 1) ≤ length s.now) }
    ensures { result ≡ own_zero i s.now (at + L.LABEL) }
{
    let entries = at + LABEL;
    let m = share::mac_at(s, entries, i);
    let k = share::key_at(s, entries, i);
    m.0.equals(Block::zero()) & k.0.equals(Block::zero())
}

// A bit byte above 1, then a label that isn't as due, then an own entry that isn't zero.
fn record_fault(s: &[u8], at: usize, n: usize, i: usize) -> Result<(), Reason>
    requires { (n ≤ 8) × (i < n) × (at + lent_len n ≤ length s.now) }
    ensures { code_of result ≡ record_fault n i s.now at }
{
    if 1 < s[at] {
        return Err(Reason::InvalidBitValue);
    }
    if !labelled(s, at, n, i) {
        return Err(Reason::WrongLabel);
    }
    if !own_zero(s, at, i) {
        return Err(Reason::ConversionErr);
    }
    Ok(())
}

// ORs into e what of s, from `at` on, differs from the bytes that are due, byte by byte: the compiler takes sixteen at a time, since it
// reads all before it writes to e.
fn or_apart(e: &mut [u8; ENTRY], s: &[u8], at: usize, due: &[u8; ENTRY])
    requires { at + ENTRY ≤ length s.now }
    ensures { e.new ≡ ored e.old s.now at due.now }
{
    let mut all = *e;
    for k in 0..ENTRY {
        all[k] = all[k] | (s[at + k] ^ due[k]);
    }
    *e = all;
}

// Whether all bytes are zero.
fn zeros(s: &[u8]) -> bool
    ensures { result ≡ all_of (length s.now) (λ k. eqb (get_or s.now k 0) 0) }
{
    lists::all_of(s.len(), |k| s[k] == 0)
}

// Whether no record has a fault, by the OR of the heads, where they differ from what is due, and of the own entries: nothing is decided
// before all are seen.
fn none_faulty(s: &[u8], n: usize, i: usize, count: usize) -> bool
    requires n_bound { (n ≤ 8) × (i < n) }
    requires n_in_bounds { count * lent_len n ≤ length s.now }
    ensures { result ≡ true → records_fault n i s.now count ≡ 0 }
{
    let len = share::lent_len(n);
    let own = LABEL + share::mac_off(i);
    let mut due = [0u8; LENT_HEAD];
    share::put_lent_head(&mut due, n, i, false);
    let none = [0u8; ENTRY];
    let mut heads = [0u8; LENT_HEAD];
    let mut e = [0u8; ENTRY];
    for t in 0..count {
        let at = t * len;
        or_apart(&mut heads, s, at, &due);
        or_apart(&mut e, s, at + own, &none);
    }
    (heads[0] <= 1) & zeros(&heads[1..]) & zeros(&e)
}

// The first fault of party i's `count` records among n parties, record by record.
fn first_fault(s: &[u8], n: usize, i: usize, count: usize) -> Result<(), Reason>
    requires n_bound { (n ≤ 8) × (i < n) }
    requires n_in_bounds { count * lent_len n ≤ length s.now }
    ensures { code_of result ≡ records_fault n i s.now count }
{
    let len = share::lent_len(n);
    for t in 0..count {
        record_fault(s, t * len, n, i)?;
    }
    Ok(())
}

// The same. Records are looked at one by one only where there is a fault.
pub fn check_records(s: &[u8], n: usize, i: usize, count: usize) -> Result<(), Reason>
    requires n_bound { (n ≤ 8) × (i < n) }
    requires n_in_bounds { count * lent_len n ≤ length s.now }
    ensures { code_of result ≡ records_fault n i s.now count }
{
    if none_faulty(s, n, i, count) {
        return Ok(());
    }
    first_fault(s, n, i, count)
}
