// A session as its record has it, and the values that are drawn from its seed (docs/VECTORS.md).
ghost use Rattle.std.specs.Prelude.{◌≤◌};

use crate::table::{ALPHA, BETA, BITS, INPUTS, STRINGS, Table};
use blake3::Digest;
use block::Block;
use share::LABEL;

// How many boxes, results and leaky ANDs; the seed; and where rules, hashes and ends start.
#[derive(Clone, Copy)]
pub struct Play {
    pub n: usize,
    pub l: usize,
    pub leaky: usize,
    pub seed: u64,
    pub rules: usize,
    pub hashes: usize,
    pub ends: usize,
}

// The record at `at`.
pub(crate) fn parse(t: &Table, at: usize) -> Play
    requires { at ≤ 2000000000 }
{
    let w = crate::table::word(t, at);
    let n = crate::table::field(w, 4);
    let l = crate::table::field(w, 5);
    let leaky = crate::table::product(l, crate::table::field(w, 6));
    let rules = at + 16;
    let hashes = rules + 8 * crate::table::field(w, 7);
    let rows = if n == 2 { 480 * n } else { 736 * n };
    Play {
        n,
        l,
        leaky,
        seed: crate::table::word(t, at + 8),
        rules,
        hashes,
        ends: crate::table::sum(hashes, rows),
    }
}

// ---- drawing

pub(crate) fn draw(seed: u64, kind: u64, j: usize, k: usize, q: usize) -> Digest {
    let high = (q as u64) | (kind << 32) | ((j as u64) << 40) | ((k as u64) << 48);
    blake3::hash_block(Block(seed, high))
}

pub(crate) fn draw_bit(seed: u64, kind: u64, j: usize, k: usize, q: usize) -> u8 {
    block::bit_byte(draw(seed, kind, j, k, q).bit())
}

pub(crate) fn strings(t: &mut Table, seed: u64) {
    for q in 0..180 {
        crate::table::put_digest(t, STRINGS + 32 * q, draw(seed, 7, 0, 0, q));
    }
}

// The bytes of a record among n boxes.
pub(crate) fn record_len(n: usize) -> usize {
    share::lent_len(n.min(8))
}

// j's entry for k in its record q among n boxes, which starts at `at`; with its own entry, which is zero, the head. Kind 8: an entry is
// drawn whole.
fn entry(t: &mut Table, at: usize, seed: u64, kind: u64, n: usize, j: usize, k: usize, q: usize) {
    let bit = draw(seed, kind, j, j, q).bit();
    let d = draw(seed, kind, j, k, q);
    let mut mac = Block(0, 0);
    let mut key = Block(0, 0);
    if j == k {
        crate::table::put_head(t, at, n, j, bit);
    } else if kind == 8 {
        mac = d.block();
        key = d.second();
    } else {
        mac = d.block().xor(draw(seed, 0, k, 0, 0).block().const_mul(bit));
        key = draw(seed, kind, k, j, q).block();
    }
    let e = k.min(7);
    let base = crate::table::sum(at, LABEL);
    crate::table::put_block(t, crate::table::sum(base, share::mac_off(e)), mac);
    crate::table::put_block(t, crate::table::sum(base, share::key_off(e)), key);
}

// `count` records of n entries.
pub(crate) fn records(
    t: &mut Table,
    from: usize,
    seed: u64,
    kind: u64,
    n: usize,
    j: usize,
    count: usize,
) {
    if n == 0 {
        return;
    }
    let size = record_len(n);
    let entries = crate::table::product(count, n);
    for q in 0..entries {
        let at = crate::table::sum(from, crate::table::product(q / n, size));
        entry(t, at, seed, kind, n, j, q % n, q / n);
    }
}

fn masks(t: &mut Table, seed: u64, j: usize, n: usize, leaky: usize) {
    if leaky == 0 {
        return;
    }
    let count = crate::table::product(n, leaky).min(600);
    for q in 0..count {
        let mask = draw_bit(seed, 3, j, q / leaky, q % leaky);
        crate::table::put(t, INPUTS + 400 + q, mask);
    }
}

// Delta and the seeds of box j.
fn seeds(t: &mut Table, seed: u64, j: usize) {
    crate::table::put_block(t, INPUTS, draw(seed, 0, j, 0, 0).block());
    crate::table::put_digest(t, INPUTS + 16, draw(seed, 1, j, 0, 0));
    for k in 0..8 {
        crate::table::put_digest(t, INPUTS + 48 + 32 * k, draw(seed, 2, j, k, 0));
    }
}

// All inputs of box j.
pub(crate) fn inputs(t: &mut Table, p: Play, j: usize) {
    let seed = p.seed;
    let n = p.n;
    let l = p.l;
    seeds(t, seed, j);
    masks(t, seed, j, n, p.leaky);
    records(t, INPUTS + ALPHA, seed, 5, n, j, l);
    records(t, INPUTS + BETA, seed, 6, n, j, l);
    let bits = crate::table::sum(crate::table::product(3, p.leaky), 160);
    records(t, INPUTS + BITS, seed, 4, n, j, bits);
}
