// Honest inputs: those of `oracle gen N L SEED` (oracle/src/session.rs), by the generator SplitMix64.
ghost use Rattle.std.specs.Prelude.{◌+◌, ◌<◌, ◌≤◌};
ghost use Rattle.share.specs.Lent.{LENT_MOST};

use crate::boxes::Play;
use crate::table::{ALPHA, BETA, BITS, BITS_LEN, Room, SHARES_LEN, Table};
use block::Block;
use share::LABEL;

// The bytes of a record among n boxes; where the MAC for k starts in it, and the key of k. No record is longer than LENT_MOST.
pub(crate) fn record_len(n: usize) -> usize
    requires { n ≤ 3 }
    ensures { (1 ≤ result) × (result ≤ LENT_MOST) }
{
    share::lent_len(n)
}

pub(crate) fn mac_off(k: usize) -> usize
    requires { k < 3 }
    ensures { result + 16 ≤ LENT_MOST }
{
    share::mac_off(k) + LABEL
}

pub(crate) fn key_off(k: usize) -> usize
    requires { k < 3 }
    ensures { result + 16 ≤ LENT_MOST }
{
    share::key_off(k) + LABEL
}

// SplitMix64, by its state.
#[derive(Clone, Copy)]
struct Generator(u64);

impl Generator {
    fn word(&mut self) -> u64 {
        self.0 = self.0.wrapping_add(0x9e3779b97f4a7c15);
        let x = self.0;
        let y = (x ^ (x >> 30)).wrapping_mul(0xbf58476d1ce4e5b9);
        let z = (y ^ (y >> 27)).wrapping_mul(0x94d049bb133111eb);
        z ^ (z >> 31)
    }

    fn block(&mut self) -> Block {
        let low = self.word();
        Block(low, self.word())
    }

    // Eight bytes to a word.
    fn fill(&mut self, s: &mut [u8]) {
        let (words, rest) = s.as_chunks_mut::<8>();
        for word in words {
            *word = self.word().to_le_bytes();
        }
        if !rest.is_empty() {
            let last = self.word().to_le_bytes();
            rest.copy_from_slice(&last[..rest.len()]);
        }
    }

    // What each box has alone, but for its delta.
    fn seeds(&mut self, rooms: &mut [Room; 3], p: &Play) {
        let pairs = plan::pairs_len(p.n).min(96);
        let masks = plan::masks_len(p.n, p.l).min(160);
        for i in 0..p.n {
            let inputs = &mut rooms[i].inputs;
            self.fill(&mut inputs.seed);
            self.fill(&mut inputs.pairs[..pairs]);
            let masks = &mut inputs.masks[..masks];
            self.fill(masks);
            for mask in masks {
                *mask %= 2;
            }
        }
    }

    // The key that box k holds of box j's bit, and j's MAC for k, another box; their records start at `at`.
    fn pair(&mut self, rooms: &mut [Room; 3], at: usize, bit: bool, j: usize, k: usize)
        requires { (j < 3) × (k < 3) × (at ≤ 41472) }
    {
        let delta = block::load(&rooms[k].inputs.delta, 0);
        let key = self.block();
        rooms[k].inputs.put(at + key_off(j), key);
        rooms[j]
            .inputs
            .put(at + mac_off(k), key.xor(delta.const_mul(bit)));
    }

    // The records at one position, of all boxes: the heads, the MACs and the others' keys of each bit.
    fn position(&mut self, rooms: &mut [Room; 3], at: usize, n: usize)
        requires { (at ≤ 41472) × (n ≤ 3) }
    {
        let bits = self.word();
        for j in 0..n {
            let bit = (bits >> j) % 2 == 1;
            rooms[j].inputs.put_head(at, n, j, bit);
            for k in 0..n {
                if k != j {
                    self.pair(rooms, at, bit, j, k);
                }
            }
        }
    }

    // A list of `len` bytes of records.
    fn list(&mut self, rooms: &mut [Room; 3], from: usize, len: usize, n: usize)
        requires { (from + len ≤ 41472) × (n ≤ 3) }
    {
        for at in (from..from + len).step_by(record_len(n)) {
            self.position(rooms, at, n);
        }
    }
}

// All boxes' inputs, and r.
pub(crate) fn inputs(t: &mut Table, p: &Play) {
    let n = p.n;
    let l = p.l;
    let mut g = Generator(32 ^ ((n as u64) << 56) ^ ((l as u64) << 32));
    for i in 0..n {
        g.fill(&mut t.rooms[i].inputs.delta);
    }
    g.seeds(&mut t.rooms, p);
    let shares = plan::shares_len(n, l).min(SHARES_LEN);
    g.list(&mut t.rooms, BITS, plan::bits_len(n, l).min(BITS_LEN), n);
    g.list(&mut t.rooms, ALPHA, shares, n);
    g.list(&mut t.rooms, BETA, shares, n);
    let strings = plan::r_due(n, l, plan::PAIR_VER).min(t.strings.len());
    g.fill(&mut t.strings[..strings]);
}
