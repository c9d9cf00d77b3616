// Shares of authenticated bits: the types Delta, Mac and Key with the sums that are allowed, and share records in lent bytes.
// From src/mpc/data_types.rs of polytune.
#![tactic(auto)]

ghost use Rattle.share.specs.Lent as Lent;
ghost use Rattle.share.specs.Layout as Layout;
ghost use Rattle.std.specs.Prelude.{◌≡◌, ◌++◌, ◌+◌, ◌*◌, ◌<◌, ◌≤◌, length, get_or, drop};
ghost use Rattle.algebra.specs.Group.{XorGroup, sel, odd};
ghost use Rattle.block.specs.Block.{block_at, bytes_of, eq_block};
ghost use Rattle.block.specs.Group.{blocks};
ghost use Rattle.share.specs.Layout.{head_of};
ghost use Rattle.share.specs.Record.{record_len, mac_off, key_off, bit_at, mac_at, key_at};
ghost use Rattle.share.specs.Share.{share_at, shares, entry_bytes, record_of};
ghost use Rattle.share.specs.Lent.{lent_len, lent_head, lent_at};

use block::Block;

// The global key of one party, which authenticates the others' bits to it.
#[derive(Clone, Copy)]
pub struct Delta(pub Block);

// A party's MAC of its bit for another party.
#[derive(Clone, Copy)]
pub struct Mac(pub Block);

// A party's key of another party's bit.
#[derive(Clone, Copy)]
pub struct Key(pub Block);

impl Delta {
    // bit times delta
    pub fn times(self, bit: bool) -> Delta
        ensures { result.0 ≡ sel blocks bit self.0 }
    {
        Delta(self.0.const_mul(bit))
    }
}

impl Mac {
    pub fn xor(self, o: Mac) -> Mac
        ensures { result.0 ≡ blocks.op self.0 o.0 }
    {
        Mac(self.0.xor(o.0))
    }

    // bit times the MAC
    fn times(self, bit: bool) -> Mac
        ensures { result.0 ≡ sel blocks bit self.0 }
    {
        Mac(self.0.const_mul(bit))
    }

    // a MAC plus a delta is a key
    pub fn xor_delta(self, d: Delta) -> Key
        ensures { result.0 ≡ blocks.op self.0 d.0 }
    {
        Key(self.0.xor(d.0))
    }
}

impl Key {
    pub fn xor(self, o: Key) -> Key
        ensures { result.0 ≡ blocks.op self.0 o.0 }
    {
        Key(self.0.xor(o.0))
    }

    // bit times the key
    fn times(self, bit: bool) -> Key
        ensures { result.0 ≡ sel blocks bit self.0 }
    {
        Key(self.0.const_mul(bit))
    }

    // a key plus a delta is a MAC
    pub fn xor_delta(self, d: Delta) -> Mac
        ensures { result.0 ≡ blocks.op self.0 d.0 }
    {
        Mac(self.0.xor(d.0))
    }

    // "in `flaand` z's key, a key plus a delta, stays a key"
    pub fn z_key(self, d: Delta) -> Key
        ensures { result.0 ≡ blocks.op self.0 d.0 }
    {
        Key(self.0.xor(d.0))
    }
}

// What a record has of one party: the MAC for it, and the key of its bit.
#[derive(Clone, Copy)]
pub struct Entry {
    pub mac: Mac,
    pub key: Key,
}

impl Entry {
    // That of the own number.
    pub fn zero() -> Entry
        ensures { (result.mac.0 ≡ blocks.nil) × (result.key.0 ≡ blocks.nil) }
    {
        Entry {
            mac: Mac(Block::zero()),
            key: Key(Block::zero()),
        }
    }

    pub fn xor(self, o: Entry) -> Entry
        ensures { (result.mac.0 ≡ blocks.op self.mac.0 o.mac.0) × (result.key.0 ≡ blocks.op self.key.0 o.key.0) }
    {
        let mac = self.mac.xor(o.mac);
        let key = self.key.xor(o.key);
        Entry { mac, key }
    }

    // bit times the entry
    pub fn times(self, bit: bool) -> Entry
        ensures { (result.mac.0 ≡ sel blocks bit self.mac.0) × (result.key.0 ≡ sel blocks bit self.key.0) }
    {
        let mac = self.mac.times(bit);
        let key = self.key.times(bit);
        Entry { mac, key }
    }
}

// The bytes of a record's head, and of a party's entry.
const HEAD: usize = 1;

pub const ENTRY: usize = 32;

// The bytes of a record among n parties.
pub fn record_len(n: usize) -> usize
    requires { n ≤ 8 }
    ensures { result ≡ record_len n }
{
    HEAD + ENTRY * n
}

// Where party k's MAC starts in a record.
pub fn mac_off(k: usize) -> usize
    requires { k < 8 }
    ensures { result ≡ mac_off k }
{
    HEAD + ENTRY * k
}

// Where party k's key starts in a record.
pub fn key_off(k: usize) -> usize
    requires { k < 8 }
    ensures { result ≡ key_off k }
{
    HEAD + 16 + ENTRY * k
}

// The MAC for k in the record at `at`.
pub fn mac_at(s: &[u8], at: usize, k: usize) -> Mac
    requires { (k < 8) × (at + record_len (k + 1) ≤ length s.now) }
    ensures { result.0 ≡ mac_at s.now at k }
{
    Mac(block::load(s, at + mac_off(k)))
}

// The key of k in the record at `at`.
pub fn key_at(s: &[u8], at: usize, k: usize) -> Key
    requires { (k < 8) × (at + record_len (k + 1) ≤ length s.now) }
    ensures { result.0 ≡ key_at s.now at k }
{
    Key(block::load(s, at + key_off(k)))
}

// The entry of k in the record at `at`.
pub fn entry_at(s: &[u8], at: usize, k: usize) -> Entry
    requires { (k < 8) × (at + record_len (k + 1) ≤ length s.now) }
    ensures { (result.mac.0 ≡ mac_at s.now at k) × (result.key.0 ≡ key_at s.now at k) }
{
    let mac = mac_at(s, at, k);
    let key = key_at(s, at, k);
    Entry { mac, key }
}

// The bit of the record at `at`.
pub fn bit_at(s: &[u8], at: usize) -> bool
    requires { at < length s.now }
    ensures { result ≡ bit_at s.now at }
{
    block::bit(s, at)
}

// Writes an entry: the MAC, then the key.
pub fn put_entry(out: &mut [u8], x: Entry)
    requires { length out.old ≡ Layout.ENTRY }
    ensures { out.new ≡ bytes_of x.mac.0 ++ bytes_of x.key.0 }
{
    let mac = x.mac;
    let key = x.key;
    block::store(&mut out[0..16], mac.0);
    block::store(&mut out[16..ENTRY], key.0);
}

// Writes the entry of party `of` in a record of party i: zero where it is the own one.
pub fn put_entry_of(out: &mut [u8], i: usize, of: usize, x: Entry)
    requires { length out.old ≡ Layout.ENTRY }
    ensures { out.new ≡ entry_bytes i of x.mac.0 x.key.0 }
{
    if i == of {
        put_entry(out, Entry::zero());
    } else {
        put_entry(out, x);
    }
}

// Writes the head of a record: the bit.
pub fn put_head(out: &mut [u8], bit: bool)
    requires { mac_off 0 ≤ length out.old }
    ensures { out.new ≡ head_of bit ++ drop (mac_off 0) out.old }
{
    out[0] = block::bit_byte(bit);
}

// ---- records with a label

// The bytes of a label, and of the head that has it: the bit and the label.
pub const LABEL: usize = 31;

pub const LENT_HEAD: usize = 32;

// The bytes of a record among n parties as it is lent and given back.
pub fn lent_len(n: usize) -> usize
    requires { n ≤ 8 }
    ensures { result ≡ lent_len n }
{
    LENT_HEAD + ENTRY * n
}

// Writes the head of party i's record among n parties: the bit, n, the own number, zeros.
pub fn put_lent_head(out: &mut [u8], n: usize, i: usize, bit: bool)
    requires { (1 + Lent.LABEL ≤ length out.old) × (n ≤ 8) × (i < n) }
    ensures { out.new ≡ lent_head n i bit ++ drop (1 + Lent.LABEL) out.old }
{
    out[0..LENT_HEAD].fill(0);
    out[0] = block::bit_byte(bit);
    out[1] = n as u8;
    out[2] = i as u8;
}

// Writes what is kept of the record at `at` of s: party i's record among n parties, without the label.
pub fn keep_record(out: &mut [u8], s: &[u8], at: usize, n: usize, i: usize)
    requires n_bound { (n ≤ 8) × (length out.old ≡ record_len n) }
    requires n_in_bounds { at + lent_len n ≤ length s.now }
    ensures { out.new ≡ record_of n i (lent_at s.now at) }
{
    let entries = at + LABEL;
    for k in 0..n {
        let a = mac_off(k);
        let e = a + ENTRY;
        put_entry_of(&mut out[a..e], i, k, entry_at(s, entries, k));
    }
    put_head(out, bit_at(s, at));
}

// ---- the sum of two records, part by part: the record at `a` of s and the one at `b` of t

// The bit.
pub fn sum_bit(s: &[u8], a: usize, t: &[u8], b: usize) -> bool
    requires { (a < length s.now) × (b < length t.now) }
    ensures { result ≡ (shares.op (share_at s.now a) (share_at t.now b)).bit }
{
    bit_at(s, a) ^ bit_at(t, b)
}

// The MAC for k.
pub fn sum_mac(s: &[u8], a: usize, t: &[u8], b: usize, k: usize) -> Mac
    requires { (k < 8) × (a + record_len (k + 1) ≤ length s.now) × (b + record_len (k + 1) ≤ length t.now) }
    ensures { result.0 ≡ (shares.op (share_at s.now a) (share_at t.now b)).mac k }
{
    mac_at(s, a, k).xor(mac_at(t, b, k))
}

// The key of k.
pub fn sum_key(s: &[u8], a: usize, t: &[u8], b: usize, k: usize) -> Key
    requires { (k < 8) × (a + record_len (k + 1) ≤ length s.now) × (b + record_len (k + 1) ≤ length t.now) }
    ensures { result.0 ≡ (shares.op (share_at s.now a) (share_at t.now b)).key k }
{
    key_at(s, a, k).xor(key_at(t, b, k))
}

// Whether the MAC at `mac_at` of k's message m is the key of k of that sum, plus delta where the bit at `bit_at` is 1.
pub fn mac_holds(
    m: &[u8],
    bit_at: usize,
    mac_at: usize,
    s: &[u8],
    a: usize,
    t: &[u8],
    b: usize,
    k: usize,
    delta: Delta,
) -> bool
    requires bit_at_in_bounds { (bit_at < length m.now) × (mac_at + 16 ≤ length m.now) }
    requires k_bound { (k < 8) × (a + record_len (k + 1) ≤ length s.now) × (b + record_len (k + 1) ≤ length t.now) }
    ensures { result ≡ eq_block (block_at m.now mac_at) (blocks.op
        ((shares.op (share_at s.now a) (share_at t.now b)).key k)
        (sel blocks (odd (get_or m.now bit_at 0)) delta.0)) }
{
    let key = sum_key(s, a, t, b, k);
    let mac = key.xor_delta(delta.times(block::bit(m, bit_at)));
    block::load(m, mac_at).equals(mac.0)
}
