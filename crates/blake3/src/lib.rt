// BLAKE3, unkeyed, of any length: the tree over the chunks, and the forms of the hash that the rounds use.
// From the BLAKE3 specification, with the names of the authors' reference_impl.rs; `hash128` is what `hash_vec` keeps of the hash.
//
// One tree serves two kinds of list: bytes that lie side by side (stride 1), and the first bytes of items of `stride` bytes behind the 8
// bytes of a count (echoes 7 and 16), which are gathered chunk by chunk. Of the first kind four whole chunks are hashed at once: the crate
// blake3_chunks.
#![tactic(auto)]

ghost use Rattle.std.specs.Prelude.{◌≡◌, ◌+◌, ◌-◌, ◌*◌, ◌/◌, ◌^◌, ◌<◌, ◌≤◌, length, get_or};
ghost use Rattle.lists.specs.Sect.{get};
ghost use Rattle.lists.specs.Same.{same?};
ghost use Rattle.algebra.specs.Group.{odd};
ghost use Rattle.block.specs.Block.{block_at, bytes_of};
ghost use Rattle.blake3_node.specs.Node as N;
ghost use Rattle.blake3_chunks.specs.Chunks as C;
ghost use Rattle.blake3.specs.Tree as T;
ghost use Rattle.blake3.specs.TreeLaws.{Largest};
ghost use Rattle.blake3.specs.Firsts.{firsts};

use blake3_chunks::WINDOW;
use blake3_core::{IV, compress};
use blake3_node::{CHUNK_END, CHUNK_LEN, CHUNK_START, ROOT};
use block::Block;

// How many chunks n bytes take.
fn chunks(n: usize) -> u64
    requires { N.CHUNK_LEN < n }
    ensures { result ≡ T.chunks n }
{
    n.div_ceil(CHUNK_LEN) as u64
}

// The largest power of two below n.
fn left_chunks(n: u64) -> u64
    requires { (1 < n) × (n < 2 ^ 63) }
    ensures { Largest n result }
{
    n.next_power_of_two() / 2
}

// The byte at place i of `firsts stride s`.
fn first(s: &[u8], stride: usize, i: usize) -> u8
    requires { (0 < stride) × (i < length (firsts stride s.now)) }
    ensures { result ≡ get_or (firsts stride s.now) i 0 }
{
    if i < 8 { s[i] } else { s[8 + (i - 8) * stride] }
}

// A chunk of a list that lies scattered.
fn gathered(s: &[u8], stride: usize, from: usize, len: usize, t: u64, f: u32) -> [u32; 8]
    requires stride_nonzero { (0 < stride) × (from + len ≤ length (firsts stride s.now)) }
    requires len_bound { len ≤ N.CHUNK_LEN }
    requires f_bound { f < 16 }
    ensures { result ≡ N.chunk (get from len (firsts stride s.now)) t f }
{
    let mut b = [0u8; CHUNK_LEN];
    for i in 0..len {
        b[i] = first(s, stride, from + i);
    }
    blake3_node::chunk(&b[..len], t, f)
}

// The len bytes from `from` on of `firsts stride s`, at most a chunk.
fn leaf(s: &[u8], stride: usize, from: usize, len: usize, t: u64, f: u32) -> [u32; 8]
    requires stride_nonzero { (0 < stride) × (from + len ≤ length (firsts stride s.now)) }
    requires len_bound { len ≤ N.CHUNK_LEN }
    requires f_bound { f < 16 }
    ensures { result ≡ N.chunk (get from len (firsts stride s.now)) t f }
{
    if stride == 1 {
        let e = from + len;
        blake3_node::chunk(&s[from..e], t, f)
    } else {
        gathered(s, stride, from, len, t, f)
    }
}

// The four whole chunks from `from` on.
fn four(s: &[u8], from: usize, t: u64, f: u32) -> [u32; 8]
    requires from_in_bounds { from + C.WINDOW ≤ length s.now }
    requires t_bound { t + C.LANES < 2 ^ 64 }
    requires f_bound { f < 16 }
    ensures { result ≡ T.tree (get from C.WINDOW s.now) t f }
{
    let e = from + WINDOW;
    blake3_chunks::four(&s[from..e], t, f)
}

// The tree over the len bytes from `from` on of `firsts stride s`; t is the number of the first chunk, and f is ROOT at the top, else 0.
fn tree(s: &[u8], stride: usize, from: usize, len: usize, t: u64, f: u32) -> [u32; 8]
    requires stride_nonzero { (0 < stride) × (from + len ≤ length (firsts stride s.now)) }
    requires len_bound { t + T.chunks len < 2 ^ 64 }
    requires f_bound { f < 16 }
    ensures { result ≡ T.tree (get from len (firsts stride s.now)) t f }
{
    if len <= CHUNK_LEN {
        return leaf(s, stride, from, len, t, f);
    }
    if stride == 1 && len == WINDOW {
        return four(s, from, t, f);
    }
    let k = left_chunks(chunks(len));
    let n = CHUNK_LEN * (k as usize);
    let rest = len - n;
    let l = tree(s, stride, from, n, t, 0);
    let r = tree(s, stride, from + n, rest, t + k, 0);
    blake3_node::parent(&l, &r, f)
}

// Two words as one of 64 bits.
fn joined(low: u32, high: u32) -> u64
    ensures { result ≡ low + high * 2 ^ 32 }
{
    low as u64 | (high as u64) << 32
}

// The hash as eight words.
#[derive(Clone, Copy)]
pub struct Digest(pub [u32; 8]);

impl Digest {
    // Its words k to k + 3.
    fn words(self, k: usize) -> Block
        requires { k < 5 }
        ensures { result ≡ block_at (T.bytes self.0) (4 * k) }
    {
        let h = self.0;
        Block(joined(h[k], h[k + 1]), joined(h[k + 2], h[k + 3]))
    }

    // Its first 16 bytes.
    pub fn block(self) -> Block
        ensures { result ≡ block_at (T.bytes self.0) 0 }
    {
        self.words(0)
    }

    // Its last 16 bytes.
    pub fn second(self) -> Block
        ensures { result ≡ block_at (T.bytes self.0) 16 }
    {
        self.words(4)
    }

    // Document 01's H: the lowest bit of byte 31.
    pub fn bit(self) -> bool
        ensures { result ≡ odd (get_or (T.bytes self.0) 31 0) }
    {
        (self.0[7] >> 24) % 2 == 1
    }

    // Its 32 bytes.
    pub fn store(self, out: &mut [u8])
        requires { length out.old ≡ 32 }
        ensures { out.new ≡ T.bytes self.0 }
    {
        block::store(&mut out[0..16], self.block());
        block::store(&mut out[16..32], self.second());
    }

    // Whether it stands in s at `at`.
    pub fn is(self, s: &[u8], at: usize) -> bool
        requires { at + 32 ≤ length s.now }
        ensures { result ≡ same? (get at 32 s.now) (T.bytes self.0) }
    {
        self.block().equals(block::load(s, at)) & self.second().equals(block::load(s, at + 16))
    }
}

// BLAKE3 of s, in words.
pub fn digest_of(s: &[u8]) -> Digest
    ensures { result.0 ≡ T.digest s.now }
{
    Digest(tree(s, 1, 0, s.len(), 0, ROOT))
}

// BLAKE3 of s.
pub fn hash(s: &[u8], out: &mut [u8; 32])
    ensures { out.new ≡ T.hash s.now }
{
    digest_of(s).store(out);
}

// The first 16 bytes of BLAKE3 of s: `hash_vec` of an encoded list.
pub fn hash128(s: &[u8]) -> Block
    ensures { result ≡ block_at (T.hash s.now) 0 }
{
    digest_of(s).block()
}

// The same of the list that has only the first byte of each item of `stride` bytes.
pub fn hash128_firsts(s: &[u8], stride: usize) -> Block
    requires { (0 < stride) × (8 ≤ length s.now) }
    ensures { result ≡ block_at (T.hash (firsts stride s.now)) 0 }
{
    let n = 8 + (s.len() - 8) / stride;
    Digest(tree(s, stride, 0, n, 0, ROOT)).block()
}

// BLAKE3 of a Block's 16 bytes: one compression of its four words, with no bytes in between.
pub fn hash_block(b: Block) -> Digest
    ensures { result.0 ≡ T.digest (bytes_of b) }
{
    let mut m = [0u32; 16];
    m[0] = blake3_core::low(b.0);
    m[1] = blake3_core::high(b.0);
    m[2] = blake3_core::low(b.1);
    m[3] = blake3_core::high(b.1);
    Digest(compress(&IV, &m, 0, 16, CHUNK_START + CHUNK_END + ROOT))
}

// For C: BLAKE3 of s.
#[unsafe(no_mangle)]
pub extern "C" fn nuz_blake3(s: &[u8], out: &mut [u8; 32])
    ensures { out.new ≡ T.hash s.now }
{
    hash(s, out);
}

// For C: BLAKE3 of the 16 bytes of a Block, given as its low and high 64 bits.
#[unsafe(no_mangle)]
pub extern "C" fn nuz_blake3_block(low: u64, high: u64, out: &mut [u8; 32])
    ensures { out.new ≡ T.hash (bytes_of (record { 0 = low; 1 = high })) }
{
    hash_block(Block(low, high)).store(out);
}
