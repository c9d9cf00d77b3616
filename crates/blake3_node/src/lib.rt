// BLAKE3's nodes: the chaining value of a chunk, of at most 1024 bytes, and that of a parent over two nodes.
// From the BLAKE3 specification, 2.4 and 2.5, with the names of the authors' reference_impl.rs. The tree over the nodes is the crate
// blake3.
#![tactic(auto)]

ghost use Rattle.std.specs.Prelude.{◌≡◌, ◌++◌, ◌+◌, ◌<◌, ◌≤◌, length};
ghost use Rattle.blake3_core.specs.Compress as S;
ghost use Rattle.blake3_node.specs.Node as N;

use blake3_core::{IV, compress};
use word::load;

pub const BLOCK_LEN: usize = 64;

pub const CHUNK_LEN: usize = 1024;

// Flags are different bits, so a sum of them is their OR.
pub const CHUNK_START: u32 = 1;

pub const CHUNK_END: u32 = 2;

pub const PARENT: u32 = 4;

pub const ROOT: u32 = 8;

// The words of a whole block.
pub fn whole(s: &[u8]) -> [u32; 16]
    requires { N.BLOCK_LEN ≤ length s.now }
    ensures { result ≡ N.block_words s.now }
{
    std::array::from_fn(|i| load(s, 4 * i))
}

// The words of a block that ends early: with zeros behind it.
fn padded(s: &[u8]) -> [u32; 16]
    requires { length s.now ≤ N.BLOCK_LEN }
    ensures { result ≡ N.block_words s.now }
{
    let mut b = [0u8; BLOCK_LEN];
    b[..s.len()].copy_from_slice(s);
    whole(&b)
}

// The words of a chunk's last block.
fn rest(s: &[u8]) -> [u32; 16]
    requires { length s.now ≤ N.BLOCK_LEN }
    ensures { result ≡ N.block_words s.now }
{
    if s.len() == BLOCK_LEN {
        whole(s)
    } else {
        padded(s)
    }
}

// The chaining value of chunk `t`; f is ROOT where the chunk is the whole tree, else 0.
pub fn chunk(s: &[u8], t: u64, f: u32) -> [u32; 8]
    requires s_len_bound { length s.now ≤ N.CHUNK_LEN }
    requires f_bound { f < 16 }
    ensures { result ≡ N.chunk s.now t f }
{
    let last = s.len().saturating_sub(1) / BLOCK_LEN;
    let mut h = IV;
    let mut d = CHUNK_START;
    for k in 0..last {
        let at = BLOCK_LEN * k;
        let m = whole(&s[at..]);
        h = compress(&h, &m, t, 64, d);
        d = 0;
    }
    let at = BLOCK_LEN * last;
    let m = rest(&s[at..]);
    let n = (s.len() - at) as u32;
    compress(&h, &m, t, n, d + CHUNK_END + f)
}

fn both(l: &[u32; 8], r: &[u32; 8]) -> [u32; 16]
    ensures { result ≡ (S.words8 l.now ++ S.words8 r.now) }
{
    [
        l[0], l[1], l[2], l[3], l[4], l[5], l[6], l[7], r[0], r[1], r[2], r[3], r[4], r[5], r[6],
        r[7],
    ]
}

// The chaining value of a node over two others; f is ROOT where it is the root, else 0.
pub fn parent(l: &[u32; 8], r: &[u32; 8], f: u32) -> [u32; 8]
    requires { f < 16 }
    ensures { result ≡ N.parent l.now r.now f }
{
    let m = both(l, r);
    compress(&IV, &m, 0, 64, PARENT + f)
}
