// BLAKE3 of whole chunks side by side: four of them, one in each lane, and the node over the four.
//
// Speed: the loop over the lanes has no call left in it once `lane` is inlined, and LLVM then turns it into vector code for the four
// lanes. That needs words of 32 bits alone in it, so a chunk's number comes as two words, and `lane` called at one place: `compress`,
// which many call, would stay a call. `rounds` is inlined wherever it is called.
#![tactic(auto)]

ghost use Rattle.std.specs.Prelude.{◌≡◌, ◌+◌, ◌*◌, ◌/◌, ◌%◌, ◌^◌, ◌<◌, ◌≤◌, length, get_or};
ghost use Rattle.lists.specs.Over.{tab};
ghost use Rattle.blake3_node.specs.Node as N;
ghost use Rattle.blake3_chunks.specs.Chunks as S;
ghost use Rattle.blake3_chunks.specs.Chunks.{chunk_of, no_node, pressed, chained};

use blake3_core::{IV, rounds};
use blake3_node::{BLOCK_LEN, CHUNK_END, CHUNK_LEN, CHUNK_START};

// As many chunks as are hashed side by side.
const LANES: usize = 4;

// Their bytes.
pub const WINDOW: usize = LANES * CHUNK_LEN;

// The last block of a chunk.
const LAST: usize = CHUNK_LEN / BLOCK_LEN - 1;

// A chaining value.
#[derive(Clone, Copy)]
struct Node([u32; 8]);

// `compress` of block k of a whole chunk.
fn lane(n: Node, chunk: &[u8], k: usize, low: u32, high: u32, f: u32) -> Node
    requires chunk_len { length chunk.now ≡ N.CHUNK_LEN }
    requires k_bound { k ≤ S.LAST }
    ensures { result ≡ pressed n chunk.now k low high f }
{
    let h = n.0;
    let at = BLOCK_LEN * k;
    let m = blake3_node::whole(&chunk[at..]);
    let mut v = blake3_core::state(&h, low, high, 64, f);
    rounds(&mut v, &m);
    Node(blake3_core::fold(&v))
}

// The four lanes, each at block k of its chunk: vector code.
fn lanes(
    hs: [Node; LANES],
    s: &[u8],
    k: usize,
    lows: [u32; LANES],
    highs: [u32; LANES],
    f: u32,
) -> [Node; LANES]
    requires s_len { length s.now ≡ S.WINDOW }
    requires k_bound { k ≤ S.LAST }
    ensures { result ≡ tab S.LANES (λ j. pressed (get_or hs j no_node) (chunk_of s.now j) k (get_or lows j 0) (get_or highs j 0) f) }
{
    let mut ds = [Node([0u32; 8]); LANES];
    for j in 0..LANES {
        let a = CHUNK_LEN * j;
        let e = a + CHUNK_LEN;
        ds[j] = lane(hs[j], &s[a..e], k, lows[j], highs[j], f);
    }
    ds
}

// The numbers of four chunks, as two words each.
fn lows(t: u64) -> [u32; LANES]
    requires { t + S.LANES < 2 ^ 64 }
    ensures { result ≡ tab S.LANES (λ j. (t + j) % 2 ^ 32) }
{
    std::array::from_fn(|j| blake3_core::low(t + j as u64))
}

fn highs(t: u64) -> [u32; LANES]
    requires { t + S.LANES < 2 ^ 64 }
    ensures { result ≡ tab S.LANES (λ j. (t + j) / 2 ^ 32) }
{
    std::array::from_fn(|j| blake3_core::high(t + j as u64))
}

// The chaining values of four chunks, of which the first has number t.
fn window(s: &[u8], t: u64) -> [Node; LANES]
    requires s_len { length s.now ≡ S.WINDOW }
    requires t_bound { t + S.LANES < 2 ^ 64 }
    ensures { result ≡ tab S.LANES (chained s.now t) }
{
    let ls = lows(t);
    let us = highs(t);
    let mut hs = [Node(IV); LANES];
    let mut d = CHUNK_START;
    for k in 0..LAST {
        let next = lanes(hs, s, k, ls, us, d);
        hs = next;
        d = 0;
    }
    lanes(hs, s, LAST, ls, us, CHUNK_END)
}

// The node over four chunks; f is ROOT where it is the root, else 0.
pub fn four(s: &[u8], t: u64, f: u32) -> [u32; 8]
    requires s_len { length s.now ≡ S.WINDOW }
    requires t_bound { t + S.LANES < 2 ^ 64 }
    requires f_bound { f < 16 }
    ensures { result ≡ S.four s.now t f }
{
    let [Node(a), Node(b), Node(c), Node(d)] = window(s, t);
    let l = blake3_node::parent(&a, &b, 0);
    let r = blake3_node::parent(&c, &d, 0);
    blake3_node::parent(&l, &r, f)
}
