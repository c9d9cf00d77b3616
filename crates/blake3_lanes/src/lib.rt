// BLAKE3 of many Blocks at once: 64 of them side by side, one in each lane.
//
// Speed: the loop over the lanes of a window has no call left in it once `lane` is inlined, and LLVM then turns it into vector code for
// four lanes at a time. That needs words of 32 bits alone in it (`Words`, `Digest`), 64 turns, and `lane` called at one place: `compress`,
// which many call, would stay a call. `rounds` is inlined wherever it is called. The words of the message that are 0 are constants there,
// and their additions go.
#![tactic(auto)]

ghost use Rattle.std.specs.Prelude.{◌≡◌, ◌*◌, ◌<◌, ◌≤◌, length, get_or};
ghost use Rattle.lists.specs.Over.{tab, cat};
ghost use Rattle.blake3_lanes.specs.Lanes as S;
ghost use Rattle.blake3_lanes.specs.Lanes.{words_of, words_at, no_words, digest_of, hash_at};

use blake3::Digest;
use blake3_core::{IV, rounds};
use blake3_node::{CHUNK_END, CHUNK_START, ROOT};
use block::Block;

// As many Blocks as are hashed side by side.
pub const LANES: usize = 64;

// The bytes of those Blocks, and of their hashes.
const BLOCKS_LEN: usize = LANES * 16;

const HASHES_LEN: usize = LANES * 32;

// The four words of a Block.
#[derive(Clone, Copy)]
struct Words(u32, u32, u32, u32);

fn split(b: Block) -> Words
    ensures { result ≡ words_of b }
{
    Words(
        blake3_core::low(b.0),
        blake3_core::high(b.0),
        blake3_core::low(b.1),
        blake3_core::high(b.1),
    )
}

// `compress` of one block of 16 bytes, the root of its tree.
fn lane(w: Words) -> Digest
    ensures { result ≡ digest_of w }
{
    let m = [
        w.0, w.1, w.2, w.3, 0u32, 0u32, 0u32, 0u32, 0u32, 0u32, 0u32, 0u32, 0u32, 0u32, 0u32, 0u32,
    ];
    let mut v = blake3_core::start(&IV, 0, 16, CHUNK_START + CHUNK_END + ROOT);
    rounds(&mut v, &m);
    Digest(blake3_core::fold(&v))
}

// The words of 64 Blocks.
fn gather(blocks: &[u8]) -> [Words; LANES]
    requires { length blocks.now ≡ S.LANES * 16 }
    ensures { result ≡ tab S.LANES (words_at blocks.now) }
{
    let mut ms = [Words(0, 0, 0, 0); LANES];
    for t in 0..LANES {
        ms[t] = split(block::load(blocks, t * 16));
    }
    ms
}

// The 64 lanes: vector code, which `ms.map(lane)` would not be.
fn lanes(ms: [Words; LANES]) -> [Digest; LANES]
    ensures { result ≡ tab S.LANES (λ t. digest_of (get_or ms t no_words)) }
{
    let mut ds = [Digest([0u32; 8]); LANES];
    for t in 0..LANES {
        ds[t] = lane(ms[t]);
    }
    ds
}

// The hashes of 64 Blocks: one window.
pub fn hash_window(out: &mut [u8], blocks: &[u8])
    requires out_len { length out.old ≡ S.LANES * 32 }
    requires blocks_len { length blocks.now ≡ S.LANES * 16 }
    ensures { out.new ≡ cat S.LANES (hash_at blocks.now) }
{
    let ds = lanes(gather(blocks));
    for t in 0..LANES {
        let a = t * 32;
        let e = a + 32;
        let d = ds[t];
        d.store(&mut out[a..e]);
    }
}

// The hashes of `count` Blocks that lie side by side: window by window, then what is left one by one.
pub fn hash_blocks(out: &mut [u8], blocks: &[u8], count: usize)
    requires blocks_len { length blocks.now ≡ count * 16 }
    requires out_len { length out.old ≡ count * 32 }
    ensures { out.new ≡ cat count (hash_at blocks.now) }
{
    let windows = count / LANES;
    for w in 0..windows {
        let t = w * LANES;
        let a = t * 32;
        let e = a + HASHES_LEN;
        let b = t * 16;
        let f = b + BLOCKS_LEN;
        hash_window(&mut out[a..e], &blocks[b..f]);
    }
    for t in windows * LANES..count {
        let a = t * 32;
        let e = a + 32;
        let d = blake3::hash_block(block::load(blocks, t * 16));
        d.store(&mut out[a..e]);
    }
}

// For C: the hashes of 64 Blocks.
#[unsafe(no_mangle)]
pub extern "C" fn nuz_blake3_blocks(blocks: &[u8; BLOCKS_LEN], out: &mut [u8; HASHES_LEN])
    ensures { out.new ≡ cat S.LANES (hash_at blocks.now) }
{
    hash_window(out, blocks);
}
