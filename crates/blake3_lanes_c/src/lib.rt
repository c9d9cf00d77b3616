// BLAKE3 of 64 Blocks for C, as the benches link it: what crate blake3_lanes exports.
#![tactic(auto)]

ghost use Rattle.std.specs.Prelude.{◌≡◌};
ghost use Rattle.lists.specs.Over.{cat};
ghost use Rattle.blake3_lanes.specs.Lanes as S;
ghost use Rattle.blake3_lanes.specs.Lanes.{hash_at};

// 64 Blocks, and as many hashes.
const BLOCKS_LEN: usize = 64 * 16;

const HASHES_LEN: usize = 64 * 32;

// The hashes of 64 Blocks.
#[unsafe(no_mangle)]
pub extern "C" fn nuz_blake3_blocks(blocks: &[u8; BLOCKS_LEN], out: &mut [u8; HASHES_LEN])
    ensures { out.new ≡ cat S.LANES (hash_at blocks.now) }
{
    blake3_lanes::nuz_blake3_blocks(blocks, out);
}
