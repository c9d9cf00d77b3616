// BLAKE3 for C, as the benches link it: what crate blake3 exports.
#![tactic(auto)]

ghost use Rattle.std.specs.Prelude.{◌≡◌};
ghost use Rattle.block.specs.Block.{bytes_of};
ghost use Rattle.blake3.specs.Tree as T;

// BLAKE3 of s.
#[unsafe(no_mangle)]
pub extern "C" fn nuz_blake3(s: &[u8], out: &mut [u8; 32])
    ensures { out.new ≡ T.hash s.now }
{
    blake3::nuz_blake3(s, out);
}

// BLAKE3 of the 16 bytes of a Block, given as its low and high 64 bits.
#[unsafe(no_mangle)]
pub extern "C" fn nuz_blake3_block(low: u64, high: u64, out: &mut [u8; 32])
    ensures { out.new ≡ T.hash (bytes_of (record { 0 = low; 1 = high })) }
{
    blake3::nuz_blake3_block(low, high, out);
}
