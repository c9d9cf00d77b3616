// ChaCha20's block function for C, as the benches link it: what crate chacha20 exports.
#![tactic(auto)]

ghost use Rattle.std.specs.Prelude.{◌≡◌};
ghost use Rattle.chacha20.specs.ChaCha20 as C;

use chacha20::{BLOCK_LEN, KEY_LEN, NONCE_LEN};

// A block.
#[unsafe(no_mangle)]
pub extern "C" fn nuz_chacha20_block(
    out: &mut [u8; BLOCK_LEN],
    key: &[u8; KEY_LEN],
    counter: u32,
    nonce: &[u8; NONCE_LEN],
)
    ensures { out.new ≡ C.block key.now counter nonce.now }
{
    chacha20::nuz_chacha20_block(out, key, counter, nonce);
}
