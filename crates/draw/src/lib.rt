// The r strings of `fabitn`, lent or drawn (document 02, order 4), in specs/: 16 bytes in their place are a seed, and Block number c is
// then AES-128 under the seed of c, low byte first (src/crypto/aes_rng.rs). Crate window makes them.
#![tactic(auto)]

ghost use Rattle.std.specs.Prelude.{◌≡◌};
ghost use Rattle.draw.specs.Strings.{seed?};

// 16 bytes are a seed.
pub fn is_seed(len: usize) -> bool
    ensures { result ≡ seed? len }
{
    len == 16
}
