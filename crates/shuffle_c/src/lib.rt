// The permutation for C, as the benches link it: what crate shuffle exports.
#![tactic(auto)]

ghost use Rattle.std.specs.Prelude.{◌≡◌};
ghost use Rattle.word.specs.Word.{le4s};
ghost use Rattle.shuffle.specs.Shuffle as S;

use chacha20::KEY_LEN;

// As many words as a session of 300,000 permutes.
const MEASURED_LEN: usize = 900_000 * 4;

// The permutation of a session of 300,000.
#[unsafe(no_mangle)]
pub extern "C" fn nuz_draw(section: &mut [u8; MEASURED_LEN], key: &[u8; KEY_LEN])
    ensures { section.new ≡ le4s 900000 (S.permutation key.now 900000) }
{
    shuffle::nuz_draw(section, key);
}
