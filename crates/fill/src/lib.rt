// Bytes as they are: copied, cleared.
#![tactic(auto)]

ghost use Rattle.std.specs.Prelude.{◌≡◌, ◌≤◌, length, take, replicate};

// As many bytes of s as out has.
pub fn copy(out: &mut [u8], s: &[u8])
    requires { length out.old ≤ length s.now }
    ensures { out.new ≡ take (length out.old) s.now }
{
    out.copy_from_slice(&s[..out.len()]);
}

// Zeros.
pub fn clear(out: &mut [u8])
    ensures { out.new ≡ replicate (length out.old) 0 }
{
    out.fill(0);
}
