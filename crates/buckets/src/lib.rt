// The permutation, drawn into the work area, and the entries of a bucket of leaky ANDs: where they lie in it, and where their records y lie.
// For rounds 21 and 22, from `faand` of src/mpc/faand.rs; the definitions stand in crates/rounds (Buckets). The permutation is public.
#![tactic(auto)]

ghost use Rattle.std.specs.Prelude.{◌≡◌, ◌++◌, ◌+◌, ◌-◌, ◌*◌, ◌<◌, length, replicate};
ghost use Rattle.lists.specs.Over.{tab};
ghost use Rattle.share.specs.Record.{record_len};
ghost use Rattle.plan.specs.Plan.{bucket_size, leaky};
ghost use Rattle.rounds.specs.Area as Area;
ghost use Rattle.rounds.specs.Buckets as B;
ghost use Rattle.area.specs.Given.{Ranged, Work};

use engine::Frame;

// ---- the permutation

// When round 21 is made: the permutation is drawn from the joint seed, and stays in PERM.
pub fn hold(work: &mut [u8], f: Frame)
    requires { Work f work.old }
    ensures { work.new ≡ Area.keep f Area.PERM (B.perm_bytes f (Area.at f Area.JOINT work.old)) work.old }
{
    let joint = area::place(f, area::JOINT);
    let j = joint.0;
    let k = joint.1;
    let key = chacha20::key_words(&work[j..k]);
    let place = area::place(f, area::PERM);
    let a = place.0;
    let e = place.1;
    shuffle::draw(&mut work[a..e], &key, plan::leaky(f.l));
}

// ---- the entries of a bucket

// How many later entries a bucket has.
pub fn later(f: Frame) -> usize
    ensures { result ≡ B.later f }
{
    plan::bucket_size(f.l) - 1
}

// Entry e of bucket j: the number of a leaky AND.
pub fn entry(perm: &[u8], f: Frame, j: usize, e: usize) -> usize
    requires ranged { Ranged f }
    requires perm_len { (length perm.now ≡ leaky f.l * 4) × (j < f.l) × (e < bucket_size f.l) }
    ensures { result ≡ B.entry f perm.now j e }
{
    let at = (j * plan::bucket_size(f.l) + e) * word::BYTES;
    word::load(perm, at) as usize % plan::leaky(f.l)
}

// The most entries that a bucket has.
pub const BUCKET_MOST: usize = 5;

// All entries of bucket j, with zeros behind them.
pub fn entries(perm: &[u8], f: Frame, j: usize) -> [usize; BUCKET_MOST]
    requires ranged { Ranged f }
    requires perm_len { (length perm.now ≡ leaky f.l * 4) × (j < f.l) }
    ensures { result ≡ tab (bucket_size f.l) (B.entry f perm.now j) ++ replicate (5 - bucket_size f.l) 0 }
{
    let b = plan::bucket_size(f.l);
    let mut ts = [0usize; BUCKET_MOST];
    for e in 0..b {
        ts[e] = entry(perm, f, j, e);
    }
    ts
}

// Where the record y of entry e starts.
pub fn y_at(perm: &[u8], f: Frame, j: usize, e: usize) -> usize
    requires ranged { Ranged f }
    requires perm_len { (length perm.now ≡ leaky f.l * 4) × (j < f.l) × (e < bucket_size f.l) }
    ensures { result ≡ (leaky f.l + B.entry f perm.now j e) * record_len f.n }
{
    (plan::leaky(f.l) + entry(perm, f, j, e)) * share::record_len(f.n)
}
