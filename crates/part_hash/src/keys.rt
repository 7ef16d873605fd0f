//! The hash of a key, and the rank that owns the key.
ghost use Rattle.std.specs.Prelude.{◌≡◌, ◌<◌, ◌≤◌};
ghost use Rattle.part_hash.specs.Owner as spec;

/// The hash of no bytes.
const OFFSET_BASIS: u64 = 14_695_981_039_346_656_037;

/// The factor by which each byte multiplies the hash.
const PRIME: u64 = 1_099_511_628_211;

// The hash after one byte more.
#[tactic(auto, unfolding(crate::specs::Owner::fnv_step))]
fn hashed(hash: u64, byte: u8) -> u64
    ensures { result ≡ spec.fnv_step hash byte }
{
    (hash ^ u64::from(byte)).wrapping_mul(PRIME)
}

/// The 64-bit FNV-1a hash of Fowler, Noll and Vo.
pub fn fnv(bytes: &[u8]) -> u64
    ensures { result ≡ spec.fnv bytes.now }
{
    let mut hash = OFFSET_BASIS;
    for byte in bytes {
        hash = hashed(hash, *byte);
    }
    hash
}

/// The rank that a key belongs to, in a world of this many ranks: its hash modulo their number. If there is
/// only one rank, the key isn't hashed.
pub fn owner_of_key(key: &[u8], ranks: u32) -> u32
    requires { 1 ≤ ranks }
    ensures value { result ≡ spec.owner_of_key key.now ranks }
    ensures below { result < ranks }
{
    if ranks == 1 {
        return 0;
    }
    (fnv(key) % u64::from(ranks)) as u32
}
