//! The laws of the hash and of owners. Each is the contract of a function that does nothing.
ghost use Rattle.std.specs.Prelude.{◌≡◌, ◌<◌, ◌≤◌, ◌*◌, ◌%◌, ◌^◌, ℕ, List, [], ◌∷◌, ◌++◌, bit_xor};
ghost use Rattle.part_hash.specs.Owner.{fnv, owner_of_key};

/// The hash begins with its offset basis. A byte more takes the exclusive or with that byte first, and then
/// multiplies by the prime, modulo 2^64.
pub fn a_hash_grows_by_a_byte()
    ensures empty { fnv [] ≡ 14695981039346656037 }
    ensures byte { (bytes : List ℕ) (byte : ℕ) →
        fnv (bytes ++ byte ∷ []) ≡ bit_xor (fnv bytes) byte * 1099511628211 % 2 ^ 64 }
    ensures below { (bytes : List ℕ) → fnv bytes < 2 ^ 64 }
{}

/// The hashes of `a`, `b` and `foobar`, as the authors of the hash publish them.
#[tactic(auto, unfolding(crate::specs::Owner::fnv_step))]
pub fn the_published_values()
    ensures a { fnv (97 ∷ []) ≡ 12638187200555641996 }
    ensures b { fnv (98 ∷ []) ≡ 12638190499090526629 }
    ensures foobar { fnv (102 ∷ 111 ∷ 111 ∷ 98 ∷ 97 ∷ 114 ∷ []) ≡ 9625390261332436968 }
{}

/// Each key has an owner among the ranks. Where there is one rank, it owns every key, and keys with one hash have
/// one owner.
pub fn keys_have_owners()
    ensures among_ranks { (key : List ℕ) (ranks : ℕ) → 1 ≤ ranks → owner_of_key key ranks < ranks }
    ensures alone { (key : List ℕ) → owner_of_key key 1 ≡ 0 }
    ensures by_hash { (key other : List ℕ) (ranks : ℕ) → fnv key ≡ fnv other →
        owner_of_key key ranks ≡ owner_of_key other ranks }
{}
