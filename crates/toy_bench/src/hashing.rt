//! The hash of a text.
ghost use Rattle.std.specs.Prelude.{◌≡◌};
ghost use Rattle.toy_bench.specs.Hashes.{hash_of};

/// The hash of no bytes.
const START: u64 = 14_695_981_039_346_656_037;

/// What each byte multiplies a hash by.
const PRIME: u64 = 1_099_511_628_211;

/// The 64-bit hash FNV-1a of Fowler, Noll and Vo.
#[tactic(auto, unfolding(crate::specs::Hashes::hash_of))]
pub(crate) fn hash(text: &[u8]) -> u64
    ensures { result ≡ hash_of text.now }
{
    let mut hash = START;
    for byte in text {
        hash = (hash ^ u64::from(*byte)).wrapping_mul(PRIME);
    }
    hash
}
