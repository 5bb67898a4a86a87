ghost use Rattle.std.specs.Prelude.{◌≡◌, ◌≤◌, ◌<◌, ◌^◌};
ghost use Rattle.std.specs.List.{fold};
ghost use Rattle.labels.specs.Shards.{fnv_step, max_shards, shard};

use crate::key::StreamKey;

/// The most shards among which keys may be spread: this project's profile.
pub const MAX_SHARDS: u32 = 64;

const FNV_BASIS: u64 = 14_695_981_039_346_656_037;

const FNV_PRIME: u64 = 1_099_511_628_211;

fn hash_byte(hash: u64, byte: u8) -> u64
    ensures { result ≡ fnv_step hash byte }
{
    (hash ^ u64::from(byte)).wrapping_mul(FNV_PRIME)
}

fn hash_bytes(hash: u64, bytes: &[u8]) -> u64
    ensures { result ≡ fold fnv_step hash bytes.now }
{
    bytes.iter().fold(hash, |hash, byte| hash_byte(hash, *byte))
}

/// The shard of a key among `count` shards, 1 to `MAX_SHARDS`: the FNV-1a hash of 64 bits over the tenant, one zero
/// byte and the canonical text, modulo the count.
pub fn shard_of(key: &StreamKey, count: u32) -> u32
    requires some { 1 ≤ count }
    requires few { count ≤ max_shards }
    ensures shard { result ≡ shard key.now count }
    ensures within { result < count }
{
    let hash = hash_bytes(FNV_BASIS, key.tenant.as_str().as_bytes());
    let hash = hash_byte(hash, 0);
    let hash = hash_bytes(hash, key.labels.as_str().as_bytes());
    (hash % u64::from(count)) as u32
}
