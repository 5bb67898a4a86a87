//! What the words of programs say.
ghost use Rattle.std.specs.Prelude.{◌<◌, ◌≤◌};
ghost use Rattle.labels.specs.Shards.{max_shards};
ghost use Rattle.accept.specs.OneStream.{end_of_time};

use labels::Tenant;
use requests::Route;
use std::alloc::AllocError;

/// The words `SHARD COUNT`: a shard's number, and how many shards there are.
#[derive(Clone, Copy)]
pub struct ShardWords {
    /// The shard's number, from 0 on.
    pub shard: u32,
    /// The number of shards, 1 to 64.
    pub count: u32,
    ghost some: { 1 ≤ count },
    ghost few: { count ≤ max_shards },
    ghost below: { shard < count },
}

/// The words of `ingesterd DIR PORT SHARDS WORKERS [CONNECTIONS]`.
#[derive(Clone, Copy)]
pub struct ServerWords<'a> {
    /// The folder of the slots.
    pub folder: &'a str,
    /// The port to listen on.
    pub port: u16,
    /// The number of shards, 1 to 64.
    pub shards: u32,
    /// The number of workers, 1 to 64.
    pub workers: u32,
    /// After how many connections the server ends, if it does.
    pub connections: Option<u64>,
    ghost some_shard: { 1 ≤ shards },
    ghost few_shards: { shards ≤ max_shards },
    ghost some_worker: { 1 ≤ workers },
    ghost few_workers: { workers ≤ max_shards },
}

/// The words of `ingestctl push|read|trim DIR SHARDS TENANT NOW`.
#[derive(Drop)]
pub struct CallWords<'a> {
    /// What the body asks for.
    pub route: Route,
    /// The folder of the slots.
    pub folder: &'a str,
    /// The number of shards, 1 to 64.
    pub shards: u32,
    /// The tenant of the streams, where there was memory for the name.
    pub tenant: Result<Tenant, AllocError>,
    /// The clock, in nanoseconds.
    pub now: u64,
    ghost some_shard: { 1 ≤ shards },
    ghost few_shards: { shards ≤ max_shards },
    ghost small: { now < end_of_time },
}
