//! What the programs share: the words and settings that they are given, the files of a folder's slots, which no other
//! process has open, and the lines that are written while they are in use.
#![tactic(auto)]

mod about;
mod durations;
mod environment;
mod lacking;
mod laws;
mod said;
mod slot_name;
mod slots;
mod terminal;
mod watched;

ghost use Rattle.std.specs.Prelude.{◌≡◌, ◌<◌, ◌≤◌, ◌^◌, None, Some, IsTrue, IfOk, IfSome, MatchOption, option_map};
ghost use Rattle.labels.specs.Tenants.{is_tenant};
ghost use Rattle.accept.specs.OneStream.{end_of_time};
ghost use Rattle.programs.specs.Words.{value, IsNumberIn, NameShard, GiveShard, SaysPlace, GiveClock, SaysClock, NameServer, SaysOfServer, GiveServer, SaysServer, verb_of, IsVerb, NameCall, SaysOfCall, GiveCall, SaysCall, GivesCapacity, capacity_of, GivesOpen, open_of, GivesHalfSent, half_sent_of};

pub use about::{VERSION, tell_about};
pub use durations::duration_in;
pub use environment::{Environment, LimitSetting, limits_in};
use labels::{LabelFault, Tenant};
pub use lacking::has_slot;
pub use laws::{unset_limits, written_durations_are_read};
use pushjson::time_of;
use requests::Route;
pub use said::{CallWords, ServerWords, ShardWords};
pub use slot_name::SlotName;
pub use slots::{SlotsFault, open_slots};
use std::alloc::{AllocError, Global};
use std::env::{self, VarError};
use std::io;
use std::rt::Env;
pub use terminal::{say_line, terminal_in};
use wal::Capacity;
pub use watched::Watched;

/// The greatest number of shards, and of passes.
pub const MAX_SHARDS: u64 = labels::MAX_SHARDS as u64;

/// The greatest port.
const MAX_PORT: u64 = 65_535;

/// The greatest number of connections after which a server may end.
const MAX_CONNECTIONS: u64 = 4_294_967_295;

/// How many bytes a slot may have where the environment does not say.
const CAPACITY: u64 = 67_108_864;

/// The smallest capacity that the environment may say.
const LEAST_CAPACITY: u64 = 4_096;

/// How many connections may be open where the environment does not say.
const OPEN_CONNECTIONS: u64 = 10_000;

/// The most that the environment may say.
const MOST_OPEN_CONNECTIONS: u64 = 1_000_000;

/// How many bytes of requests that have not come whole may be held where the environment does not say.
const HALF_SENT: u64 = 268_435_456;

/// The fewest that the environment may say: those of a head and a body of the greatest length.
const LEAST_HALF_SENT: u64 = 4_210_688;

/// The most that the environment may say.
const MOST_HALF_SENT: u64 = 1 << 40;

/// The words after the program's name. There are none where one of them is not text, since a program has no such words.
pub fn words_of<R: Env + AllocGlobal>(rt: &R) -> Result<Vec<String>, AllocError> {
    match read_words(rt) {
        Ok(words) => Ok(words),
        Err(error) if error.kind() == io::ErrorKind::OutOfMemory => Err(AllocError),
        Err(_) => Ok(Vec::new(rt.alloc())),
    }
}

fn read_words<R: Env + AllocGlobal>(rt: &R) -> io::Result<Vec<String>> {
    Ok(env::args(rt)?.skip(1).collect(rt.alloc())?)
}

/// What the environment says of the bytes of a slot, in the variable `NEEDLEAZURE_CAPACITY`: see `Environment`.
pub fn setting_of<R: Env + AllocGlobal>(rt: &R) -> Result<Option<String>, AllocError> {
    variable_of(rt, "NEEDLEAZURE_CAPACITY")
}

/// The variables of the environment that programs read.
pub fn environment_of<R: Env + AllocGlobal>(rt: &R) -> Result<Environment, AllocError> {
    let capacity = setting_of(rt)?;
    let max_chunk_age = variable_of(rt, "NEEDLEAZURE_MAX_CHUNK_AGE")?;
    let reject_old_samples_max_age = variable_of(rt, "NEEDLEAZURE_REJECT_OLD_SAMPLES_MAX_AGE")?;
    let creation_grace_period = variable_of(rt, "NEEDLEAZURE_CREATION_GRACE_PERIOD")?;
    let open_connections = variable_of(rt, "NEEDLEAZURE_OPEN_CONNECTIONS")?;
    let half_sent = variable_of(rt, "NEEDLEAZURE_HALF_SENT")?;
    Ok(Environment {
        open_connections,
        half_sent,
        capacity,
        max_chunk_age,
        reject_old_samples_max_age,
        creation_grace_period,
    })
}

// A variable's text: `None` where it is not set. An empty text where its value is not text: that is no lawful setting.
fn variable_of<R: Env + AllocGlobal>(rt: &R, name: &str) -> Result<Option<String>, AllocError> {
    match env::var(rt, name) {
        Ok(text) => Ok(Some(text)),
        Err(VarError::NotPresent) => Ok(None),
        Err(VarError::NotUnicode) => Ok(Some(String::new(rt.alloc()))),
        Err(VarError::OutOfMemory) => Err(AllocError),
    }
}

/// The place in the words `FILE SHARD COUNT`: `None` where they are not such words.
pub fn place_in(words: &[String]) -> Option<ShardWords>
    ensures given { MatchOption result (¬ GiveShard words.now) (λ _. GiveShard words.now) }
    ensures says { IfSome result (SaysPlace words.now) }
{
    match words {
        [_file, shard, count] => place_of(shard.as_str(), count.as_str()),
        _ => None,
    }
}

fn place_of(shard: &str, count: &str) -> Option<ShardWords>
    ensures { MatchOption result
        (¬ NameShard shard.now count.now) (λ place. NameShard shard.now count.now
        × (place.shard ≡ value shard.now) × (place.count ≡ value count.now)) }
{
    let shard = time_of(shard)?;
    let count = time_of(count)?;
    if count < 1 || count > MAX_SHARDS || shard >= count {
        return None;
    }
    Some(ShardWords {
        shard: shard as u32,
        count: count as u32,
    })
}

/// The clock that the word `NOW` gives: `None` where the words are not one such word.
pub fn clock_in(words: &[String]) -> Option<u64>
    ensures given { MatchOption result
        (¬ GiveClock words.now) (λ now. (now < end_of_time) × GiveClock words.now) }
    ensures says { IfSome result (SaysClock words.now) }
{
    match words {
        [word] => time_of(word.as_str()),
        _ => None,
    }
}

// A number in decimal digits, within these bounds.
fn number_in(text: &str, least: u64, most: u64) -> Option<u64>
    ensures { MatchOption result
        (¬ IsNumberIn least most text.now) (λ n. IsNumberIn least most text.now
        × (n ≡ value text.now)) }
{
    let number = time_of(text)?;
    if number < least || number > most {
        return None;
    }
    Some(number)
}

// The capacity of this many bytes.
fn capacity_with(bytes: u64) -> Capacity
    requires few { bytes ≤ 2 ^ 30 }
    ensures { result ≡ bytes }
{
    let Some(capacity) = Capacity::new(bytes) else {
        unreachable!()
    };
    capacity
}

/// How many bytes a slot may have where the environment does not say: 67,108,864.
pub fn unset_capacity() -> Capacity
    ensures { result ≡ capacity_of None }
{
    capacity_with(CAPACITY)
}

/// How many bytes a slot may have by the environment: 4,096 to 2^30, in 1 to 19 decimal digits, and 67,108,864 where it
/// says nothing. `None` where it says anything else.
pub fn capacity_in(setting: Option<&str>) -> Option<Capacity>
    ensures given { MatchOption result (¬ GivesCapacity (option_map (λ s. s.now) setting.entry))
        (λ _. GivesCapacity (option_map (λ s. s.now) setting.entry)) }
    ensures says { IfSome result (λ capacity. capacity
        ≡ capacity_of (option_map (λ s. s.now) setting.entry)) }
{
    match setting {
        Some(text) => Some(capacity_with(number_in(text, LEAST_CAPACITY, Capacity::MAX_BYTES)?)),
        None => Some(unset_capacity()),
    }
}

/// How many connections may be open by the environment: 1 to 1,000,000, and 10,000 where it says nothing. `None` where
/// it says anything else.
pub fn open_connections_in(setting: Option<&str>) -> Option<u64>
    ensures given { MatchOption result (¬ GivesOpen (option_map (λ s. s.now) setting.entry))
        (λ _. GivesOpen (option_map (λ s. s.now) setting.entry)) }
    ensures says { IfSome result (λ number. number ≡ open_of (option_map (λ s. s.now) setting.entry)) }
{
    match setting {
        Some(text) => number_in(text, 1, MOST_OPEN_CONNECTIONS),
        None => Some(OPEN_CONNECTIONS),
    }
}

/// How many bytes of requests that have not come whole may be held by the environment: 4,210,688 to 2^40, and
/// 268,435,456 where it says nothing. `None` where it says anything else.
pub fn half_sent_in(setting: Option<&str>) -> Option<u64>
    ensures given { MatchOption result (¬ GivesHalfSent (option_map (λ s. s.now) setting.entry))
        (λ _. GivesHalfSent (option_map (λ s. s.now) setting.entry)) }
    ensures says { IfSome result (λ bytes. bytes
        ≡ half_sent_of (option_map (λ s. s.now) setting.entry)) }
{
    match setting {
        Some(text) => number_in(text, LEAST_HALF_SENT, MOST_HALF_SENT),
        None => Some(HALF_SENT),
    }
}

/// The words of a server: `None` where they are not such words.
pub fn server_in(words: &[String]) -> Option<ServerWords<'_>>
    ensures given { MatchOption result (¬ GiveServer words.now) (λ _. GiveServer words.now) }
    ensures says { IfSome result (SaysServer words.now) }
{
    match words {
        [folder, port, shards, workers] => endless_of(
            folder.as_str(),
            port.as_str(),
            shards.as_str(),
            workers.as_str(),
        ),
        [folder, port, shards, workers, limit] => ending_of(
            folder.as_str(),
            port.as_str(),
            shards.as_str(),
            workers.as_str(),
            limit.as_str(),
        ),
        _ => None,
    }
}

fn endless_of<'a>(
    folder: &'a str,
    port: &str,
    shards: &str,
    workers: &str,
) -> Option<ServerWords<'a>>
    ensures named { MatchOption result (¬ NameServer port.now shards.now workers.now) (λ _.
        NameServer port.now shards.now workers.now) }
    ensures says { IfSome result (SaysOfServer folder.now port.now shards.now workers.now None) }
{
    let port = number_in(port, 0, MAX_PORT)?;
    let shards = number_in(shards, 1, MAX_SHARDS)?;
    let workers = number_in(workers, 1, MAX_SHARDS)?;
    Some(ServerWords {
        folder,
        port: port as u16,
        shards: shards as u32,
        workers: workers as u32,
        connections: None,
    })
}

fn ending_of<'a>(
    folder: &'a str,
    port: &str,
    shards: &str,
    workers: &str,
    limit: &str,
) -> Option<ServerWords<'a>>
    ensures named { MatchOption result (¬ (NameServer port.now shards.now workers.now
        × IsNumberIn 1 4294967295 limit.now)) (λ _. NameServer port.now shards.now workers.now
        × IsNumberIn 1 4294967295 limit.now) }
    ensures says { IfSome result
        (SaysOfServer folder.now port.now shards.now workers.now (Some (value limit.now))) }
{
    let endless = endless_of(folder, port, shards, workers)?;
    let limit = number_in(limit, 1, MAX_CONNECTIONS)?;
    Some(ServerWords {
        folder: endless.folder,
        port: endless.port,
        shards: endless.shards,
        workers: endless.workers,
        connections: Some(limit),
    })
}

/// The words of a call: `None` where they are not such words.
pub fn call_in(alloc: Global, words: &[String]) -> Option<CallWords<'_>>
    ensures given { MatchOption result (¬ GiveCall words.now) (λ _. GiveCall words.now) }
    ensures says { IfSome result (SaysCall words.now) }
{
    match words {
        [verb, folder, shards, tenant, now] => call_of(
            alloc,
            verb.as_str(),
            folder.as_str(),
            shards.as_str(),
            tenant.as_str(),
            now.as_str(),
        ),
        _ => None,
    }
}

fn call_of<'a>(
    alloc: Global,
    verb: &str,
    folder: &'a str,
    shards: &str,
    tenant: &str,
    now: &str,
) -> Option<CallWords<'a>>
    ensures named { MatchOption result (¬ NameCall verb.now shards.now tenant.now now.now) (λ _.
        NameCall verb.now shards.now tenant.now now.now) }
    ensures says { IfSome result (SaysOfCall verb.now folder.now shards.now tenant.now now.now) }
{
    let route = route_of(verb)?;
    let shards = number_in(shards, 1, MAX_SHARDS)?;
    let now = time_of(now)?;
    let tenant = tenant_of(alloc, tenant)?;
    Some(CallWords {
        route,
        folder,
        shards: shards as u32,
        tenant,
        now,
    })
}

fn route_of(verb: &str) -> Option<Route>
    ensures named { MatchOption result (¬ IsVerb verb.now) (λ _. IsVerb verb.now) }
    ensures says { IfSome result (λ route. verb_of route ≡ verb.now) }
{
    match verb {
        "push" => Some(Route::Push),
        "read" => Some(Route::Read),
        "trim" => Some(Route::Trim),
        _ => None,
    }
}

// A lawful tenant, where there is memory for its name.
fn tenant_of(alloc: Global, text: &str) -> Option<Result<Tenant, AllocError>>
    ensures named { MatchOption result
        (¬ IsTrue (is_tenant text.now)) (λ _. IsTrue (is_tenant text.now)) }
    ensures says { IfSome result (λ tenant. IfOk tenant (λ name. name ≡ text.now)) }
{
    match Tenant::new(alloc, text) {
        Ok(tenant) => Some(Ok(tenant)),
        Err(LabelFault::BadTenant) => None,
        Err(_) => Some(Err(AllocError)),
    }
}
