//! Tests over threads and gates: queues, histories, disks, and the shards of an ingester, each called by several threads at
//! once.
#![tactic(auto)]

mod context;
#[cfg(test)]
mod gates;
#[cfg(test)]
mod meetings;
#[cfg(test)]
mod open_calls;
#[cfg(test)]
mod opening;
#[cfg(test)]
mod plans;
#[cfg(test)]
mod queues;
#[cfg(test)]
mod tasks;
