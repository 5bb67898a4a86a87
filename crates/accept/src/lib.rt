//! What is accepted of a stream's entries, what reads and trims answer, and what a history of calls means.
#![tactic(auto)]

mod call;
mod fault;
mod history;
mod image;
mod laws;
mod limits;
mod outcome;
mod refusal;
mod stream;

pub use call::{Call, END_OF_TIME, MAX_ENTRIES, Reply};
pub use entries::{Entry, EntryList, KeptEntries, KeptList, Line};
pub use fault::CallFault;
pub use history::{Ask, History, Item, Step};
pub use image::{Image, StreamImage};
pub use laws::{
    answer_is_of_stream, answered_in_a_row, answered_step, changes_what_it_says,
    entries_come_from_batches, equal_meanings_answer_alike, last_was_stored, legal_histories,
    limits_of_profile, map_stands_for_history, meaning_is_by_key, other_keys_are_no_matter,
    push_as_if_nothing_removed, reads_are_by_time, refusals_change_nothing, room_of_change,
    room_of_stream, stored_until_taken, whole_streams, without_takes_by_bounds,
};
pub use limits::Limits;
pub use outcome::{Outcome, OutcomeList};
pub use pairs::Meta;
pub use refusal::TrimRefusal;
pub use stream::StreamState;
