//! A journal of batches in files of any disk: each batch is there whole or not at all, also
//! across a crash at any moment.
//!
//! A file is a gate byte and then, for each batch, its length in four little-endian bytes, its bytes and the next gate
//! byte. A gate of 1 is open. The batches are those behind open gates, from the front up to the first gate that isn't
//! open; what stands past that gate is never read. After one commit of `AA BB` a new journal's file is
//! `01 02 00 00 00 AA BB 00`.
//!
//! `Journal::load_into` reads the journal, or makes it, and gives each batch to a `BatchFold` as soon as it is read.
//! `Journal::commit` writes length, batch and a closed gate behind the closed gate, syncs, opens the gate by a write of
//! its own, and syncs: four calls of the disk. After a commit that failed, `Journal::review` finds whether its batch is
//! there, and the journal may commit again.
//!
//! A journal doesn't grow for good. `Journal::checkpoint` begins the next generation, a file of the journal's name with
//! a point and the generation behind it, with one batch in place of all before. A file of the form above whose name
//! ends with `.at` has the generations, each in eight little-endian bytes: so the switch is one commit. The file of the
//! generation before is removed then. After a checkpoint with `AA` a new journal `J` is the file `J.1`, which is
//! `01 01 00 00 00 AA 00`, and `J.at`, which is `01 08 00 00 00 01 00 00 00 00 00 00 00 00`.
//!
//! Contracts see a journal as its name, the files of the generation and of the generations, what has failed and whether
//! it may commit, and batches as a list of lists of bytes. No checksum is trusted: what holds is said of a disk that
//! keeps its rules, and of files that nobody else writes.
#![tactic(auto)]

mod anew;
mod batches;
mod fold;
mod journal;
mod laws;
mod load;
mod load_plain;
mod names;
mod plain;
mod told;
mod window;

pub use batches::Batches;
pub use fold::BatchFold;
pub use journal::Journal;
pub use laws::{
    a_commit_adds_its_batch, a_crash_leaves_the_list, apart_journals_share_no_file,
    every_file_is_read, every_image_is_read, one_bad_place, one_list, one_meaning, one_refusal,
    other_names_may_change, past_the_closed_gate,
};
pub use load::JournalErr;
pub use plain::GREATEST_BATCH;
