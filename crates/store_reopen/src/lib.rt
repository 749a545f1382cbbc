//! Opening a disk as three stores: they are what the disk's journals say, where all that these list is there.
//!
//! `reopen` loads the catalogue and then the manifests of stores 1 to 3, each in the configured granularity of its
//! store. Then it looks whether each entry is of a row, and then, store by store and in the order of series and time,
//! whether each listed file is there and at least as long as it is listed. The first that is wrong is told: the name of
//! a file, and a place in it.
//!
//! | What is wrong | The file told | The place told |
//! |---|---|---|
//! | something is cut off behind an open gate of a file of a journal | that file | that gate |
//! | a batch of the file that tells a journal's generation isn't the next one | that file | its open gate |
//! | a journal's generation from 1 on has no file, or one shorter than two bytes | that file | 0 |
//! | a batch of a journal means nothing behind those before it | its generation's file | its open gate |
//! | the journals before a manifest are good, and it is of another granularity | none: both granularities are told | |
//! | an entry's series is no row | the first manifest with one | 0 |
//! | a listed file is absent | that file | 0 |
//! | a listed file is shorter than it is listed | that file | its length |
//!
//! What the image holds is what the stores hold. `reopen` then removes strays, each with a sync: files of stores 1 to 3
//! that are named as the file of a row and of a partition of their store, and that aren't listed. A flush or a move
//! that was cut off left them. Whatever is named otherwise stays. While store 0 has a file `adopt` no file is a stray,
//! since an adoption isn't finished. `open_to_read` opens in the same way and removes none.
//!
//! Beside that, opening writes nothing but the first bytes of journals that are missing, and removes nothing but the
//! file of a journal's generation before the current one.
//!
//! `adopt` opens in the same way, removes no stray, and lists files where they stand that no manifest lists. First it
//! makes the file `adopt` in store 0. Then it reads the files of stores 3, 2 and 1 (`found_files`), gives each variable
//! without a row one by its first file, and lists what each row takes of each store in one commit. At last it removes
//! the file `adopt`. Each step is on the disk before the next one, so an adoption that was cut off goes on where it
//! stopped when it is asked for again, and until then no opening removes a file.
//!
//! Caveat: it looks only at lengths of listed files, so a disk whose listed bytes others damaged is
//! opened too, and adopted into.
#![tactic(auto)]

mod adopted;
mod adopting;
mod counting;
mod error;
mod files;
mod finding;
mod journals;
pub mod laws;
mod listing;
mod opening;
mod registering;
mod stepping;
mod strays;
mod sweeping;
mod taking;
mod unfinished;

pub use adopted::{AdoptErr, Adopted};
pub use adopting::adopt;
pub use error::ReopenErr;
pub use opening::{open_to_read, reopen};
