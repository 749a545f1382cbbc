//! Retrievals, and the raw text of an answer: samples of one variable by years, each year's behind a header
//! line, in the PB file format.
//!
//! [`retrieve`] pins a variable through any actor, opens the pin's pieces one by one, merges them and the tail, and
//! writes the answer to any output. Then it gives the pin up. Who has something to do once the pin is answered calls
//! its two halves, [`pin_variable`] and [`read_pinned`].
//!
//! [`RawOut`] is such an output: `RawOut::new` over any sink, then the calls of `act_model::Out`: `begin` once,
//! `sample` for each sample, `finish` at the end. An empty line stands between two years. An answer without samples is
//! one header line, of the year of the interval's beginning, or the nearest one that samples stand in.
//!
//! Model: `IsRaw` relates a subject and a list of samples to their text. `IsPinned` says which acts a
//! retrieval made, why it ended and what it wrote, and `WritesAnswer` that this is the answer over all that
//! was accepted as its pin was made.
//!
//! Caveats: the year of each sample is computed from its moment. A pin is given up before the text is ended, so
//! `Finished` says that both were done.
//!
//! Tests: the built program's run it.
#![tactic(auto)]

mod give;
mod head;
mod pinned;
mod put;
mod raw;
mod retrieval;
mod retrieved;
mod variable;
mod year;

pub use raw::RawOut;
pub use retrieval::{give_up_pin, read_pinned, retrieve};
pub use retrieved::Retrieved;
pub use variable::{PinVariableErr, PinnedVariable, pin_variable};
