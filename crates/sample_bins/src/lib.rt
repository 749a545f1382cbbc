//! Answers that are thinned or counted: bins of samples, as an operator asks for them.
//!
//! `read_pv` reads what a request asks for: `firstSample_60(A:B)` is an operator and a name. `BinOut::new` over
//! any output, then the calls of `act_model::Out`: it hands on to that output what the operator makes of the
//! samples that it is given.
//!
//! | Operator | What it gives |
//! |---|---|
//! | `firstSample_N` | the first sample of each bin of N seconds that has one |
//! | `lastSample_N` | the last |
//! | `count_N` | of each bin that has samples how many it has, at its start |
//! | `nth_N` | the samples at the positions 0, N, 2N and so on |
//! | `ncount` | how many samples there are |
//!
//! Bins are counted from 1970-01-01T00:00:00Z on. A count is a sample of the type SCALAR_INT.
//!
//! Model: `bins_of` is a function on lists of samples.
//!
//! Caveats: the sample before the interval of a query isn't used. A count of more than 2,147,483,647 is told as that
//! number. Memory is taken for one line.
//!
//! Tests: the built program's run it.
#![tactic(auto)]

mod beginning;
mod count;
mod giving;
mod kept;
pub mod laws;
mod op;
mod output;
mod words;

pub use op::Op;
pub use output::BinOut;
pub use words::read_pv;
