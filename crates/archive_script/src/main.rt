//! Scripts of acts on an archive over a disk in memory, read from the input. What comes of each line is written as a
//! line; what must come of it `interop/archive_script` works out.
//!
//! A script begins with `script NAME`, and has these lines:
//!
//! | Line | What it does |
//! |---|---|
//! | `settings HOLD HOLD GATHER GATHER` | of hours and of days so many are held, and so many move at once |
//! | `failing CALL ..`, `stop CALL` | these calls of the disk that `open` makes fail, or all from one on |
//! | `file STORE PATH BYTES` | puts a file on the disk |
//! | `content STORE PATH` | what a file of the disk has |
//! | `open` | opens an empty disk |
//! | `power IMAGE` | the power ends; this image of the disk is opened |
//! | `OWNER ACT WORD ..` | an act on the archive, if it was opened |
//! | `images` | the power ends; what is reported of the images 0 to 5 |
//! | `each call fails` | runs the script with each of its calls of the disk failing alone |
//! | `each call stops` | with all from that call on failing |
//! | `each call asked again` | with that call failing alone, and what was asked for then asked once more |
//!
//! The last three tell what images hold at the end that they may not.
//!
//! Moments are nanoseconds since 1970-01-01T00:00:00Z, and bytes stand in hexadecimal digits.
#![tactic(auto)]

mod asking;
mod images;
mod ledger;
mod owner;
mod running;
mod telling;

use anyhow::Result;
use std::io;

fn main(rt: HostRuntime) -> Result<()> {
    let text = io::read_to_string(rt.alloc(), rt.reader())?;
    for script in text.as_str().split("script ").skip(1) {
        let name = script.lines().next().unwrap_or("");
        let told = running::told(rt.alloc(), script)?;
        print!(rt; "script {name}\n{told}")?;
    }
    Ok(())
}
