// What was told of each row, and whether what an image holds of it may be left then.
use crate::asking::word;
use crate::telling::Text;
use act_model::Answer;
use anyhow::Result;
use disk_model::MemFile;
use pb_messages::State;
use std::alloc::Global;

/// A row that an image holds, with the lines of its samples.
#[derive(Drop)]
pub(crate) struct RowLeft {
    pub(crate) name: String,
    pub(crate) state: State,
    pub(crate) lines: Vec<String>,
}

// A row of which something was told.
#[derive(Drop)]
struct RowTold {
    name: String,
    // Whether it was told to be there. Else a fault was told of its registration.
    is_there: bool,
    // `None` where a fault was told of a change of it.
    state: Option<State>,
    held: Option<String>,
    // The lines of all samples that were accepted, and how many of them were told to be durable.
    lines: Vec<String>,
    durable: usize,
}

impl RowTold {
    fn accept(&mut self, line: String) -> Result<()> {
        self.is_there = true;
        self.lines.push(line)?;
        Ok(())
    }

    // What was held is accepted.
    fn accept_held(&mut self) -> Result<()> {
        match self.held.take() {
            Some(line) => self.accept(line),
            None => Ok(()),
        }
    }

    // What an act on it was answered. Where the act found a doubt, it tells what the change has made; else a doubt may
    // stand that it hasn't looked at.
    fn change(
        &mut self,
        alloc: Global,
        act: &str,
        line: &str,
        answer: &Answer<MemFile>,
    ) -> Result<()> {
        match answer {
            Answer::RenameNotPaused {
                state,
                change: 1,
                ..
            } => self.state = Some(*state),
            Answer::Done if act == "pause" => self.state = Some(State::Paused),
            Answer::Done if act == "resume" => self.state = Some(State::Running),
            Answer::Held => self.held = Some(String::from_str(alloc, line)?),
            Answer::Kept => return self.accept(String::from_str(alloc, line)?),
            Answer::TickKept { .. } => return self.accept_held(),
            _ => {}
        }
        Ok(())
    }

    // What is wrong with what is left of it, or nothing.
    fn wrong(&self, left: &RowLeft) -> &'static str {
        if self.state.is_some() && self.state != Some(left.state) {
            "has another state"
        } else if left.lines.len() < self.durable {
            "has lost what was durable"
        } else if !self.lines.starts_with(&left.lines) {
            "has other samples than were accepted"
        } else {
            ""
        }
    }
}

/// What was told, of each row.
#[derive(Drop)]
pub(crate) struct Ledger {
    alloc: Global,
    rows: Vec<RowTold>,
}

impl Ledger {
    pub(crate) fn new(alloc: Global) -> Ledger {
        let rows = Vec::new(alloc);
        Ledger { alloc, rows }
    }

    // A row that was registered, or is in doubt.
    fn registered(&self, name: &str, is_there: bool) -> Result<RowTold> {
        Ok(RowTold {
            name: String::from_str(self.alloc, name)?,
            is_there,
            state: Some(State::Running),
            held: None,
            lines: Vec::new(self.alloc),
            durable: 0,
        })
    }

    // A row is behind those in front of this place, if it is there. Those were made, and one in its place
    // that was in doubt wasn't.
    fn push(&mut self, told: RowTold, place: usize) -> Result<()> {
        self.rows.truncate(place);
        for row in &mut self.rows {
            row.is_there |= told.is_there;
        }
        self.rows.push(told)?;
        Ok(())
    }

    // A variable goes on under a new name in a row at this place, with all that was accepted of it, which is durable.
    fn renamed(&mut self, name: &str, newname: &str, place: usize) -> Result<()> {
        let mut told = self.registered(newname, true)?;
        told.state = Some(State::Paused);
        if let Some(old) = self.find(name) {
            old.state = Some(State::Retired);
            old.durable = old.lines.len();
            told.lines = old.lines.clone()?;
            told.durable = old.durable;
        }
        self.push(told, place)
    }

    // Whether a variable has its new name is in doubt.
    fn doubt_name(&mut self, name: &str, newname: &str) -> Result<()> {
        let mut told = self.registered(newname, false)?;
        told.state = Some(State::Paused);
        if let Some(old) = self.find(name) {
            old.state = None;
            told.lines = old.lines.clone()?;
            told.durable = old.durable;
        }
        if self.find(newname).is_none() {
            self.push(told, usize::MAX)?;
        }
        Ok(())
    }

    // A row has the name.
    fn is_taken(&mut self, name: &str) {
        if let Some(row) = self.find(name) {
            row.is_there = true;
        }
    }

    // Whole tails were taken, in the order of rows, of so many samples; nothing is left where no byte is.
    fn flushed(&mut self, samples: u64, left: u64) {
        let mut samples = samples;
        for row in &mut self.rows {
            let tail = row.lines.len().saturating_sub(row.durable) as u64;
            if left > 0 && samples < tail {
                return;
            }
            row.durable = row.lines.len();
            samples = samples.saturating_sub(tail);
        }
    }

    // The row of a name, or of a number.
    fn find(&mut self, word: &str) -> Option<&mut RowTold> {
        let mut place = word.parse::<usize>().unwrap_or(usize::MAX);
        for (number, row) in self.rows.iter().enumerate() {
            if row.name.as_str() == word {
                place = number;
            }
        }
        self.rows.get_mut(place)
    }

    /// Takes note of what an act was answered.
    pub(crate) fn note(&mut self, words: &[&str], answer: &Answer<MemFile>) -> Result<()> {
        let (act, name, newname) = (word(words, 0), word(words, 1), word(words, 2));
        match answer {
            Answer::Registered { row } => {
                let told = self.registered(name, true)?;
                self.push(told, *row as usize)
            }
            Answer::Renamed { row } => self.renamed(name, newname, *row as usize),
            Answer::NameTaken { .. } => {
                self.is_taken(if act == "rename" { newname } else { name });
                Ok(())
            }
            Answer::Flushed { samples, left, .. } => {
                self.flushed(*samples, *left);
                Ok(())
            }
            Answer::DiskFault => self.doubt(act, name, newname),
            _ => self.changed(act, name, word(words, 4), answer),
        }
    }

    // A fault was told of an act.
    fn doubt(&mut self, act: &str, name: &str, newname: &str) -> Result<()> {
        match act {
            "register" => self.doubt_row(name),
            "rename" => self.doubt_name(name, newname),
            "pause" | "resume" => {
                if let Some(row) = self.find(name) {
                    row.state = None;
                }
                Ok(())
            }
            _ => Ok(()),
        }
    }

    // Whether a variable has a row is in doubt, unless one was told of.
    fn doubt_row(&mut self, name: &str) -> Result<()> {
        if self.find(name).is_some() {
            return Ok(());
        }
        let told = self.registered(name, false)?;
        self.push(told, usize::MAX)
    }

    // What was told of an act on a row, of which this is the sample's line.
    fn changed(
        &mut self,
        act: &str,
        name: &str,
        line: &str,
        answer: &Answer<MemFile>,
    ) -> Result<()> {
        let alloc = self.alloc;
        match self.find(name) {
            Some(row) => row.change(alloc, act, line, answer),
            None => Ok(()),
        }
    }

    /// Puts what is wrong with what an image holds: each row that was told is there, in its state; its samples are a
    /// front of what was accepted, and all that was told to be durable is among them. It tells whether the image holds
    /// more than was told to be durable.
    pub(crate) fn put_wrong(&self, left: &[RowLeft], text: &mut Text) -> bool {
        let mut is_ahead = false;
        let mut left = left;
        for row in &self.rows {
            match left.split_first() {
                Some((other, others)) if other.name == row.name => {
                    let wrong = row.wrong(other);
                    if !wrong.is_empty() {
                        text.put(format_args!(" {} {wrong}", row.name));
                    }
                    is_ahead |= !row.is_there || row.durable < other.lines.len();
                    left = others;
                }
                _ if row.is_there => text.put(format_args!(" {} isn't there", row.name)),
                _ => {}
            }
        }
        if !left.is_empty() {
            text.put(" has a row more");
        }
        is_ahead
    }
}
