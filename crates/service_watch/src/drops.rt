// Samples that a service dropped, by reason.
use series_model::Reason;
use std::alloc::{AllocError, Global};

/// How many samples were dropped for each reason, and of which name the last one was. Each number stays at the
/// last one that a u64 can show.
#[derive(Drop)]
pub struct Drops {
    unknown: u64,
    paused: u64,
    wrong_type: u64,
    late: u64,
    ahead: u64,
    // The name of the last one's variable, which may be none.
    name: Vec<u8>,
}

impl Drops {
    /// None.
    pub fn none(alloc: Global) -> Drops {
        Drops {
            unknown: 0,
            paused: 0,
            wrong_type: 0,
            late: 0,
            ahead: 0,
            name: Vec::new(alloc),
        }
    }

    /// Counts one more.
    pub fn count(&mut self, reason: Reason, name: &[u8]) {
        let number = match reason {
            Reason::Unknown => &mut self.unknown,
            Reason::Paused => &mut self.paused,
            Reason::WrongType => &mut self.wrong_type,
            Reason::NotLater { .. } => &mut self.late,
            Reason::Future { .. } => &mut self.ahead,
        };
        *number = number.saturating_add(1);
        self.name.clear();
        let _ = self.name.extend_from_slice(name);
    }

    /// How many there are.
    pub fn total(&self) -> u64 {
        let numbers = [
            self.unknown,
            self.paused,
            self.wrong_type,
            self.late,
            self.ahead,
        ];
        numbers
            .iter()
            .fold(0, |sum: u64, number| sum.saturating_add(*number))
    }

    /// What is told of them.
    pub fn text(&self, alloc: Global) -> Result<String, AllocError> {
        let total = self.total();
        let Drops {
            unknown,
            paused,
            wrong_type,
            late,
            ahead,
            ..
        } = self;
        let mut text = format!(in alloc;
            "dropped {total} samples: {unknown} of no variable, {paused} paused, {wrong_type} of another type, \
             {late} late, {ahead} ahead; the last of "
        )?;
        self.push_name(alloc, &mut text)?;
        Ok(text)
    }

    // The name of the last one, of which a byte that can't be written is shown by its number.
    fn push_name(&self, alloc: Global, text: &mut String) -> Result<(), AllocError> {
        for byte in &self.name {
            if byte.is_ascii_graphic() {
                text.push(char::from(*byte))?;
            } else {
                text.push_str(&format!(in alloc; "\\x{byte:02x}")?)?;
            }
        }
        Ok(())
    }
}
