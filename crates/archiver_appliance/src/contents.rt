// How much an archive has, as `status` tells it: a service tells it when it begins.
ghost use Rattle.std.specs.Prelude.{None};

use edge_io::{Failed, Sink};

/// A sink that counts what a report of `status` tells, and keeps nothing else of it.
#[derive(Drop)]
pub struct ReportCounts {
    /// How many variables there are: a line is told of each.
    pub variables: u64,
    /// How many files the three stores list: each line ends with their numbers.
    pub files: u64,
    // The last three numbers of the line so far.
    numbers: [u64; 3],
}

impl ReportCounts {
    pub fn none() -> ReportCounts {
        ReportCounts {
            variables: 0,
            files: 0,
            numbers: [0, 0, 0],
        }
    }

    fn take(&mut self, byte: u8) {
        let [short, medium, long] = self.numbers;
        match byte {
            b'\n' => {
                let files = short.saturating_add(medium).saturating_add(long);
                self.files = self.files.saturating_add(files);
                self.variables = self.variables.saturating_add(1);
                self.numbers = [0, 0, 0];
            }
            b' ' => self.numbers = [medium, long, 0],
            b'0'..=b'9' => {
                let digit = u64::from(byte - b'0');
                self.numbers = [short, medium, long.saturating_mul(10).saturating_add(digit)];
            }
            _ => {}
        }
    }
}

impl Sink for ReportCounts {
    ghost written = { λ _. None };

    ghost write_faults = { λ _. 0 };

    fn write(&mut self, bytes: &[u8]) -> Result<usize, Failed> {
        for byte in bytes {
            self.take(*byte);
        }
        Ok(bytes.len())
    }
}
