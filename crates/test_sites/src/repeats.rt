//! A list of outcomes in which equal neighbours are written once, after their number, as in
//! `477 × refused 50 - -`.
use crate::line::Line;
use std::alloc::Global;

/// The last outcome, and the number of equal consecutive ones.
#[derive(Drop)]
pub(crate) struct Repeats {
    count: u64,
    outcome: Vec<u8>,
}

impl Repeats {
    /// Creates the state before the first outcome.
    pub(crate) fn new(alloc: Global) -> Repeats {
        Repeats {
            count: 0,
            outcome: Vec::new(alloc),
        }
    }

    /// Appends the last outcomes to `line`, and counts `outcome` as the first of the next.
    fn begin(&mut self, outcome: Vec<u8>, line: &mut Line) {
        self.push_to(line);
        self.count = 1;
        self.outcome = outcome;
    }

    /// Adds an outcome. If it differs from the last outcomes, appends these to `line`.
    pub(crate) fn add(&mut self, outcome: Line, line: &mut Line) {
        match outcome.ended() {
            Ok(bytes) if self.outcome == bytes => self.count = self.count.saturating_add(1),
            Ok(bytes) => self.begin(bytes, line),
            Err(_) => line.fail(),
        }
    }

    /// Appends the number of the last outcomes, and one of them. Appends nothing before the first outcome.
    pub(crate) fn push_to(&self, line: &mut Line) {
        if self.count > 0 {
            line.begin_part();
            line.push_number(self.count);
            line.push(" × ".as_bytes());
            line.push(&self.outcome);
        }
    }
}
