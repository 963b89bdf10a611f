//! What is counted.
use ring_core::Later;
use tx_model::Stop;

/// How often each answer came.
#[derive(Clone, Copy)]
pub struct Tally {
    pub attempts: u64,
    pub commits: u64,
    /// Attempts that wrote nothing and were committed.
    pub read_only: u64,
    pub given_up: u64,
    pub met_at_read: u64,
    pub overrun_at_read: u64,
    pub met_at_stamp: u64,
    pub overrun_at_stamp: u64,
    pub worn: u64,
    pub lost: u64,
    pub unpublished: u64,
    pub slot_busy: u64,
    pub order: u64,
}

impl Tally {
    pub const NOTHING: Tally = Tally {
        attempts: 0,
        commits: 0,
        read_only: 0,
        given_up: 0,
        met_at_read: 0,
        overrun_at_read: 0,
        met_at_stamp: 0,
        overrun_at_stamp: 0,
        worn: 0,
        lost: 0,
        unpublished: 0,
        slot_busy: 0,
        order: 0,
    };

    pub fn count_read_stop(&mut self, stop: Stop) {
        let count = match stop {
            Stop::Met { .. } => &mut self.met_at_read,
            Stop::Overrun { .. } => &mut self.overrun_at_read,
        };
        *count = count.wrapping_add(1);
    }

    pub fn count_stamp_stop(&mut self, stop: Stop) {
        let count = match stop {
            Stop::Met { .. } => &mut self.met_at_stamp,
            Stop::Overrun { .. } => &mut self.overrun_at_stamp,
        };
        *count = count.wrapping_add(1);
    }

    pub fn count_later(&mut self, later: Later) {
        let count = match later {
            Later::Lost { .. } => &mut self.lost,
            Later::Unpublished { .. } => &mut self.unpublished,
            Later::SlotBusy { .. } => &mut self.slot_busy,
            Later::Order { .. } => &mut self.order,
        };
        *count = count.wrapping_add(1);
    }

    /// Both together.
    pub fn with(self, other: Tally) -> Tally {
        Tally {
            attempts: self.attempts.wrapping_add(other.attempts),
            commits: self.commits.wrapping_add(other.commits),
            read_only: self.read_only.wrapping_add(other.read_only),
            given_up: self.given_up.wrapping_add(other.given_up),
            met_at_read: self.met_at_read.wrapping_add(other.met_at_read),
            overrun_at_read: self.overrun_at_read.wrapping_add(other.overrun_at_read),
            met_at_stamp: self.met_at_stamp.wrapping_add(other.met_at_stamp),
            overrun_at_stamp: self.overrun_at_stamp.wrapping_add(other.overrun_at_stamp),
            worn: self.worn.wrapping_add(other.worn),
            lost: self.lost.wrapping_add(other.lost),
            unpublished: self.unpublished.wrapping_add(other.unpublished),
            slot_busy: self.slot_busy.wrapping_add(other.slot_busy),
            order: self.order.wrapping_add(other.order),
        }
    }
}
