//! Why a batch isn't added.
use thiserror::Error;
use tx_model::Stop;

/// Why a batch wasn't added. The attempt is over then.
#[derive(Debug, Clone, Copy, PartialEq, Eq, Error)]
pub enum FillStop {
    /// This lane's own segment has `free` words, and the batch needs `needs` there, which are more. It is the lowest such lane.
    #[error("lane {lane} has {free} free words in segment {segment}, and the batch needs {needs} there")]
    Room {
        lane: u64,
        segment: u64,
        free: u64,
        needs: u64,
    },
    /// A read was stopped.
    #[error("{stop}")]
    Stopped {
        stop: Stop,
    },
}

impl From<Stop> for FillStop {
    ghost use Rattle.std.specs.Prelude.{◌≡◌};
    ghost use Rattle.tx_postings.specs.declared.stops.FillStop.TheVariants.{Stopped};

    ghost from_gives = { λ stop e. e ≡ Stopped stop };

    fn from(stop: Stop) -> Self {
        FillStop::Stopped { stop }
    }
}

/// Why a batch wasn't added in an attempt. Nothing is committed.
#[derive(Debug, Clone, Copy, PartialEq, Eq, Error)]
pub enum AddStop {
    /// This lane's own segment has `free` words, and the batch needs `needs` there, which are more. It is the lowest such lane.
    #[error("lane {lane} has {free} free words in segment {segment}, and the batch needs {needs} there")]
    Room {
        lane: u64,
        segment: u64,
        free: u64,
        needs: u64,
    },
    /// A read or the commit was stopped.
    #[error("{stop}")]
    Stopped {
        stop: Stop,
    },
    /// The memory has no commit left: it has had `index` of them.
    #[error("the memory has had its last commit, number {index}")]
    Worn {
        index: u64,
    },
}

impl From<FillStop> for AddStop {
    ghost use Rattle.std.specs.Prelude.{◌≡◌};
    ghost use Rattle.tx_postings.specs.Stops.{add_stop};

    ghost from_gives = { λ stop e. e ≡ add_stop stop };

    fn from(stop: FillStop) -> Self {
        match stop {
            FillStop::Room {
                lane,
                segment,
                free,
                needs,
            } => AddStop::Room {
                lane,
                segment,
                free,
                needs,
            },
            FillStop::Stopped { stop } => AddStop::Stopped { stop },
        }
    }
}
