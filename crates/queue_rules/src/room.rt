// Room for a transaction that can be done.
ghost use Rattle.std.specs.Prelude.{◌≡◌, length};
ghost use Rattle.queue_rules.specs.Outcome.{Answers, room_for};

use crate::QueueFault;
use ring_frame::need;

/// How many transactions may wait.
const QUEUE_LIMIT: usize = 1_024;

/// The last number that a transaction may have, 2^63 - 1.
const LAST_NUMBER: u64 = 9_223_372_036_854_775_807;

/// What a queue has room for.
#[derive(Clone, Copy, Debug, PartialEq, Eq)]
pub struct Room {
    /// The bytes that the journal's ring has for entries.
    pub size: u64,
    /// How many transactions wait.
    pub waiting: usize,
    /// The number of the last transaction queued.
    pub last: u64,
}

impl Room {
    /// The number of a transaction with this payload, which can be done.
    pub fn number(self, payload: &[u8]) -> Result<u64, QueueFault>
        ensures { Answers result (room_for self.size self.waiting self.last (length payload.now)) }
    {
        let len = payload.len() as u64;
        let need = need(len);
        let size = self.size;
        if need > size || len >= 1 << 32 {
            return Err(QueueFault::TooLarge { need, size });
        }
        if self.waiting >= QUEUE_LIMIT {
            return Err(QueueFault::QueueFull);
        }
        if self.last >= LAST_NUMBER {
            return Err(QueueFault::NumbersSpent);
        }
        Ok(self.last + 1)
    }
}
