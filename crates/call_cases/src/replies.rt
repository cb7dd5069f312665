// Replies that no entry point gives.
use reply::Reply;

// No case expects these numbers: more is to be lent than there is; two ways to one instruction lead to two; there is no such entry point.
pub(crate) const UNLENT: u8 = 100;

pub(crate) const UNLIKE: u8 = 101;

pub(crate) const UNKNOWN: u8 = 102;

// A number that comes alone.
pub(crate) fn alone(number: u8) -> Reply {
    Reply::pair(number, 0, 0)
}
