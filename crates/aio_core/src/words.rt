//! Where the words of the table stand, as `specs/Words.antt` says.
ghost use Rattle.std.specs.Prelude.{◌≡◌, ◌<◌, ◌≤◌};
ghost use Rattle.aio_core.specs.Words.{event_at, flags_at, next_at};

/// The first of the list of what was pushed.
pub const HEAD: usize = 0;

pub const NOTIFIED: usize = 1;

pub const NOTIFY_ME: usize = 2;

pub const NOTIFIER: usize = 3;

/// The flags of a lot without a life.
pub const FREE: u64 = 32;

/// An event: 1 where it is set.
pub fn event_word(event: u32) -> usize
    ensures { result ≡ event_at event }
{
    4 + event as usize
}

/// The flags of an index.
pub fn flags_word(bh: u32) -> usize
    ensures { result ≡ flags_at bh }
{
    68 + 2 * bh as usize
}

/// What follows an index in its list.
pub fn next_word(bh: u32) -> usize
    ensures { result ≡ next_at bh }
{
    69 + 2 * bh as usize
}
