//! Keys by which timers are in order: the expiry, and behind it the stamp of the arm.
ghost use Rattle.std.specs.Prelude.{◌≡◌, ◌+◌, ◌*◌, ◌/◌, ◌%◌, ◌<◌, ◌≤◌, ℕ};
ghost use Rattle.aio_model.specs.Timers.Calls.{from_zero};
ghost use Rattle.aio_timers.specs.Keys.{stamps};

/// How many stamps there are.
const STAMPS: u128 = 1 << 64;

/// A time before 0 counts as 0.
pub(crate) fn from_zero(expire: i64) -> u64
    ensures is { result ≡ from_zero expire }
    ensures low { result < 9223372036854775808 }
{
    if expire < 0 { 0 } else { expire as u64 }
}

pub(crate) fn key_of(expiry: u64, stamp: u64) -> u128
    ensures { result ≡ expiry * stamps + stamp }
{
    u128::from(expiry) * STAMPS + u128::from(stamp)
}

pub(crate) fn expiry_of(key: u128) -> u64
    ensures { result ≡ key / stamps }
{
    (key / STAMPS) as u64
}

pub(crate) fn stamp_of(key: u128) -> u64
    ensures { result ≡ key % stamps }
{
    (key % STAMPS) as u64
}
