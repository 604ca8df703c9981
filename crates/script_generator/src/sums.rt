//! What a run of the generated script comes to.
ghost use Rattle.std.specs.Prelude.{◌≡◌, ◌<◌, ◌^◌, length};
ghost use Rattle.aio_model.specs.Serving.SerialHistory.{errors_of};
ghost use Rattle.script_generator.specs.Sums.{got_by, got_in, held, sums_of, written_bytes, written_in, zeroed_by, zeroed_in};

use aio_model::{Placed, Reply};

/// The sums that are printed of a run of the generated script, in place of its replies: they are the same at each run.
#[derive(Clone, Copy, Debug, PartialEq, Eq)]
pub struct Sums {
    /// How many requests the script has.
    pub n: u32,
    /// The number at which its places begin.
    pub from: u32,
    /// How often a coroutine was entered for the first time.
    pub begun: u32,
    /// How often one came from another loop.
    pub moved: u32,
    /// How many bytes the writes put that were served whole.
    pub written: u64,
    /// How many bytes the reads found.
    pub got: u64,
    /// How many bytes the zeroings made zero that were served whole.
    pub zeroed: u64,
    /// How many replies are errors.
    pub errors: u32,
}

impl Sums {
    /// The sums of these replies, with what is known of the run besides. Sums of bytes stay at the greatest u64.
    pub fn of(n: u32, from: u32, begun: u32, moved: u32, served: &[Placed]) -> Sums
        requires { length served.now < 2 ^ 32 }
        ensures { result ≡ sums_of n from begun moved served.now }
    {
        Sums {
            n,
            from,
            begun,
            moved,
            written: written_in(served),
            got: got_in(served),
            zeroed: zeroed_in(served),
            errors: errors_in(served),
        }
    }
}

fn written_in(served: &[Placed]) -> u64
    ensures { result ≡ held (written_in served.now) }
{
    let mut total: u64 = 0;
    for placed in served {
        total = total.saturating_add(written_bytes(&placed.reply));
    }
    total
}

fn written_bytes(reply: &Reply) -> u64
    ensures { result ≡ written_bytes reply.now }
{
    match reply {
        Reply::Put(n) => u64::from(*n),
        _ => 0,
    }
}

fn got_in(served: &[Placed]) -> u64
    ensures { result ≡ held (got_in served.now) }
{
    let mut total: u64 = 0;
    for placed in served {
        total = total.saturating_add(got_by(&placed.reply));
    }
    total
}

fn got_by(reply: &Reply) -> u64
    ensures { result ≡ got_by reply.now }
{
    match reply {
        Reply::Got(bytes) => bytes.len() as u64,
        _ => 0,
    }
}

fn zeroed_in(served: &[Placed]) -> u64
    ensures { result ≡ held (zeroed_in served.now) }
{
    let mut total: u64 = 0;
    for placed in served {
        total = total.saturating_add(zeroed_by(&placed.reply));
    }
    total
}

fn zeroed_by(reply: &Reply) -> u64
    ensures { result ≡ zeroed_by reply.now }
{
    match reply {
        Reply::Zeroed(n) => u64::from(*n),
        _ => 0,
    }
}

fn errors_in(served: &[Placed]) -> u32
    requires { length served.now < 2 ^ 32 }
    ensures { result ≡ errors_of served.now }
{
    served
        .iter()
        .filter(|placed| placed.reply.is_error())
        .count() as u32
}
