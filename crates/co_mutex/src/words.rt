//! Where the words of the table stand, as `specs/LockWords.antt` says, and the word that names a coroutine.
ghost use Rattle.std.specs.Prelude.{◌≡◌, ◌<◌};
ghost use Rattle.co_mutex.specs.LockWords.{next_at, grant_at, who_at};

/// How many hold the lock or want it.
pub(crate) const LOCKED: usize = 0;

/// 0, or the number of the hand-off that is published.
pub(crate) const HANDOFF: usize = 1;

/// The first of the pushed waiters.
pub(crate) const HEAD: usize = 2;

/// What follows a pass in its list.
pub(crate) fn next_word(pass: u32) -> usize
    requires { pass < 64 }
    ensures { result ≡ next_at pass }
{
    3 + 3 * pass as usize
}

/// 1 where the pass was granted the lock.
pub(crate) fn grant_word(pass: u32) -> usize
    requires { pass < 64 }
    ensures { result ≡ grant_at pass }
{
    4 + 3 * pass as usize
}

/// The coroutine for which the pass waits.
pub(crate) fn who_word(pass: u32) -> usize
    requires { pass < 64 }
    ensures { result ≡ who_at pass }
{
    5 + 3 * pass as usize
}
