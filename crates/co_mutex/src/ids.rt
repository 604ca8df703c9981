//! A coroutine as the number that names it in a word of the table.
ghost use Rattle.std.specs.Prelude.{◌≡◌};
ghost use Rattle.co_mutex.specs.Calls.{co_id_word as number_of};

use co_state::CoId;

pub(crate) fn word_of(co: CoId) -> u64
    ensures { result ≡ number_of co }
{
    u64::from(co.co) * 4_294_967_296 + u64::from(co.home)
}

pub(crate) fn co_of(word: u64) -> CoId
    ensures { number_of result ≡ word }
{
    CoId {
        co: (word / 4_294_967_296) as u32,
        home: (word % 4_294_967_296) as u32,
    }
}
