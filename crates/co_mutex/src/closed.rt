//! How a lock is closed: all its passes come together, and the value comes out.
ghost use Rattle.std.specs.Prelude.{◌≡◌, ℕ, ◌<◌, true, List};
ghost use Rattle.co_mutex.specs.Places.{AtRest};
ghost use Rattle.aio_model.specs.Lock.History.{value_of};
ghost use Rattle.co_mutex.specs.Opening.{parts_of, part_of};
ghost use Rattle.co_mutex.specs.Passes.{built_of, passes_of, known};
ghost use Rattle.co_mutex.specs.Closing.{In, AreAll, Gathers};

use crate::lock::{CoMutex, Pass};
use crate::rule::{LockRule, Together};
use crate::slot::Slot;
use crate::view::View;
use atomic_table::Seat;

impl<P: LockRule> CoMutex<P> {
    /// All seats in one.
    fn gather(&self, mut passes: Vec<Pass<P>>) -> Seat<Slot<P::Value>, View<P::Value>>
        requires { (0 < passes_of self.now) × AreAll self.now passes.items }
        ensures id { result.table_id ≡ self.now.table.shared.table_id }
        ensures live { result.me.0.live ≡ true }
        ensures parts { (p : _) → In p passes.items → In (part_of (known p)) (parts_of result.me.0) }
        ensures rest { result.me.0.place ≡ AtRest }
    {
        let Some(first) = passes.pop() else {
            unreachable!()
        };
        let mut all = first.into_seat();
        while let Some(pass) = passes.pop() {
            self.table
                .shared
                .join_seat::<Together>(&mut all, pass.into_seat());
        }
        all
    }

    /// Takes the value out of a lock that nobody has or wants. These are all its passes, each at rest.
    pub fn close(self, passes: Vec<Pass<P>>) -> P::Value
        requires { (0 < passes_of self) × AreAll self passes.items }
        ensures { (history : _) × Gathers P.note self passes.items history × (result ≡ value_of (built_of self) history) }
    {
        let all = self.gather(passes);
        let CoMutex { table } = self;
        let mut closed = table.close_with(all);
        let first = closed.take(0);
        let Slot::Value(value) = first else {
            unreachable!()
        };
        let second = closed.take(1);
        let Slot::Waiters(_) = second else {
            unreachable!()
        };
        closed.free();
        value
    }
}
