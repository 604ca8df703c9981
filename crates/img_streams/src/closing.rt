//! The end of a run: the coroutines of streams that have retired are taken apart, and their lock is closed.
ghost use Rattle.std.specs.Prelude.{◌≡◌, ◌<◌, ℕ, List, map};
ghost use Rattle.aio_model.specs.declared.scripts.image_scripts.Script.{Script};
ghost use Rattle.aio_model.specs.declared.scripts.image_scripts.Step.{Step};
ghost use Rattle.co_mutex.specs.declared.lock.CoMutex.{CoMutex};
ghost use Rattle.co_mutex.specs.Closing.{AreAll};
ghost use Rattle.co_mutex.specs.Passes.{built_of, passes_of};
ghost use Rattle.img_streams.specs.Retired.{ArePartsOf, AreUnused, HaveRetired, ShowsRetired};
ghost use Rattle.img_streams.specs.Streams.{HasGone, IsStreamOf, source};

use crate::rule::ImageRule;
use crate::stream::Stream;
use aio_words::Device;
use co_mutex::{CoMutex, Pass};
use img_shared::Image;

/// Closes the lock of streams that have retired, and gives the image back. `img_join::finish` makes the replies of it.
pub fn settle<D: Device>(lock: CoMutex<ImageRule<D>>, passes: Vec<Pass<ImageRule<D>>>) -> Image<D>
    requires rest { (0 < passes_of lock) × AreAll lock passes.items }
    ensures shows { (lines : List Step) (size : ℕ) (ids : List ℕ) (rows : List (List (List ℕ)))
        → HaveRetired D.bytes lock lines size ids rows passes.items
        → ShowsRetired D.bytes lines size ids rows (built_of lock) result }
    ensures untouched { AreUnused passes.items → result ≡ built_of lock }
{
    lock.close(passes).into_image()
}

impl<D: Device> Stream<ImageRule<D>> {
    /// Takes a coroutine apart: its pass, and the buffers of the requests that have their replies.
    pub fn into_parts(self) -> (Pass<ImageRule<D>>, Vec<Vec<u8>>)
        ensures pass { result.0 ≡ self.pass }
        ensures filled { result.1 ≡ self.filled }

        // Of a stream that has retired, for each lock and script that it is of.
        ensures retired { (lock : CoMutex _ _ _) (script : Script) → IsStreamOf D.bytes self (source lock script) → HasGone self.at
            → ArePartsOf D.bytes lock script.lines script.image self.id self.co.co (map (λ buffer. buffer.items) result.1.items) result.0 }
    {
        self.apart()
    }
}
