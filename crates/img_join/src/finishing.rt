//! The end of an image: its replies and its device.
ghost use Rattle.std.specs.Prelude.{◌≡◌, ◌<◌, ◌≤◌, ℕ, List, [], length, vec_capacity};
ghost use Rattle.aio_model.specs.declared.scripts.image_scripts.Step.{Step};
ghost use Rattle.img_join.specs.Ended.{HaveOwnIds, AreOurs, HasRetired, IsChargedFor, IsServedWhole};
ghost use Rattle.img_join.specs.Placing.{placed_from, row_at};
ghost use Rattle.img_shared.specs.declared.phases.Phase.TheVariants.{Retired};
ghost use Rattle.img_shared.specs.Journals.{noted_count};
ghost use Rattle.img_shared.specs.Phases.{phase_at};

use crate::buffers::Buffers;
use crate::placing::place_all;
use aio_model::Placed;
use aio_words::Device;
use img_shared::Image;

/// Takes an image apart that its streams have left: puts the replies into `served`, in the order of the journal and each
/// under its stream's id, and gives the device back. A read's bytes are those of its stream's next buffer; each of the
/// other requests has a buffer too, whose bytes no reply shows.
pub fn finish<D: Device>(
    image: Image<D>,
    ids: &[u32],
    buffers: Buffers,
    served: &mut Vec<Placed>,
) -> D
    requires streams { length image.requests ≡ length ids.now }
    requires rows { length buffers ≡ length ids.now }
    requires buffered { (k : ℕ) → k < length ids.now → noted_count k image.journal ≤ length (row_at buffers k) }
    requires none { served.old.items ≡ [] }
    requires room { length image.journal ≤ vec_capacity served.old }
    ensures device { result ≡ image.device }
    ensures placed { served.new.items ≡ placed_from ids.now image.journal buffers }

    // Where all streams have retired.
    ensures charged { ((k : ℕ) → k < length ids.now → phase_at image.phases k ≡ Retired)
        → IsChargedFor D.extent D.faults D.size_faults D.calls image.size image.opening image.device served.new.items }

    // For each script whose lines are these streams' own and whose requests the accounts are of.
    ensures whole { (lines : List Step) → HaveOwnIds ids.now → AreOurs ids.now lines
        → ((k : ℕ) → k < length ids.now → HasRetired D.bytes lines ids.now image k (row_at buffers k))
        → IsServedWhole D.bytes D.faults lines image served.new.items }
{
    place_all(image.journal(), ids, buffers, served);
    image.into_device()
}
