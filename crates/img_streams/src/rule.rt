//! What the lock of an image notes of each stream.
use crate::boxed::BoxedImage;
use aio_words::Device;
use co_mutex::LockRule;
use std::marker::{Model, PhantomData};

/// What an image says of a stream. No value of it is ever made: only contracts see it.
pub struct StreamNote<D> {
    opening: D,
}

impl<D> Model for StreamNote<D> {
    ghost use Rattle.std.specs.Prelude.{[], None};
    ghost use Rattle.img_shared.specs.Notes.{Note};
    ghost use Rattle.img_shared.specs.declared.phases.Phase.TheVariants.{Idle};

    ghost Value = { Note D };

    ghost view = { λ n. record { opening = n.opening; size = 0; streams = 0; rows = 0; requests = 0; entries = []; phase = Idle; told = None } };
}

/// The rule of the lock behind which an image lies: pass k is that of stream k, and its note is what the image says of
/// the stream.
pub struct ImageRule<D: Device> {
    device: PhantomData<D>,
}

impl<D: Device> LockRule for ImageRule<D> {
    ghost use Rattle.img_shared.specs.Notes.{note};

    type Value = BoxedImage<D>;

    type Note = StreamNote<D>;

    ghost note = { λ v k. note D.bytes v k };
}
