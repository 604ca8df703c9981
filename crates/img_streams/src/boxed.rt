//! An image as it lies behind its lock.
ghost use Rattle.std.specs.Prelude.{◌≡◌, IfOk, IfErr};

use aio_model::Unmade;
use aio_words::Device;
use img_shared::Image;
use std::alloc::Global;
use std::marker::Model;

/// An image in a box: whoever locks and unlocks hands on its place, and doesn't move the image. Contracts see the image.
pub struct BoxedImage<D: Device> {
    pub(crate) image: Box<Image<D>>,
}

impl<D: Device> Model for BoxedImage<D> {
    ghost use Rattle.img_shared.specs.Images.{ImageState};

    ghost Value = { ImageState D };

    ghost view = { λ b. b.image.value };
}

impl<D: Device> BoxedImage<D> {
    /// Puts the image into a box. Want of memory hands back the device.
    pub fn build(alloc: Global, image: Image<D>) -> Result<BoxedImage<D>, Unmade<D>>
        ensures boxed { IfOk result (λ boxed. boxed ≡ image) }
        ensures unmade { IfErr result (λ unmade. unmade.back ≡ image.device) }
    {
        match Box::new(alloc, image) {
            Ok(image) => Ok(BoxedImage { image }),
            Err(failed) => Err(Unmade {
                back: failed.value.into_device(),
            }),
        }
    }

    /// The image.
    pub fn into_image(self) -> Image<D>
        ensures { result ≡ self }
    {
        let BoxedImage { image } = self;
        Box::into_inner(image)
    }
}
