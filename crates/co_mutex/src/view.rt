//! What the rule says of each pass.
use std::marker::{Model, PhantomData};

/// What a pass knows. No value of it is ever made.
pub struct View<T> {
    nothing: PhantomData<T>,
}

impl<T> Model for View<T> {
    ghost use Rattle.co_mutex.specs.Known.{Known, spent_known};

    ghost Value = { Known T };

    ghost view = { λ _. spent_known };
}
