//! The jobs of one-shots.
ghost use Rattle.std.specs.Prelude.{◌≡◌};

/// What a one-shot is begun for. Contracts and histories see its number.
pub trait Job {
    ghost use Rattle.std.specs.Prelude.{ℕ};

    ghost number_of: { Self → ℕ };

    fn number(&self) -> u64
        ensures { result ≡ number_of self.now };
}

impl Job for () {
    ghost number_of = { λ _. 0 };

    fn number(&self) -> u64 {
        0
    }
}

impl Job for u64 {
    ghost number_of = { λ job. job };

    fn number(&self) -> u64 {
        *self
    }
}
