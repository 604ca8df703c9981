//! What a device was called for.
ghost use Rattle.std.specs.Prelude.{◌≡◌, true, false};
ghost use Rattle.aio_model.specs.Counts.{one_more};

/// What a device was called for. A count stays at the greatest u64.
#[derive(Clone, Copy, Debug, PartialEq, Eq)]
pub struct Counts {
    /// How often its doorbell was answered.
    pub rings: u64,
    /// How often its timer expired.
    pub ticks: u64,
    /// Whether it was asked to stop.
    pub stopped: bool,
}

impl Counts {
    pub fn none() -> Counts
        ensures { result ≡ record { rings = 0; ticks = 0; stopped = false } }
    {
        Counts {
            rings: 0,
            ticks: 0,
            stopped: false,
        }
    }

    pub fn ring(&mut self)
        ensures { self.new ≡ record self.old { rings = one_more self.old.rings } }
    {
        self.rings = self.rings.saturating_add(1);
    }

    pub fn tick(&mut self)
        ensures { self.new ≡ record self.old { ticks = one_more self.old.ticks } }
    {
        self.ticks = self.ticks.saturating_add(1);
    }

    pub fn stop(&mut self)
        ensures { self.new ≡ record self.old { stopped = true } }
    {
        self.stopped = true;
    }
}
