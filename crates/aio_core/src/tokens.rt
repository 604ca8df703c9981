//! What a seat owes between two steps. These have no `Drop`, so that no debt is lost.
ghost use Rattle.std.specs.Prelude.{◌≡◌};

use std::marker::Model;

/// The seat announced this index, and is to push it. Contracts see the index.
#[derive(Debug)]
pub struct Announced {
    bh: u32,
}

impl Model for Announced {
    ghost use Rattle.std.specs.Prelude.{ℕ};

    ghost Value = { ℕ };

    ghost view = { λ a. a.bh };
}

impl Announced {
    pub(crate) fn of(bh: u32) -> Announced
        ensures { result ≡ bh }
    {
        Announced { bh }
    }

    pub fn bh(&self) -> u32
        ensures { result ≡ self.now }
    {
        self.bh
    }

    /// The debt goes over into what pays it.
    pub(crate) fn into_bh(self) -> u32
        ensures { result ≡ self }
    {
        let Announced { bh } = self;
        bh
    }
}

/// The head that the seat loaded follows the index that it is to push. Contracts see the index and the head.
#[derive(Debug)]
pub struct Aimed {
    bh: u32,
    head: u64,
}

impl Model for Aimed {
    ghost use Rattle.std.specs.Prelude.{ℕ};

    ghost Value = { ℕ × ℕ };

    ghost view = { λ a. (a.bh, a.head) };
}

impl Aimed {
    pub(crate) fn of(bh: u32, head: u64) -> Aimed
        ensures { result ≡ (bh, head) }
    {
        Aimed { bh, head }
    }

    pub(crate) fn into_parts(self) -> (u32, u64)
        ensures { (result.0 ≡ self.0) × (result.1 ≡ self.1) }
    {
        let Aimed { bh, head } = self;
        (bh, head)
    }
}

/// Home has this index at hand, and is to dequeue it. Contracts see the index.
#[derive(Debug)]
pub struct InHand {
    bh: u32,
}

impl Model for InHand {
    ghost use Rattle.std.specs.Prelude.{ℕ};

    ghost Value = { ℕ };

    ghost view = { λ h. h.bh };
}

impl InHand {
    pub(crate) fn of(bh: u32) -> InHand
        ensures { result ≡ bh }
    {
        InHand { bh }
    }

    pub fn bh(&self) -> u32
        ensures { result ≡ self.now }
    {
        self.bh
    }

    pub(crate) fn into_bh(self) -> u32
        ensures { result ≡ self }
    {
        let InHand { bh } = self;
        bh
    }
}
