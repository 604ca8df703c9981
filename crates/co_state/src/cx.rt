//! What a coroutine asks for in a resume: wakes of others, and the end.
ghost use Rattle.std.specs.Prelude.{◌≡◌, ◌+◌, ◌-◌, ◌<◌, ◌++◌, ◌∷◌, [], true, MatchOption};

use std::marker::Model;

/// A coroutine, by its number and the loop that is its home.
#[derive(Clone, Copy, Debug, PartialEq, Eq)]
pub struct CoId {
    pub co: u32,
    pub home: u32,
}

/// How many coroutines one resume may wake.
const ROOM: u32 = 4;

const NOBODY: CoId = CoId { co: 0, home: 0 };

/// What a coroutine asks for in one resume. Whoever resumed it carries that out afterwards.
#[derive(Debug, Drop)]
pub struct Cx {
    wakes: [CoId; 4],
    made: u32,
    given: u32,
    quits: bool,
}

impl Model for Cx {
    ghost use Rattle.std.specs.Prelude.{◌≤◌, take, drop};
    ghost use Rattle.co_state.specs.Wants.{Wants};

    ghost Value = { Wants };

    ghost view = { λ cx. record { wakes = drop cx.given (take cx.made cx.wakes); made = cx.made; quits = cx.quits } };

    ghost invariant = { λ cx. (cx.given ≤ cx.made) × (cx.made ≤ 4) };
}

impl Cx {
    ghost use Rattle.co_state.specs.Wants.{nothing_asked};

    /// One for the next resume.
    pub fn fresh() -> Cx
        ensures { result ≡ nothing_asked }
    {
        Cx {
            wakes: [NOBODY; 4],
            made: 0,
            given: 0,
            quits: false,
        }
    }

    /// Asks to wake a coroutine. One of the same home is entered as soon as the running one has yielded, and any
    /// other is scheduled into its home.
    pub fn wake(&mut self, co: CoId)
        requires { self.old.made < 4 }
        ensures { self.new ≡ record self.old { wakes = self.old.wakes ++ co ∷ []; made = self.old.made + 1 } }
    {
        self.wakes[self.made as usize] = co;
        self.made += 1;
    }

    /// How many more may be woken. Each resume begins with four.
    pub fn room(&self) -> u32
        ensures { result ≡ 4 - self.now.made }
    {
        ROOM - self.made
    }

    /// Asks the home to quit.
    pub fn quit(&mut self)
        ensures { self.new ≡ record self.old { quits = true } }
    {
        self.quits = true;
    }

    /// The next of those to be woken.
    pub fn taken(&mut self) -> Option<CoId>
        ensures next { MatchOption result (self.old.wakes ≡ []) (λ co. self.old.wakes ≡ co ∷ self.new.wakes) }
        ensures rest { self.new ≡ record self.old { wakes = self.new.wakes } }
        ensures none { MatchOption result (self.new ≡ self.old) (λ _. Unit {0}) }
    {
        if self.given == self.made {
            return None;
        }
        let co = self.wakes[self.given as usize];
        self.given += 1;
        Some(co)
    }

    /// Whether the home was asked to quit.
    pub fn quits(&self) -> bool
        ensures { result ≡ self.now.quits }
    {
        self.quits
    }
}
