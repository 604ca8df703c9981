//! The orders in which two rows of steps can be mixed.

/// How many steps of two passes may be chosen at most.
const CHOICES: usize = 32;

/// Which of two does each step, where both have one left. Orders come one after another, until there is none that was not tried.
#[derive(Drop)]
pub(crate) struct Order {
    others: [bool; 32],
    chosen: [bool; 32],
    place: usize,
}

impl Order {
    /// The first does all that it has to do before the other begins.
    pub(crate) fn first() -> Order {
        Order {
            others: [false; 32],
            chosen: [false; 32],
            place: 0,
        }
    }

    /// Whether the other one does the next step that either may do.
    pub(crate) fn is_others(&mut self) -> bool {
        let place = self.place;
        if place >= CHOICES {
            return false;
        }
        self.place += 1;
        self.chosen[place] = true;
        self.others[place]
    }

    /// Turns to the next order: the last choice that may still fall on the other one does, and those behind it are made anew.
    /// False where there is none.
    pub(crate) fn advance(&mut self) -> bool {
        self.place = 0;
        for place in (0..CHOICES).rev() {
            let turned = self.chosen[place] && !self.others[place];
            self.chosen[place] = false;
            self.others[place] = turned;
            if turned {
                return true;
            }
        }
        false
    }
}
