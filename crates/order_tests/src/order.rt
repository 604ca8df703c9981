//! The orders of the steps of two seats.

/// How many steps of two seats may be chosen at most.
const CHOICES: usize = 16;

/// Which of two does each step, where both have one left. Orders come one after another, until there is none that was not tried.
#[derive(Drop)]
pub struct Order {
    others: [bool; 16],
    chosen: [bool; 16],
    place: usize,
}

impl Order {
    /// The first does all that it has to do before the other begins.
    pub fn first() -> Order {
        Order {
            others: [false; 16],
            chosen: [false; 16],
            place: 0,
        }
    }

    /// Whether the other one does the next step that either may do.
    pub fn is_others(&mut self) -> bool {
        let place = self.place;
        if place >= CHOICES {
            return false;
        }
        self.place += 1;
        self.chosen[place] = true;
        self.others[place]
    }

    /// Turns to the next order: the last choice that may still fall on the other one does, and those behind it are made anew. False
    /// where there is none.
    pub fn advance(&mut self) -> bool {
        self.place = 0;
        for place in (0..CHOICES).rev() {
            let turned = self.chosen[place] && !self.others[place];
            self.chosen[place] = false;
            self.others[place] = turned;
            if turned {
                return true;
            }
        }
        false
    }
}
