//! The buffers of all streams.
ghost use Rattle.std.specs.Prelude.{◌≡◌, ◌<◌, ℕ, List, length, map, set};
ghost use Rattle.img_join.specs.Placing.{first_buffer, rest_of, row_at};

use std::collections::VecDeque;
use std::marker::Model;

/// The buffers of each stream, in the order of its requests. Contracts see the rows of their bytes.
#[derive(Drop)]
pub struct Buffers {
    rows: Vec<VecDeque<Vec<u8>>>,
}

impl Model for Buffers {
    ghost use Rattle.std.specs.Prelude.{map, List, ℕ};

    ghost Value = { List (List (List ℕ)) };

    ghost view = { λ b. map (λ row. map (λ buffer. buffer.items) row.items) b.rows.items };
}

impl Buffers {
    /// The rows, one for each stream.
    pub fn of(rows: Vec<VecDeque<Vec<u8>>>) -> Buffers
        ensures { result ≡ map (λ row. map (λ buffer. buffer.items) row.items) rows.items }
    {
        Buffers { rows }
    }

    /// Takes the stream's next buffer.
    pub fn next(&mut self, stream: u32) -> Vec<u8>
        requires known { stream < length self.old }
        requires some { 0 < length (row_at self.old stream) }
        ensures found { result.items ≡ first_buffer (row_at self.old stream) }
        ensures rest { self.new ≡ set self.old stream (rest_of (row_at self.old stream)) }
    {
        let Some(buffer) = self.rows[stream as usize].pop_front() else {
            unreachable!()
        };
        buffer
    }
}
