//! An image and a player for each of its streams.
ghost use Rattle.std.specs.Prelude.{◌≡◌, ◌<◌, ◌≤◌, ◌^◌, sum, length, IfOk};
ghost use Rattle.aio_model.specs.Serving.{length_of};
ghost use Rattle.shared_tests.specs.Tables.{AreFresh};

use crate::player::Player;
use crate::turn::Answer;
use aio_model::{NoMemory, Request, Unmade};
use aio_words::Device;
use img_shared::{Entry, Image};
use std::alloc::Global;
use std::marker::Model;

/// An image and a player for each of its streams.
#[derive(Drop)]
pub struct Table<D: Device> {
    image: Image<D>,
    players: Vec<Player>,
}

impl<D: Device> Model for Table<D> {
    ghost use Rattle.shared_tests.specs.Tables.{SharedTable, AllSit};

    ghost Value = { SharedTable D };

    ghost view = { λ t. record { image = t.image; players = t.players.items } };

    ghost invariant = { λ t. AllSit 0 t.players.items t.image };
}

impl<D: Device> Table<D> {
    /// For streams that have so many requests.
    pub fn build(
        alloc: Global,
        device: D,
        size: u64,
        requests: &[u32],
    ) -> Result<Table<D>, Unmade<D>>
        requires inside { size ≤ D.extent device }
        requires streams { length requests.now ≤ 64 }
        requires few { sum requests.now ≤ 4096 }
    {
        let Ok(players) = players_of(alloc, requests) else {
            return Err(Unmade { back: device });
        };
        let image = Image::build(alloc, device, size, requests)?;
        Ok(Table { image, players })
    }

    /// What the stream does next.
    pub fn step(&mut self, stream: usize) -> Answer {
        if stream >= self.players.len() {
            return Answer::Nothing;
        }
        self.players[stream].step(&mut self.image)
    }

    /// Whether the image says that the stream holds.
    pub fn holds(&self, stream: u32) -> bool {
        self.image.holds(stream)
    }

    /// The stream is told its next request. Answers whether it is between two.
    pub fn asks(&mut self, stream: usize, request: Request, buffer: Vec<u8>) -> bool
        requires small { length_of request < 2 ^ 32 }
        requires room { length buffer.items ≡ length_of request }
    {
        if stream >= self.players.len() {
            return false;
        }
        self.players[stream].asks(request, buffer)
    }

    /// What the stream's buffer holds.
    pub fn found(&self, stream: usize) -> &[u8] {
        match self.players.get(stream) {
            Some(player) => player.found(),
            None => &[],
        }
    }

    pub fn journal(&self) -> &[Entry<D>] {
        self.image.journal()
    }

    pub fn into_device(self) -> D {
        let Table { image, players: _ } = self;
        image.into_device()
    }
}

/// The players of streams that have so many requests.
fn players_of(alloc: Global, requests: &[u32]) -> Result<Vec<Player>, NoMemory>
    requires { length requests.now ≤ 64 }
    ensures { IfOk result (λ players. AreFresh 0 requests.now players.items) }
{
    let Ok(mut players) = Vec::with_capacity(alloc, requests.len()) else {
        return Err(NoMemory);
    };
    for (stream, left) in requests.iter().enumerate() {
        players.push_reserved(Player::fresh(alloc, stream as u32, *left));
    }
    Ok(players)
}
