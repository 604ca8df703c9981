//! After the request queue of QEMU's block layer, but each request holds the whole image: reads and flushes beside
//! each other, writes and zeros alone.
ghost use Rattle.std.specs.Prelude.{◌≡◌, ◌≢◌, ◌<◌, ◌≤◌, ◌^◌, ◌↔◌, ℕ, sum, [], ◌∷◌, ◌++◌, set, length, slice_index, replicate, IfOk, IfErr, IfSome, IsTrue};
ghost use Rattle.aio_model.specs.declared.holds.Hold.TheVariants.{Free};
ghost use Rattle.aio_model.specs.Holds.{Has, answered};
ghost use Rattle.aio_model.specs.Holds.WhoHolds.{Readers, hold_of};
ghost use Rattle.aio_model.specs.Holds.Table.{wake_one, unlocked};
ghost use Rattle.aio_model.specs.Serving.{length_of, end_of};
ghost use Rattle.img_shared.specs.declared.phases.Phase.TheVariants.{Idle, Retired};
ghost use Rattle.img_shared.specs.Phases.{held_by, hold_awaited, hold_asked, still_going, has_retired};

use crate::journal::{Entry, Ledger};
use crate::phases::Phase;
use aio_model::{Hold, NoMemory, Request, RwAnswer, Unmade};
use aio_words::Device;
use co_waits::RwState;
use img_requests::{Enter, Left, Mark, PIECE, Piece, Present, RequestKind, serve_piece};
use std::alloc::Global;
use std::marker::Model;
use std::snapshot::Snapshot;

/// An image whose streams hold it for reading or writing. Streams are numbers from 0 on. Contracts see the device, the
/// journal, each stream's phase and home, and who holds.
#[derive(Drop)]
pub struct Image<D: Device> {
    device: D,
    size: u64,
    opening: Snapshot<D>,
    /// The device when the newest entry was made.
    left: Snapshot<D>,
    ledger: Ledger<D>,
    phases: Vec<Phase>,
    access: RwState,
    homes: Vec<u32>,
}

impl<D: Device> Model for Image<D> {
    ghost use Rattle.img_shared.specs.Images.{ImageState};
    ghost use Rattle.img_shared.specs.Soundness.{IsKept};

    ghost Value = { ImageState D };

    ghost view = { λ i. record { device = i.device; size = i.size; opening = i.opening.value; left = i.left.value; requests = i.ledger.requests; journal = i.ledger.entries; phases = i.phases.items; access = i.access; homes = i.homes.items } };

    ghost invariant = { λ i. IsKept D.bytes D.extent D.faults D.size_faults D.calls (record { device = i.device; size = i.size; opening = i.opening.value; left = i.left.value; requests = i.ledger.requests; journal = i.ledger.entries; phases = i.phases.items; access = i.access; homes = i.homes.items }) };
}

impl<D: Device> Image<D> {
    ghost use Rattle.aio_words.specs.Faults.{HasRisen};
    ghost use Rattle.img_requests.specs.ImageState.{OnBegun};
    ghost use Rattle.img_requests.specs.PieceCalls.{MakesDeviceCall, is_failed};
    ghost use Rattle.img_requests.specs.Pieces.{HasRoom, IsSilent, OnFailed, piece_length};
    ghost use Rattle.img_shared.specs.Calls.{Enters, IsServing, Serves, Leaves, IsGranted, IsWholeRun};
    ghost use Rattle.img_shared.specs.Journals.{noted_count};
    ghost use Rattle.img_shared.specs.Notes.{SameNotes, note};
    ghost use Rattle.img_shared.specs.Phases.{phase_at, Linked, done_in, CanLeave, IsWaiting, taken_up};

    /// An image of the device's first `size` bytes, for so many requests of each stream. No later call takes memory.
    pub fn build(
        alloc: Global,
        device: D,
        size: u64,
        requests: &[u32],
    ) -> Result<Image<D>, Unmade<D>>
        requires inside { size ≤ D.extent device }
        requires streams { length requests.now ≤ 64 }
        requires few { sum requests.now ≤ 4096 }
        ensures ok { IfOk result (λ image. image ≡ record {
          device = device;
          size = size;
          opening = device;
          left = device;
          requests = requests.now;
          journal = [];
          phases = replicate (length requests.now) Idle;
          access = record { room = length requests.now; holders = Readers []; tickets = [] };
          homes = replicate (length requests.now) 0;
        }) }
        ensures err { IfErr result (λ unmade. unmade.back ≡ device) }
    {
        let Ok(rows) = rows_for(alloc, requests) else {
            return Err(Unmade { back: device });
        };
        let opening = Snapshot::of(&device);
        let left = Snapshot::of(&device);
        Ok(Image {
            device,
            size,
            opening,
            left,
            ledger: rows.ledger,
            phases: rows.phases,
            access: rows.access,
            homes: rows.homes,
        })
    }

    /// Begins a request of the stream, queues or refuses it. Reads and flushes ask to read, writes and zeros to write.
    /// A request that is queued may be taken up by `granted` once `holds`.
    pub fn enter(&mut self, stream: u32, request: &Request) -> Enter
        requires known { stream < length self.old.requests }
        requires free { phase_at self.old.phases stream ≡ Idle }
        requires due { noted_count stream self.old.journal < slice_index self.old.requests stream }
        requires small { length_of request.now < 2 ^ 32 }
        ensures entered { Enters self.old stream request.now result self.new }

        // Who has its hold finds the bytes that the journal leaves, and those that the request is about among them.
        ensures clean { OnBegun result (D.bytes self.old.device ≡ D.bytes self.old.left) }
        ensures inside { OnBegun result (IfSome (D.bytes self.old.device) (λ told. end_of request.now ≤ length told)) }
        ensures others { SameNotes D.bytes stream self.old self.new }
    {
        let present = Present::begin(stream, request);
        if present.reaches_past(self.size) {
            let before = Snapshot::of(&self.left);
            let after = Snapshot::of(&self.left);
            return Enter::Refused(self.ledger.note(stream, Mark::Einval, before, after));
        }
        match ask(&mut self.access, stream, present.kind) {
            RwAnswer::Got => {
                self.phases[stream as usize] = Phase::Active(present);
                Enter::Begun
            }
            RwAnswer::Queued => {
                self.phases[stream as usize] = Phase::Waiting(present);
                Enter::Queued
            }
        }
    }

    /// Whether the stream's present request has its hold.
    pub fn holds(&self, stream: u32) -> bool
        ensures holds { IsTrue result ↔ Has (hold_of self.now.access stream) }
        ensures linked { Linked (phase_at self.now.phases stream) (hold_of self.now.access stream) }
    {
        matches!(self.access.hold(stream), Hold::Reads | Hold::Writes)
    }

    /// Takes up the hold of a request that was queued, and answers whom to wake.
    pub fn granted(&mut self, stream: u32) -> Option<u32>
        requires known { stream < length self.old.requests }
        requires waits { IsWaiting (phase_at self.old.phases stream) }
        requires holds { Has (hold_of self.old.access stream) }
        ensures woken { result ≡ (wake_one self.old.access).woken }
        ensures named { IfSome result (λ next. IsGranted self.new next) }
        ensures taken { self.new ≡ record self.old {
          phases = set self.old.phases stream (taken_up (phase_at self.old.phases stream));
          access = (wake_one self.old.access).state;
        } }

        // Who has its hold finds the bytes that the journal leaves, all of the image among them.
        ensures clean { D.bytes self.old.device ≡ D.bytes self.old.left }
        ensures inside { IfSome (D.bytes self.old.device) (λ told. self.old.size ≤ length told) }
        ensures others { SameNotes D.bytes stream self.old self.new }
    {
        let Phase::Waiting(present) = self.phases[stream as usize] else {
            unreachable!()
        };
        self.phases[stream as usize] = Phase::Active(present);
        self.access.woken(stream)
    }

    /// Serves the next piece of the stream's request: 4,096 bytes, or all that is left where that is less, or the
    /// flush. It makes one call of the device, and none where nothing is left. The hold stays.
    pub fn piece(&mut self, stream: u32, request: &Request, buf: &mut [u8]) -> Piece
        requires known { stream < length self.old.requests }
        requires begun { IsServing (phase_at self.old.phases stream) stream request.now (done_in (phase_at self.old.phases stream)) }
        requires room { HasRoom request.now buf.old }
        ensures served { Serves D.bytes stream request.now (done_in (phase_at self.old.phases stream)) result self.old self.new buf.old buf.new }
        ensures cause { OnFailed result (HasRisen (D.faults self.old.device) (D.faults self.new.device)) }
        ensures counted { D.faults self.old.device ≤ D.faults self.new.device }
        ensures quiet { IsSilent request.now (piece_length (length_of request.now) (done_in (phase_at self.old.phases stream)))
            → D.faults self.new.device ≡ D.faults self.old.device }
        ensures sizes { D.size_faults self.new.device ≡ D.size_faults self.old.device }
        ensures extent { D.extent self.new.device ≡ D.extent self.old.device }
        ensures calls { MakesDeviceCall request.now (done_in (phase_at self.old.phases stream)) (piece_length (length_of request.now) (done_in (phase_at self.old.phases stream)))
            (is_failed result) (D.calls self.old.device) (D.calls self.new.device) }
        ensures others { SameNotes D.bytes stream self.old self.new }
    {
        let Phase::Active(present) = self.phases[stream as usize] else {
            unreachable!()
        };
        let n = PIECE.min(present.length - present.done);
        let served = serve_piece(&mut self.device, request, present.done, n, buf).is_ok();
        let (answer, present) = present.after(n, served);
        self.phases[stream as usize] = Phase::Active(present);
        answer
    }

    /// Gives the stream's request its place in the journal and its hold up, and answers whom to wake.
    pub fn leave(&mut self, stream: u32) -> Left
        requires known { stream < length self.old.requests }
        requires ended { CanLeave (phase_at self.old.phases stream) }
        ensures left { Leaves stream result.place self.old self.new }
        ensures woken { result.woken ≡ (unlocked stream self.old.access).woken }
        ensures named { IfSome result.woken (λ next. IsGranted self.new next) }
        ensures others { SameNotes D.bytes stream self.old self.new }
    {
        let Phase::Active(present) = self.phases[stream as usize] else {
            unreachable!()
        };
        let before = Snapshot::of(&self.left);
        self.left = Snapshot::of(&self.device);
        let after = Snapshot::of(&self.left);
        let place = self.ledger.note(stream, present.mark(), before, after);
        self.phases[stream as usize] = Phase::Idle;
        let woken = self.access.unlock(stream);
        Left { place, woken }
    }

    /// Says that the stream has no requests left, and answers how many streams haven't said so yet.
    pub fn retire(&mut self, stream: u32) -> u32
        requires known { stream < length self.old.requests }
        requires free { phase_at self.old.phases stream ≡ Idle }
        requires all { noted_count stream self.old.journal ≡ slice_index self.old.requests stream }
        ensures going { result ≡ still_going self.new.phases }
        ensures retired { self.new ≡ record self.old { phases = set self.old.phases stream Retired } }
        ensures others { SameNotes D.bytes stream self.old self.new }
    {
        self.phases[stream as usize] = Phase::Retired;
        going(&self.phases)
    }

    /// Notes the loop on which the stream is. The stream calls it each time that it has the lock.
    pub fn come(&mut self, stream: u32, home: u32)
        requires known { stream < length self.old.requests }
        ensures noted { self.new ≡ record self.old { homes = set self.old.homes stream home } }
        ensures all { (k : ℕ) → note D.bytes self.new k ≡ note D.bytes self.old k }
    {
        self.homes[stream as usize] = home;
    }

    /// The loop on which the stream was last, 0 before its first `come`. Who is told to wake a stream wakes it there.
    pub fn home_of(&self, stream: u32) -> u32
        requires known { stream < length self.now.requests }
        ensures { result ≡ slice_index self.now.homes stream }
    {
        self.homes[stream as usize]
    }

    /// The entries of the requests that have their replies, in the order of their places.
    pub fn journal(&self) -> &[Entry<D>]
        ensures entries { result.now ≡ self.now.journal }
        ensures whole { IsWholeRun D.bytes D.extent D.faults D.size_faults D.calls self.now }
    {
        self.ledger.entries()
    }

    /// The device, and what the image's whole run came to.
    pub fn into_device(self) -> D
        ensures device { result ≡ self.device }
        ensures whole { IsWholeRun D.bytes D.extent D.faults D.size_faults D.calls self }
    {
        // Its contract tells that the journal is whole.
        let _ = self.journal();
        let Image {
            device,
            size: _,
            opening: _,
            left: _,
            ledger: _,
            phases: _,
            access: _,
            homes: _,
        } = self;
        device
    }
}

/// What an image keeps of its streams.
#[derive(Drop)]
struct Rows<D> {
    ledger: Ledger<D>,
    phases: Vec<Phase>,
    access: RwState,
    homes: Vec<u32>,
}

/// The rows of streams that have so many requests, all idle.
fn rows_for<D>(alloc: Global, requests: &[u32]) -> Result<Rows<D>, NoMemory>
    requires streams { length requests.now ≤ 64 }
    requires few { sum requests.now ≤ 4096 }
    ensures ledger { IfOk result (λ rows. rows.ledger ≡ record { requests = requests.now; entries = [] }) }
    ensures phases { IfOk result (λ rows. rows.phases.items ≡ replicate (length requests.now) Idle) }
    ensures access { IfOk result (λ rows. rows.access ≡ record { room = length requests.now; holders = Readers []; tickets = [] }) }
    ensures homes { IfOk result (λ rows. rows.homes.items ≡ replicate (length requests.now) 0) }
{
    let streams = requests.len();
    let Ok(ledger) = Ledger::build(alloc, requests) else {
        return Err(NoMemory);
    };
    let Ok(phases) = vec![in alloc; Phase::Idle; streams] else {
        return Err(NoMemory);
    };
    let Ok(homes) = vec![in alloc; 0; streams] else {
        return Err(NoMemory);
    };
    let access = RwState::build(alloc, streams as u32)?;
    Ok(Rows {
        ledger,
        phases,
        access,
        homes,
    })
}

/// Asks for the hold that a request of this kind needs.
fn ask(access: &mut RwState, stream: u32, kind: RequestKind) -> RwAnswer
    requires below { stream < access.old.room }
    requires free { hold_of access.old stream ≡ Free }
    ensures answer { result ≡ (hold_asked kind stream access.old).answer }
    ensures left { access.new ≡ (hold_asked kind stream access.old).state }
    ensures own { hold_of access.new stream ≡ answered result (held_by kind) (hold_awaited kind) }
    ensures others { (other : ℕ) → other ≢ stream → hold_of access.new other ≡ hold_of access.old other }
    ensures room { access.new.room ≡ access.old.room }
{
    match kind {
        RequestKind::Read | RequestKind::Flush => access.rdlock(stream),
        RequestKind::Write | RequestKind::Zero => access.wrlock(stream),
    }
}

/// How many streams haven't retired.
fn going(phases: &[Phase]) -> u32
    requires { length phases.now ≤ 64 }
    ensures { result ≡ still_going phases.now }
{
    phases
        .iter()
        .filter(|phase| !matches!(phase, Phase::Retired))
        .count() as u32
}
