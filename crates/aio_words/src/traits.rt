//! What the program stands on: a source, a sink, a device, a clock and a gate.
ghost use Rattle.std.specs.Prelude.{◌≡◌, ℕ, ◌+◌, ◌≤◌, ◌<◌, List, [], ◌∷◌, is_err, length, take, drop, Option, option_map, IfOk, OnOk, OnErr, IfSome};
ghost use Rattle.aio_model.specs.Serving.{put_at};
ghost use Rattle.aio_words.specs.Called.{read_call, write_call, device_call};
ghost use Rattle.aio_words.specs.Content.{TakesBytes, with_piece, AppendsFront};
ghost use Rattle.aio_words.specs.Faults.{HasRisen};

use crate::DeviceAsk;

/// A call failed, and raised its object's count of faults.
#[derive(Clone, Copy, Debug, PartialEq, Eq)]
pub struct Failed;

/// Where bytes come from.
pub trait Source {
    ghost use Rattle.aio_words.specs.declared.called.SourceCall.{SourceCall};

    /// The bytes that are still to come, where the source tells them.
    ghost left: { Self → Option (List ℕ) };

    /// How many calls have failed.
    ghost faults: { Self → ℕ };

    /// The calls that it had, the newest first.
    ghost calls: { Self → List SourceCall };

    /// Takes the next bytes into the front of the buffer, and answers how many: none only at the end. What lies
    /// behind them in the buffer is left open. A call that fails takes nothing.
    fn read(&mut self, buf: &mut [u8]) -> Result<usize, Failed>
        requires { 0 < length buf.old }
        ensures within { IfOk result (λ n. n ≤ length buf.old) }
        ensures taken { IfOk result (λ n. TakesBytes (left self.old) (left self.new) (take n buf.new)) }
        ensures end { IfOk result (λ n. n ≡ 0 → IfSome (left self.old) (λ bytes. bytes ≡ [])) }
        ensures kept { OnErr result (left self.new ≡ left self.old) }
        ensures counted { faults self.old ≤ faults self.new }
        ensures cause { OnErr result (HasRisen (faults self.old) (faults self.new)) }
        ensures called { calls self.new ≡ read_call (length buf.old) result ∷ calls self.old };
}

/// Where bytes go.
pub trait Sink {
    ghost use Rattle.aio_words.specs.declared.called.SinkCall.{SinkCall};

    /// The bytes that it got, where the sink tells them.
    ghost held: { Self → Option (List ℕ) };

    /// How many calls have failed.
    ghost faults: { Self → ℕ };

    /// The calls that it had, the newest first.
    ghost calls: { Self → List SinkCall };

    /// Appends the piece. A call that fails appends a front of it.
    fn write(&mut self, piece: &[u8]) -> Result<(), Failed>
        ensures ok { OnOk result (held self.new ≡ with_piece piece.now (held self.old)) }
        ensures err { OnErr result (AppendsFront (held self.old) (held self.new) piece.now) }
        ensures counted { faults self.old ≤ faults self.new }
        ensures cause { OnErr result (HasRisen (faults self.old) (faults self.new)) }
        ensures called { calls self.new ≡ write_call (length piece.now) (is_err result) ∷ calls self.old };
}

/// What holds an image: bytes of a fixed number, read and written at any place. Calls that fail change no byte.
pub trait Device {
    ghost use Rattle.aio_words.specs.declared.called.DeviceCall.{DeviceCall};

    /// How many bytes it has. Every device tells it, and it never changes.
    ghost extent: { Self → ℕ };

    /// The bytes, where the device tells them.
    ghost bytes: { Self → Option (List ℕ) };

    /// How many calls of `size` have failed.
    ghost size_faults: { Self → ℕ };

    /// How many other calls have failed.
    ghost faults: { Self → ℕ };

    /// The calls that it had, the newest first.
    ghost calls: { Self → List DeviceCall };

    /// How many bytes it has.
    fn size(&mut self) -> Result<u64, Failed>
        ensures value { IfOk result (λ n. n ≡ extent self.old) }
        ensures bytes { bytes self.new ≡ bytes self.old }
        ensures extent { extent self.new ≡ extent self.old }
        ensures counted { size_faults self.old ≤ size_faults self.new }
        ensures cause { OnErr result (HasRisen (size_faults self.old) (size_faults self.new)) }
        ensures others { faults self.new ≡ faults self.old }
        ensures called { calls self.new ≡ device_call DeviceAsk.Size (is_err result) ∷ calls self.old };

    /// Fills the buffer with the bytes from this place on. What a call that fails leaves in it is left open.
    fn read_at(&mut self, at: u64, buf: &mut [u8]) -> Result<(), Failed>
        requires { at + length buf.old ≤ extent self.old }
        ensures found { OnOk result (IfSome (bytes self.old) (λ told. buf.new ≡ take (length buf.old) (drop at told))) }
        ensures bytes { bytes self.new ≡ bytes self.old }
        ensures extent { extent self.new ≡ extent self.old }
        ensures counted { faults self.old ≤ faults self.new }
        ensures cause { OnErr result (HasRisen (faults self.old) (faults self.new)) }
        ensures sizes { size_faults self.new ≡ size_faults self.old }
        ensures called { calls self.new ≡ device_call (DeviceAsk.Read at (length buf.old)) (is_err result) ∷ calls self.old };

    /// Puts the piece at this place.
    fn write_at(&mut self, at: u64, piece: &[u8]) -> Result<(), Failed>
        requires { at + length piece.now ≤ extent self.old }
        ensures put { OnOk result (bytes self.new ≡ option_map (put_at at piece.now) (bytes self.old)) }
        ensures kept { OnErr result (bytes self.new ≡ bytes self.old) }
        ensures extent { extent self.new ≡ extent self.old }
        ensures counted { faults self.old ≤ faults self.new }
        ensures cause { OnErr result (HasRisen (faults self.old) (faults self.new)) }
        ensures sizes { size_faults self.new ≡ size_faults self.old }
        ensures called { calls self.new ≡ device_call (DeviceAsk.Write at (length piece.now)) (is_err result) ∷ calls self.old };

    /// Waits until what was put is kept.
    fn flush(&mut self) -> Result<(), Failed>
        ensures bytes { bytes self.new ≡ bytes self.old }
        ensures extent { extent self.new ≡ extent self.old }
        ensures counted { faults self.old ≤ faults self.new }
        ensures cause { OnErr result (HasRisen (faults self.old) (faults self.new)) }
        ensures sizes { size_faults self.new ≡ size_faults self.old }
        ensures called { calls self.new ≡ device_call DeviceAsk.Flush (is_err result) ∷ calls self.old };

    /// The bytes that are told are as many as the device has.
    ghost as_many: { (device : Self) → IfSome (bytes device) (λ told. length told ≡ extent device) };
}

/// The time, in nanoseconds.
pub trait Clock {
    /// The least time that it will still show.
    ghost time: { Self → ℕ };

    /// The time now. It never falls.
    fn now(&mut self) -> u64
        ensures later { time self.old ≤ result }
        ensures shown { time self.new ≡ result };

    /// Lets so many nanoseconds pass, or any other time.
    fn pause(&mut self, ns: u64)
        ensures { time self.old ≤ time self.new };
}

/// What a stream passes before it begins each of its requests. Nothing is promised of it but that it returns.
pub trait Gate {
    fn pass(&self, stream: u32, index: u32);
}
