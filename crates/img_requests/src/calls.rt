//! The calls of a piece on the device.
ghost use Rattle.std.specs.Prelude.{◌≡◌, is_err, ◌+◌, ◌<◌, ◌≤◌, ◌^◌, take, drop, length, replicate, option_map, IfSome, OnOk, OnErr};
ghost use Rattle.aio_model.specs.Serving.{put_at, length_of, end_of};
ghost use Rattle.aio_words.specs.Faults.{HasRisen};
ghost use Rattle.img_requests.specs.PieceCalls.{CallsOnce, MakesDeviceCall};
ghost use Rattle.img_requests.specs.Pieces.{bytes_with, buffer_with, HasRoom, TouchesOnly, NeedsCall, IsSilent};

use aio_model::Request;
use aio_words::{Device, DeviceAsk, Failed};

static ZEROS: [u8; 4096] = [0; 4096];

/// So many zeros.
fn zeros(n: u32) -> &'static [u8]
    requires { n ≤ 4096 }
    ensures { result.now ≡ replicate n 0 }
{
    &ZEROS[..n as usize]
}

/// Reads into the buffer, by no call where it is empty.
fn read_piece<D: Device>(device: &mut D, at: u64, buf: &mut [u8]) -> Result<(), Failed>
    requires { at + length buf.old ≤ D.extent device.old }
    ensures found { OnOk result (IfSome (D.bytes device.old) (λ told. buf.new ≡ take (length buf.old) (drop at told))) }
    ensures bytes { D.bytes device.new ≡ D.bytes device.old }
    ensures extent { D.extent device.new ≡ D.extent device.old }
    ensures counted { D.faults device.old ≤ D.faults device.new }
    ensures called { OnErr result (0 < length buf.old) }
    ensures quiet { length buf.old ≡ 0 → D.faults device.new ≡ D.faults device.old }
    ensures cause { OnErr result (HasRisen (D.faults device.old) (D.faults device.new)) }
    ensures sizes { D.size_faults device.new ≡ D.size_faults device.old }
    ensures calls { CallsOnce (length buf.old) (DeviceAsk.Read at (length buf.old)) (is_err result) (D.calls device.old) (D.calls device.new) }
{
    if buf.is_empty() {
        return Ok(());
    }
    device.read_at(at, buf)
}

/// Writes the piece, by no call where it is empty.
fn write_piece<D: Device>(device: &mut D, at: u64, piece: &[u8]) -> Result<(), Failed>
    requires { at + length piece.now ≤ D.extent device.old }
    ensures put { OnOk result (D.bytes device.new ≡ option_map (put_at at piece.now) (D.bytes device.old)) }
    ensures kept { OnErr result (D.bytes device.new ≡ D.bytes device.old) }
    ensures extent { D.extent device.new ≡ D.extent device.old }
    ensures counted { D.faults device.old ≤ D.faults device.new }
    ensures called { OnErr result (0 < length piece.now) }
    ensures quiet { length piece.now ≡ 0 → D.faults device.new ≡ D.faults device.old }
    ensures cause { OnErr result (HasRisen (D.faults device.old) (D.faults device.new)) }
    ensures sizes { D.size_faults device.new ≡ D.size_faults device.old }
    ensures calls { CallsOnce (length piece.now) (DeviceAsk.Write at (length piece.now)) (is_err result) (D.calls device.old) (D.calls device.new) }
{
    if piece.is_empty() {
        return Ok(());
    }
    device.write_at(at, piece)
}

/// Serves n bytes of the request, behind those that are done, by at most one call of the device.
pub fn serve_piece<D: Device>(
    device: &mut D,
    request: &Request,
    done: u32,
    n: u32,
    buf: &mut [u8],
) -> Result<(), Failed>
    requires inside { end_of request.now ≤ D.extent device.old }
    requires fits { end_of request.now < 2 ^ 64 }
    requires left { done + n ≤ length_of request.now }
    requires small { n ≤ 4096 }
    requires room { HasRoom request.now buf.old }
    ensures put { OnOk result (D.bytes device.new ≡ option_map (bytes_with request.now done n) (D.bytes device.old)) }
    ensures kept { OnErr result (D.bytes device.new ≡ D.bytes device.old) }
    ensures found { OnOk result
        (IfSome (D.bytes device.old) (λ told. buf.new ≡ buffer_with request.now done n told buf.old)) }
    ensures touched { TouchesOnly request.now done n buf.old buf.new }
    ensures extent { D.extent device.new ≡ D.extent device.old }
    ensures counted { D.faults device.old ≤ D.faults device.new }
    ensures called { OnErr result (NeedsCall request.now n) }
    ensures quiet { IsSilent request.now n → D.faults device.new ≡ D.faults device.old }
    ensures cause { OnErr result (HasRisen (D.faults device.old) (D.faults device.new)) }
    ensures sizes { D.size_faults device.new ≡ D.size_faults device.old }
    ensures calls { MakesDeviceCall request.now done n (is_err result) (D.calls device.old) (D.calls device.new) }
{
    let from = done as usize;
    let to = from + n as usize;
    match request {
        Request::Read { at, len: _ } => read_piece(
            device,
            *at + u64::from(done),
            &mut buf[from..to],
        ),
        Request::Write { at, bytes } => {
            write_piece(device, *at + u64::from(done), &bytes.as_slice()[from..to])
        }
        Request::Zero { at, len: _ } => write_piece(device, *at + u64::from(done), zeros(n)),
        Request::Flush => device.flush(),
    }
}
