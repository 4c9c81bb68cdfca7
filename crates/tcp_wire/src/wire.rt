//! One end of a connection.

ghost use Rattle.std.specs.Prelude.{◌≡◌, ◌≤◌};
ghost use Rattle.dcop_edge.specs.Faults.{Rose};

use dcop_edge::Failed;
use futures::task::{Context, Poll};
use tokio::io::{AsyncRead, AsyncWrite};
use tokio::net::TcpStream;
use wire_pump::Wire;

/// The most bytes of one read: it fills a block of so many on the stack.
const BLOCK: usize = 4096;

/// One end of a connection. An error of the socket is a fault, and so is the end of the stream. It
/// tells how many bytes it has sent and received, and not which. It is joined to no wire.
#[derive(Drop)]
pub struct TcpWire {
    stream: TcpStream,
    pub(crate) sent_count: u64,
    pub(crate) received_count: u64,
    pub(crate) write_waits: u64,
    pub(crate) read_waits: u64,
    pub(crate) faults: u64,
}

impl TcpWire {
    /// A wire over this connection.
    pub(crate) fn new(stream: TcpStream) -> Self
        ensures counts { (result.write_waits ≡ 0) × (result.read_waits ≡ 0) × (result.faults ≡ 0) }
        ensures bytes { (result.sent_count ≡ 0) × (result.received_count ≡ 0) }
    {
        TcpWire {
            stream,
            sent_count: 0,
            received_count: 0,
            write_waits: 0,
            read_waits: 0,
            faults: 0,
        }
    }

    // Counts one more fault.
    fn fault(&mut self) -> Failed
        ensures rose { (self.old.faults ≤ self.new.faults) × Rose self.old.faults self.new.faults }
        ensures same { (self.new.write_waits ≡ self.old.write_waits) × (self.new.read_waits ≡ self.old.read_waits) }
        ensures bytes { (self.new.sent_count ≡ self.old.sent_count) × (self.new.received_count ≡ self.old.received_count) }
    {
        self.faults = self.faults.saturating_add(1);
        Failed
    }
}

impl Wire for TcpWire {
    ghost use Rattle.tcp_wire.specs.Tcp.{tcp_told, tcp_joined, tcp_apart};

    ghost told = { tcp_told };

    ghost is_joined = { tcp_joined };

    ghost are_apart = { tcp_apart };

    fn poll_write(&mut self, cx: &mut Context<'_>, bytes: &[u8]) -> Poll<Result<usize, Failed>> {
        match self.stream.poll_write(cx, bytes) {
            Poll::Ready(Ok(count)) => {
                if count == 0 && !bytes.is_empty() {
                    return Poll::Ready(Err(self.fault()));
                }
                self.sent_count = self.sent_count.saturating_add(count as u64);
                Poll::Ready(Ok(count))
            }
            Poll::Ready(Err(_refused)) => Poll::Ready(Err(self.fault())),
            Poll::Pending => {
                self.write_waits = self.write_waits.saturating_add(1);
                Poll::Pending
            }
        }
    }

    // `tokio` does not say what a read that fails or waits leaves in a buffer, so it gets one of its
    // own.
    fn poll_read(&mut self, cx: &mut Context<'_>, into: &mut [u8]) -> Poll<Result<usize, Failed>> {
        let mut block = [0; BLOCK];
        let room = into.len();
        match self.stream.poll_read(cx, &mut block[..room.min(BLOCK)]) {
            Poll::Ready(Ok(count)) => {
                if count == 0 && room > 0 {
                    return Poll::Ready(Err(self.fault()));
                }
                into[..count].copy_from_slice(&block[..count]);
                self.received_count = self.received_count.saturating_add(count as u64);
                Poll::Ready(Ok(count))
            }
            Poll::Ready(Err(_refused)) => Poll::Ready(Err(self.fault())),
            Poll::Pending => {
                self.read_waits = self.read_waits.saturating_add(1);
                Poll::Pending
            }
        }
    }

    fn beside(&mut self, _other: &mut Self) {}
}
