ghost use Rattle.std.specs.Prelude.{◌≡◌, [], false, IfOk, IfErr};
ghost use Rattle.outer_traits.specs.Causes.{HasOuterCause};

use door_traits::{Doors, Outer, OuterError, Sink, Source};
use outer_real::{StdSink, StdSource};
use std::io::{self, ErrorKind};
use std::net::{Net, SocketAddr, TcpListener, TcpStream};

/// Doors that are a TCP port of this machine. They tell nothing of what comes and goes.
///
/// A reply leaves as soon as it is written, and in one call of the system where it is handed over in one piece. A client
/// that vanishes before it was let in is none; one that vanishes later is a fault of its session's own ends.
#[derive(Drop)]
pub struct TcpEnds<R> {
    net: R,
    /// None until the doors are opened.
    listener: Option<TcpListener>,
    faults: u64,
}

impl<R: Net<Listener = TcpListener, Stream = TcpStream> + Drop> TcpEnds<R> {
    /// Doors that are shut.
    pub fn new(net: R) -> Self
        ensures faults { ⟦<TcpEnds<R> as Doors>⟧.faults result ≡ 0 }
    {
        TcpEnds {
            net,
            listener: None,
            faults: 0,
        }
    }

    /// The address at which they are open. Where port 0 was asked for, the system has chosen one.
    pub fn local_addr(&self) -> io::Result<SocketAddr> {
        match &self.listener {
            Some(listener) => listener.local_addr(),
            None => Err(shut()),
        }
    }

    /// The next client that is still there.
    fn next_client(&self) -> io::Result<(TcpStream, TcpStream)> {
        let Some(listener) = &self.listener else {
            return Err(shut());
        };
        for _ in 0..u64::MAX {
            match listener.accept() {
                Ok((stream, _)) => return both_ways(stream),
                Err(e) if is_of_client(e.kind()) => {}
                Err(e) => return Err(e),
            }
        }
        Err(shut())
    }
}

/// What is said where the doors are shut.
fn shut() -> io::Error {
    io::Error::from(ErrorKind::NotConnected)
}

/// Whether it was a client that failed, and not the port.
fn is_of_client(kind: ErrorKind) -> bool {
    matches!(
        kind,
        ErrorKind::ConnectionAborted
            | ErrorKind::ConnectionReset
            | ErrorKind::HostUnreachable
            | ErrorKind::NetworkUnreachable
    )
}

/// Two handles of a client's stream: one to read from, and one to write to.
fn both_ways(stream: TcpStream) -> io::Result<(TcpStream, TcpStream)> {
    // Where this fails the client has vanished, which its session will find.
    let _ = stream.set_nodelay(true);
    let other = stream.try_clone()?;
    Ok((stream, other))
}

impl<R: Net<Listener = TcpListener, Stream = TcpStream> + Drop> Doors for TcpEnds<R> {
    type In = StdSource<TcpStream>;

    type Out = StdSink<TcpStream>;

    ghost tells = { false };

    ghost coming = { λ _. [] };

    ghost back = { λ _. [] };

    ghost faults = { λ d. d.faults };

    /// Each error of the system is a fault, whatever its kind.
    fn open(&mut self, address: &str) -> Outer<()>
        ensures cause { HasOuterCause self.old.faults self.new.faults result }
        ensures fault { IfErr result (λ e. e ≡ OuterError.Failed) }
    {
        match TcpListener::bind(&self.net, address) {
            Ok(listener) => {
                self.listener = Some(listener);
                Ok(())
            }
            Err(_) => {
                self.faults = self.faults.saturating_add(1);
                Err(OuterError::Failed)
            }
        }
    }

    fn accept(&mut self) -> Outer<(StdSource<TcpStream>, StdSink<TcpStream>)>
        ensures unfailed { IfOk result (λ ends. (⟦<StdSource<TcpStream> as Source>⟧.faults ends.0 ≡ 0)
            × (⟦<StdSink<TcpStream> as Sink>⟧.faults ends.1 ≡ 0)) }
        ensures cause { HasOuterCause self.old.faults self.new.faults result }
        ensures fault { IfErr result (λ e. e ≡ OuterError.Failed) }
    {
        match self.next_client() {
            Ok((from, to)) => Ok((StdSource::new(from), StdSink::new(to))),
            Err(_) => {
                self.faults = self.faults.saturating_add(1);
                Err(OuterError::Failed)
            }
        }
    }

    /// Both ends are closed.
    fn take_back(&mut self, _source: StdSource<TcpStream>, _sink: StdSink<TcpStream>) {}
}
