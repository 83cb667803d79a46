//! A listener on this machine as a door.

ghost use Rattle.std.specs.Prelude.{◌≡◌, None};

use crate::closing::finish;
use crate::link::StreamLink;
use muni_edge::{Door, Failed, Faults};
use std::io::{Read, Write};
use std::net::{IpAddr, Ipv4Addr, Net, OpenListener, OpenStream, SocketAddr, TcpListener};

/// A listener at 127.0.0.1, which other machines cannot reach. It does not tell which links it gives.
#[derive(Drop)]
pub struct LoopbackDoor<'a, R: Net> {
    net: &'a R,
    listener: Option<R::Listener>,
    faults: Faults,
}

impl<'a, R: Net> LoopbackDoor<'a, R> {
    /// A door that is bound to no port.
    pub fn new(net: &'a R) -> LoopbackDoor<'a, R>
        ensures unbound { result.listener ≡ None }
        ensures faults { result.faults ≡ 0 }
    {
        LoopbackDoor {
            net,
            listener: None,
            faults: Faults::none(),
        }
    }

    /// Where it is bound. A port of 0 is one that the system chooses.
    pub fn address(&self) -> Option<SocketAddr>
        ensures { self.now.listener ≡ None → result ≡ None }
    {
        self.listener.as_ref()?.local_addr().ok()
    }
}

impl<'a, R: Net> Door for LoopbackDoor<'a, R>
where
    <R::Listener as OpenListener>::Stream: Read + Write + OpenStream,
{
    type L = StreamLink<<R::Listener as OpenListener>::Stream>;

    ghost state = { λ _. None };

    ghost faults = { λ door. door.faults };

    fn bind(&mut self, port: u16) -> Result<(), Failed> {
        let address = SocketAddr::new(IpAddr::V4(Ipv4Addr::LOCALHOST), port);
        match TcpListener::bind(self.net, address) {
            Ok(listener) => {
                self.listener = Some(listener);
                Ok(())
            }
            Err(_) => Err(self.faults.fail()),
        }
    }

    fn accept(&mut self) -> Result<Option<Self::L>, Failed> {
        if let Some(listener) = &self.listener {
            // An accept that a signal interrupts is made again by `std`.
            if let Ok((stream, _)) = listener.accept() {
                return Ok(Some(StreamLink::new(stream)));
            }
        }
        Err(self.faults.fail())
    }

    /// The stream is closed, after what its client still sends was read away.
    fn hand_back(&mut self, link: Self::L) {
        finish(&mut link.into_stream());
    }
}
