//! Pairs of wires, as connections on this machine.

ghost use Rattle.std.specs.Prelude.{◌≡◌, ◌≤◌, ◌<◌, ◌↔◌, None, Ok, IfSome, IfOk, OnOk, IfErr};
ghost use Rattle.dcop_edge.specs.Faults.{Rose};
ghost use Rattle.wire_pump.specs.Dialer.{HasDialCause, IsNew, TellsNothing};
ghost use Rattle.wire_pump.specs.declared.dialer.DialFault.TheVariants.{Failed as failed};

use crate::connection::connect;
use crate::wire::TcpWire;
use futures::Future;
use std::alloc::{AllocGlobal, Global};
use std::io;
use std::net::Net;
use std::random::RandomSource;
use std::sync::Wait;
use std::thread::Threads;
use std::time::Clock;
use tokio::runtime::LocalRuntime;
use wire_pump::{DialFault, Dialer};

/// Opens each pair of wires as one connection on 127.0.0.1. It dials, and then accepts connections
/// until one comes from the address that dialled; any other is closed. It refuses at once if the
/// dial fails, and after 30 seconds if the connection has not come.
///
/// The first call of `pair` or `drive` makes the event loop of `tokio`. Every refusal is counted as
/// a fault, also if memory runs out. The dialer does not promise that its wires are joined.
#[derive(Drop)]
pub struct TcpDialer {
    runtime: Option<LocalRuntime>,
    faults: u64,
}

impl TcpDialer {
    /// A dialer that has opened nothing yet. It takes no memory.
    pub fn new() -> Self
        ensures counts { result.faults ≡ 0 }
        ensures unmade { result.runtime ≡ None }
    {
        TcpDialer {
            runtime: None,
            faults: 0,
        }
    }

    // Counts one more fault.
    fn fault(&mut self) -> DialFault
        ensures failed { result ≡ failed }
        ensures rose { (self.old.faults ≤ self.new.faults) × Rose self.old.faults self.new.faults }
        ensures same { self.new.runtime ≡ self.old.runtime }
    {
        self.faults = self.faults.saturating_add(1);
        DialFault::Failed
    }
}

impl Default for TcpDialer {
    fn default() -> Self {
        Self::new()
    }
}

// The event loop that was kept, or a new one.
fn runtime_of<R>(rt: &R, kept: Option<LocalRuntime>) -> io::Result<LocalRuntime>
where
    R: Clock + Net + RandomSource + AllocGlobal,
    ensures { IfSome kept (λ runtime. result ≡ Ok runtime) }
{
    match kept {
        Some(runtime) => Ok(runtime),
        None => LocalRuntime::new(rt),
    }
}

impl Dialer for TcpDialer {
    ghost use Rattle.tcp_wire.specs.Tcp.{tcp_told, tcp_joined, tcp_honest, keeps_loop};

    type W = TcpWire;

    ghost faults = { λ d. d.faults };

    ghost is_honest = { tcp_honest };

    fn pair<R>(&mut self, rt: &R, _alloc: Global) -> Result<(TcpWire, TcpWire), DialFault>
    where
        R: Threads + Wait + Clock + RandomSource + Net + AllocGlobal + Sync,
        ensures cause { HasDialCause self.old.faults self.new.faults result }
        ensures new { IfOk result (λ r. IsNew (tcp_told r.0) × IsNew (tcp_told r.1)) }
        ensures joined { tcp_honest self.old → IfOk result (λ r. tcp_joined r.0 r.1) }
        ensures told { tcp_honest self.old → IfOk result
            (λ r. TellsNothing (tcp_told r.0) × TellsNothing (tcp_told r.1)) }
        ensures honest { tcp_honest self.old ↔ tcp_honest self.new }
        ensures each { IfErr result (λ fault. fault ≡ failed) }
        ensures made { OnOk result (keeps_loop self.new) }
        ensures kept { keeps_loop self.old → keeps_loop self.new }
    {
        let Ok(mut runtime) = runtime_of(rt, self.runtime.take()) else {
            return Err(self.fault());
        };
        let opened = connect(rt, &mut runtime);
        self.runtime = Some(runtime);
        let Ok((first, second)) = opened else {
            return Err(self.fault());
        };
        Ok((TcpWire::new(first), TcpWire::new(second)))
    }

    fn drive<R, F>(&mut self, rt: &R, _alloc: Global, future: F) -> Result<F::Output, DialFault>
    where
        R: Threads + Wait + Clock + RandomSource + Net + AllocGlobal + Sync,
        F: Future,
        requires { F.can_poll future }
        ensures cause { HasDialCause self.old.faults self.new.faults result }
        ensures gives { IfOk result (F.gives future) }
        ensures honest { tcp_honest self.old ↔ tcp_honest self.new }
        ensures each { IfErr result (λ fault. fault ≡ failed) }
        ensures made { OnOk result (keeps_loop self.new) }
        ensures kept { keeps_loop self.old → keeps_loop self.new }
    {
        let Ok(mut runtime) = runtime_of(rt, self.runtime.take()) else {
            return Err(self.fault());
        };
        let driven = runtime.block_on(rt, future);
        self.runtime = Some(runtime);
        let Ok(output) = driven else {
            return Err(self.fault());
        };
        Ok(output)
    }

    fn charge(&mut self, wire: &TcpWire)
        ensures none { (tcp_told wire.now).faults ≡ 0 → self.new.faults ≡ self.old.faults }
        ensures some { 0 < (tcp_told wire.now).faults
            → (self.old.faults ≤ self.new.faults) × Rose self.old.faults self.new.faults }
        ensures honest { tcp_honest self.old ↔ tcp_honest self.new }
        ensures same { self.new.runtime ≡ self.old.runtime }
    {
        if wire.faults > 0 {
            let _counted = self.fault();
        }
    }
}
