// The loop of a service.
ghost use Rattle.std.specs.Prelude.{◌≡◌};
ghost use Rattle.io_ports.specs.Causes.{HasCause};
ghost use Rattle.review_serving.specs.Turns as spec;

use crate::service::Service;
use conn_ports::{Listener, PortFault};
use std::alloc::Global;

// Takes the next connection, answers it, and gives it back; whether the answer failed. Where the listener refuses,
// nothing was answered.
fn answer_next<L: Listener, K, S: Service<L::Link, K>>(
    alloc: Global,
    listener: &mut L,
    service: &mut S,
    keeper: &mut K,
) -> Result<bool, PortFault>
    ensures turn { spec.IsTurn (spec.IsAnswered L.Link.link L.Link.faults S.answers) result
        (L.given listener.old) (L.given listener.new) service.old service.new keeper.old keeper.new }
    ensures cause { HasCause (L.faults listener.old) (L.faults listener.new) result }
{
    let mut conn = match listener.next() {
        Ok(conn) => conn,
        Err(fault) => return Err(fault),
    };
    let failed = service.answer(alloc, &mut conn, keeper).is_err();
    listener.ended(conn);
    Ok(failed)
}

/// Listens on a port, takes so many connections, one after another, answers each and gives each back; the answer is how
/// many of them failed. A connection that fails is given back too, and the next one is taken. An `Err` is the
/// listener's: then as many as were taken are answered and given back.
pub fn serve<L: Listener, K, S: Service<L::Link, K>>(
    alloc: Global,
    listener: &mut L,
    service: &mut S,
    keeper: &mut K,
    port: u16,
    connections: u32,
) -> Result<u32, PortFault>
    ensures turns { spec.AreTurns (spec.IsAnswered L.Link.link L.Link.faults S.answers) connections result
        (L.given listener.old) (L.given listener.new) service.old service.new keeper.old keeper.new }
    ensures cause { HasCause (L.faults listener.old) (L.faults listener.new) result }
{
    if let Err(fault) = listener.open(port) {
        return Err(fault);
    }
    let mut faults = 0;
    for _turn in 0..connections {
        match answer_next(alloc, listener, service, keeper) {
            Ok(failed) => faults += u32::from(failed),
            Err(fault) => return Err(fault),
        }
    }
    Ok(faults)
}
