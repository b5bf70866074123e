// A listener in memory that never fails.
ghost use Rattle.std.specs.Prelude.{IfSome};
ghost use Rattle.conn_ports.specs.Fresh.{AreFreshCalm, fresh_calm_prop};
ghost use Rattle.conn_ports.specs.Link.{IsFresh};
ghost use Rattle.conn_ports.specs.Wire.{calm_link};

use crate::calm::conn::CalmConn;
use crate::listener::Listener;
use crate::returned::Returned;
use io_ports::PortFault;
use std::alloc::Global;

// A connection without input.
fn without_input(alloc: Global) -> CalmConn
    ensures { IsFresh (calm_link result) }
{
    CalmConn::new(Vec::new(alloc), 1)
}

// The last of these connections.
#[tactic(auto, using(crate::proofs::FreshLemmas::calm_rest, crate::proofs::FreshLemmas::calm_last))]
fn pop_fresh(conns: &mut Vec<CalmConn>) -> Option<CalmConn>
    requires { AreFreshCalm conns.old.items }
    ensures rest { AreFreshCalm conns.new.items }
    ensures last { IfSome result (λ c. IsFresh (calm_link c)) }
{
    conns.pop()
}

/// Connections in memory, of which no call fails, but for want of memory. Contracts see
/// `calm_given` and `calm_spare`.
#[derive(Drop)]
pub struct CalmListener {
    alloc: Global,
    links: Vec<CalmConn>,
    back: Returned<CalmConn>,
    ghost fresh: { AreFreshCalm links.items } by { fresh_calm_prop links.items },
}

impl CalmListener {
    ghost use Rattle.std.specs.Prelude.{◌≡◌, [], map};
    ghost use Rattle.conn_ports.specs.Memory.{calm_given};
    ghost use Rattle.conn_ports.specs.Wire.{calm_ended};

    /// Hands out these connections, of which no call was made, and then ones without input.
    #[tactic(auto, using(crate::proofs::FreshLemmas::calm_reverse))]
    pub fn new(alloc: Global, mut links: Vec<CalmConn>) -> CalmListener
        requires { AreFreshCalm links.items }
        ensures { calm_given result ≡ record { out = 0; back = [] } }
    {
        links.reverse();
        CalmListener {
            alloc,
            links,
            back: Returned::new(Vec::new(alloc)),
        }
    }

    /// The connections that were taken back, in order.
    pub fn given_back(&self) -> &[CalmConn]
        ensures { map calm_ended result.now ≡ (calm_given self.now).back }
    {
        self.back.values()
    }
}

impl Listener for CalmListener {
    ghost use Rattle.std.specs.Prelude.{Some};
    ghost use Rattle.conn_ports.specs.Memory.{calm_given, calm_spare};

    type Link = CalmConn;

    ghost given = { λ l. Some (calm_given l) };

    ghost spare = { calm_spare };

    ghost faults = { λ _. 0 };

    fn open(&mut self, _port: u16) -> Result<(), PortFault> {
        Ok(())
    }

    fn next(&mut self) -> Result<CalmConn, PortFault> {
        self.back.make_room(without_input(self.alloc))?;
        match pop_fresh(&mut self.links) {
            Some(link) => Ok(link),
            None => Ok(without_input(self.alloc)),
        }
    }

    fn ended(&mut self, link: CalmConn) {
        self.back.take_back(link);
    }
}
