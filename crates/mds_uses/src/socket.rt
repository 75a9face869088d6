//! A call of `mds_socket`.
ghost use Rattle.std.specs.Prelude.{ℕ, IfSome, List, None, Some};
ghost use Rattle.mds_face.specs.Exchange.{exchange_of, rules_of};
ghost use Rattle.mds_face.specs.Serving.{IsServed};

use mds_face::{Desk, Face, Served, serve_one};
use mds_pool::{Ending, Port};
use mds_socket::SocketPort;
use std::alloc::Global;
use std::sync::Wait;
use std::time::Clock;

/// Takes the next connection at a port of this machine, and puts what its request asks for to a desk, and nothing else.
pub fn answer_next<R: Wait + Clock + Copy, D: Desk>(
    alloc: Global,
    port: &SocketPort<R>,
    face: &Face,
    desk: &mut D,
) -> Option<Served>
    ensures { IfSome result (λ served. (request : List ℕ)
        × IsServed (rules_of D.calls D.gives_events D.gives_rows) (Some request)
        (exchange_of desk.old desk.new None None) served) }
{
    let (mut input, mut output) = port.accept().ok()?;
    let served = serve_one(alloc, face, &mut input, &mut output, desk).ok()?;
    port.end(input, output, Ending::InStages);
    Some(served)
}
