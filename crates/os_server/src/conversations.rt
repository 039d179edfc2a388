//! Conversations on links, as the service that whoever accepts links is handed.
ghost use Rattle.std.specs.Prelude.{◌≡◌};
ghost use Rattle.os_server.specs.Conversations.{lacks_memory};

use crate::serve::{Served, serve_one};
use crate::server::Server;
use job_runs::Runner;
use job_table::{Mover, SharedText, Verdicts};
use link_service::Service;
use open_links::OpenLink;
use os_io::{Close, Watch};
use std::alloc::Global;
use std::sync::Wait;
use workers::Bell;

/// Who runs the jobs of a conversation, and the bell that it rings, with what ringing it may wait by.
#[derive(Drop)]
struct Ringing<'a, S, R, B> {
    runner: &'a S,
    rt: &'a R,
    bell: &'a B,
}

impl<'a, V: Verdicts, S: Runner<V>, R, B> Runner<V> for Ringing<'a, S, R, B> {
    ghost ran = { S.ran };

    fn run<W: Watch>(
        &self,
        alloc: Global,
        osil: &[u8],
        osol: &[u8],
        watch: &mut W,
    ) -> Option<SharedText> {
        self.runner.run(alloc, osil, osol, watch)
    }
}

impl<'a, V: Verdicts, S: Runner<V>, R: Wait, B: Bell> Server<V> for Ringing<'a, S, R, B> {
    ghost wakes = { B.rang };

    fn wake(&self) -> bool {
        self.bell.ring(self.rt)
    }
}

/// Has the conversations on links: serves each by what is asked on it, and has its jobs run by this runner.
#[derive(Drop)]
pub struct Conversations<'a, S>(pub &'a S);

impl<'a, V: Verdicts, S: Runner<V>> Runner<V> for Conversations<'a, S> {
    ghost ran = { S.ran };

    fn run<W: Watch>(
        &self,
        alloc: Global,
        osil: &[u8],
        osol: &[u8],
        watch: &mut W,
    ) -> Option<SharedText> {
        self.0.run(alloc, osil, osol, watch)
    }
}

/// Whether a conversation that ended so lacked memory.
fn lacks_memory(served: Served) -> bool
    ensures { result ≡ lacks_memory served }
{
    match served {
        Served::Memory => true,
        Served::Ended | Served::CutShort | Served::ReadFault | Served::WriteFault => false,
    }
}

impl<'a, V: Verdicts, S: Runner<V>> Service<V> for Conversations<'a, S> {
    ghost use Rattle.os_server.specs.Conversations.{Converses};

    ghost talked = { Converses S.ran };

    fn serve<L: Close, C: Mover<V>, R: Wait, B: Bell>(
        &self,
        rt: &R,
        alloc: Global,
        bell: &B,
        link: OpenLink<L>,
        mover: &mut C,
    ) -> (bool, OpenLink<L>) {
        let server = Ringing {
            runner: self.0,
            rt,
            bell,
        };
        let (served, link) = serve_one(alloc, link, mover, &server);
        (lacks_memory(served), link)
    }
}
