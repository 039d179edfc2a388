//! Listeners in memory.
ghost use Rattle.std.specs.Prelude.{◌≡◌, ◌∷◌, ◌<◌, [], map, Some, IfOk, IfSome, IfNone, OnOk, OnErr, vec_len, vec_capacity};
ghost use Rattle.os_io.specs.Streams.{Counts};
ghost use Rattle.os_io.specs.Links.{NetTells, IsGivenBack};
ghost use Rattle.memory_ends.specs.MemLinks.{tells_of_link, tells_kept};
ghost use Rattle.memory_ends.specs.Addresses.{reached_of, reached_at};
ghost use Rattle.memory_ends.specs.Memory.{IsFresh};

use crate::mem_link::{Kept, MemLink};
use crate::parts::Script;
use os_io::{Failed, Listener, Memory, Stream, Text, count_fault};
use std::alloc::Global;

/// A host and a port that were listened at with this patience, or connected to where there is none.
#[derive(Drop)]
pub(crate) struct Address {
    patience: Option<u16>,
    host: Text,
    port: u16,
}

/// A listener in memory, to which links come that were added before. It counts its calls from 1, `done` aside; the
/// calls of given numbers fail, and so does one that finds no more links, or no memory for
/// the host.
#[derive(Drop)]
pub struct MemListener {
    alloc: Global,
    script: Script,
    links: Vec<MemLink>,
    back: Option<Box<Kept>>,
    reached: Vec<Address>,
    faults: u64,
}

impl MemListener {
    /// No links yet. The calls whose numbers are in `fails` fail.
    pub fn new(alloc: Global, fails: &[u64]) -> Result<MemListener, Memory>
        ensures coming { IfOk result (λ s. (⟦<MemListener as Listener>⟧.tells s).coming ≡ Some []) }
        ensures given_back { IfOk result (λ s. (⟦<MemListener as Listener>⟧.tells s).given_back ≡ Some []) }
        ensures reached { IfOk result (λ s. (⟦<MemListener as Listener>⟧.tells s).reached ≡ Some []) }
        ensures faults { IfOk result (λ s. (⟦<MemListener as Listener>⟧.tells s).faults ≡ 0) }
        ensures fails { IfOk result (λ s. IsFresh s.script fails.now) }
    {
        Ok(MemListener {
            alloc,
            script: Script::new(alloc, fails)?,
            links: Vec::new(alloc),
            back: None,
            reached: Vec::new(alloc),
            faults: 0,
        })
    }

    /// Adds a link, which comes after those that were added before. Without memory the link is lost.
    pub fn add(&mut self, link: MemLink) -> Result<(), Memory>
        ensures coming { OnOk result (IsGivenBack (⟦<MemListener as Listener>⟧.tells self.old).coming (⟦<MemListener as Listener>⟧.tells self.new).coming (⟦<MemLink as Stream>⟧.tells link)) }
        ensures err { OnErr result ((⟦<MemListener as Listener>⟧.tells self.new).coming ≡ (⟦<MemListener as Listener>⟧.tells self.old).coming) }
        ensures given_back { (⟦<MemListener as Listener>⟧.tells self.new).given_back ≡ (⟦<MemListener as Listener>⟧.tells self.old).given_back }
        ensures reached { (⟦<MemListener as Listener>⟧.tells self.new).reached ≡ (⟦<MemListener as Listener>⟧.tells self.old).reached }
        ensures faults { (⟦<MemListener as Listener>⟧.tells self.new).faults ≡ (⟦<MemListener as Listener>⟧.tells self.old).faults }
    {
        self.links.push(link)?;
        Ok(())
    }

    /// How often a call has failed.
    pub fn faults(&self) -> u64
        ensures { result ≡ (⟦<MemListener as Listener>⟧.tells self.now).faults }
    {
        self.faults
    }

    /// The next link of those that were added.
    fn next(&mut self) -> Result<MemLink, Failed>
        ensures came { IfOk result (λ link. self.old.links.items ≡ link ∷ self.new.links.items) }
        ensures err { OnErr result (self.new.links.items ≡ self.old.links.items) }
        ensures back { self.new.back ≡ self.old.back }
        ensures reached { self.new.reached ≡ self.old.reached }
        ensures counted { Counts result self.old.faults self.new.faults }
    {
        if self.script.fails() || self.links.is_empty() {
            return Err(count_fault(&mut self.faults));
        }
        Ok(self.links.remove(0))
    }

    /// A host and a port that are to be reached, and room for them. Where there is no memory for that, the call fails.
    fn prepare(&mut self, patience: Option<u16>, host: &str, port: u16) -> Result<Address, Failed>
        ensures ok { IfOk result (λ a. reached_at a ≡ reached_of patience host.now port) }
        ensures room { OnOk result (vec_len self.new.reached < vec_capacity self.new.reached) }
        ensures reached { self.new.reached.items ≡ self.old.reached.items }
        ensures links { self.new.links ≡ self.old.links }
        ensures back { self.new.back ≡ self.old.back }
        ensures counted { Counts result self.old.faults self.new.faults }
    {
        let Ok(host) = Text::from_slice(self.alloc, host.as_bytes()) else {
            return Err(count_fault(&mut self.faults));
        };
        let Ok(()) = self.reached.reserve(1) else {
            return Err(count_fault(&mut self.faults));
        };
        Ok(Address {
            patience,
            host,
            port,
        })
    }

    /// Takes out the link that was given back last, if there is one.
    pub fn take_back(&mut self) -> Option<MemLink>
        ensures last { IfSome result (λ link. IsGivenBack (⟦<MemListener as Listener>⟧.tells self.new).given_back (⟦<MemListener as Listener>⟧.tells self.old).given_back (⟦<MemLink as Stream>⟧.tells link)) }
        ensures none { IfNone result ((⟦<MemListener as Listener>⟧.tells self.old).given_back ≡ Some []) }
        ensures unchanged { IfNone result ((⟦<MemListener as Listener>⟧.tells self.new).given_back ≡ Some []) }
        ensures coming { (⟦<MemListener as Listener>⟧.tells self.new).coming ≡ (⟦<MemListener as Listener>⟧.tells self.old).coming }
        ensures reached { (⟦<MemListener as Listener>⟧.tells self.new).reached ≡ (⟦<MemListener as Listener>⟧.tells self.old).reached }
        ensures faults { (⟦<MemListener as Listener>⟧.tells self.new).faults ≡ (⟦<MemListener as Listener>⟧.tells self.old).faults }
    {
        let mut place = self.back.take()?;
        self.back = place.under.take();
        Some(MemLink { place })
    }
}

impl Listener for MemListener {
    type Conn = MemLink;

    ghost tells = { λ s. record {
      coming = Some (map tells_of_link s.links.items);
      given_back = Some (tells_kept s.back);
      reached = Some (map reached_at s.reached.items);
      faults = s.faults;
    } };

    fn listen(&mut self, host: &str, port: u16, patience: u16) -> Result<(), Failed> {
        if self.script.fails() {
            return Err(count_fault(&mut self.faults));
        }
        let address = self.prepare(Some(patience), host, port)?;
        self.reached.push_reserved(address);
        Ok(())
    }

    fn accept(&mut self) -> Result<MemLink, Failed> {
        self.next()
    }

    fn connect(&mut self, host: &str, port: u16) -> Result<MemLink, Failed> {
        let address = self.prepare(None, host, port)?;
        let link = self.next()?;
        self.reached.push_reserved(address);
        Ok(link)
    }

    fn done(&mut self, link: MemLink) {
        let mut place = link.place;
        place.under = self.back.take();
        self.back = Some(place);
    }
}
