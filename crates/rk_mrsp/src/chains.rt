ghost use Rattle.std.specs.Prelude.{◌≡◌, ◌&&◌, not, length, IfOk, Some, None};
ghost use Rattle.rk_model.specs.declared.limits.TheConstants.{MOST_OBJECTS};
ghost use Rattle.rk_model.specs.Lists.{with_nth};
ghost use Rattle.rk_model.specs.Scheduling.Chains.{end_of};
ghost use Rattle.rk_mrsp.specs.Scenes.{no_link, no_links, link_of, step_in};

use rk_model::limits::MOST_OBJECTS;
use rk_model::{Items, NoMemory, ThreadIx};
use std::alloc::Global;
use std::marker::Model;

/// How a thread stands in its chain.
#[derive(Clone, Copy, Debug, PartialEq, Eq)]
pub struct Link {
    /// The thread on which it waits, if it waits on one.
    pub on: Option<ThreadIx>,
    /// Whether it spins.
    pub spins: bool,
    /// Whether it could run: it is eligible and waits for nothing.
    pub ready: bool,
}

impl Link {
    /// That of a thread that waits on none, doesn't spin and couldn't run.
    pub fn loose() -> Link
        ensures { result ≡ no_link }
    {
        Link {
            on: None,
            spins: false,
            ready: false,
        }
    }
}

/// The chains of the 64 threads. Contracts see the link of each, by its index from 1.
#[derive(Debug, Drop)]
pub struct Chains {
    links: Items<Link>,
}

impl Model for Chains {
    ghost use Rattle.std.specs.Prelude.{List, ◌≡◌, length};
    ghost use Rattle.rk_model.specs.declared.limits.TheConstants.{MOST_OBJECTS};
    ghost use Rattle.rk_mrsp.specs.declared.chains.Link.{Link};

    ghost Value = { List Link };

    ghost view = { λ c. c.links };

    ghost invariant = { λ c. length c.links ≡ MOST_OBJECTS };
}

impl Chains {
    /// Those of threads of which none waits on another, spins or could run.
    ///
    /// # Errors
    ///
    /// `NoMemory` where there is no memory for 64 links.
    pub fn new(alloc: Global) -> Result<Chains, NoMemory>
        ensures { IfOk result (λ chains. chains ≡ no_links) }
    {
        let links = vec![in alloc; Link {
            on: None,
            spins: false,
            ready: false
        }; MOST_OBJECTS]?;
        Ok(Chains {
            links: Items::from_vec(links),
        })
    }

    /// Puts another link at a thread.
    pub fn set(&mut self, thread: ThreadIx, link: Link)
        ensures { self.new ≡ with_nth self.old thread link }
    {
        self.links.set(
            thread.at() as usize - 1,
            Link {
                on: link.on,
                spins: link.spins,
                ready: link.ready,
            },
        );
    }

    /// How many there are, which is 64.
    pub fn len(&self) -> usize
        ensures value { result ≡ length self.now }
        ensures size { length self.now ≡ MOST_OBJECTS }
    {
        self.links.len()
    }

    /// The link of a thread. Its contract also tells that there are 64.
    pub fn link(&self, thread: ThreadIx) -> Link
        ensures value { result ≡ link_of self.now thread }
        ensures size { length self.now ≡ MOST_OBJECTS }
    {
        match self.links.get(thread.at() as usize - 1) {
            Some(found) => *found,
            None => Link::loose(),
        }
    }
}

/// The end of the chain of a thread.
#[tactic(auto, using(crate::proofs::ScanLemmas::end_next))]
pub(crate) fn end(chains: &Chains, from: ThreadIx) -> ThreadIx
    ensures { result ≡ end_of (step_in chains.now) (length chains.now) from }
{
    // Reading a link tells how many there are.
    let _link = chains.link(from);
    let mut at = from;
    for _step in 0..MOST_OBJECTS {
        match chains.link(at).on {
            None => return at,
            Some(next) => at = next,
        }
    }
    at
}
