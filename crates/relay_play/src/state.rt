//! The relays of a play, and the effect of a line on them.
ghost use Rattle.std.specs.Prelude.{◌≡◌, ◌↔◌, [], IfOk, IsTrue, OnOk};
ghost use Rattle.relay_pair.specs.Promise.{KeepsItsPromise};
ghost use Rattle.relay_play.specs.Script.{Does, HasNotBegun, IsAmong, PlaysLine, named_in};

use crate::fault::PlayFault;
use crate::happen::happen;
use crate::show::{show_copies, show_ledger, show_lost, show_marks};
use relay_disk::{Disk, MemoryDisk};
use relay_pair::Pair;
use relay_script::{Event, NodeCount, NodeIndex, ScriptLine, script_line};
use std::alloc::{AllocError, Global};
use std::io;

/// How many relays a play has if its script doesn't say.
const NODES: usize = 2;

/// The relays of a play, their number, and whether a significant line was played.
#[derive(Drop)]
pub(crate) struct PlayState {
    pair: Pair<MemoryDisk>,
    nodes: usize,
    has_begun: bool,
}

impl PlayState {
    /// Returns two relays before any event. Fails if memory runs out.
    pub(crate) fn new(alloc: Global) -> Result<Self, AllocError>
        ensures { IfOk result (HasNotBegun ⟦<MemoryDisk as Disk>⟧.honest ⟦<MemoryDisk as Disk>⟧.words) }
    {
        Ok(PlayState {
            pair: not_begun(Pair::new(alloc)?),
            nodes: NODES,
            has_begun: false,
        })
    }

    /// Returns the relays.
    pub(crate) fn into_pair(self) -> Pair<MemoryDisk>
        ensures { result ≡ self.pair }
    {
        let PlayState {
            pair,
            nodes: _,
            has_begun: _,
        } = self;
        pair
    }

    /// Plays the line of this number, from 1, which comes without its LF, and adds its result.
    pub(crate) fn play_line(
        &mut self,
        alloc: Global,
        line: &[u8],
        number: u64,
        seen: &mut Vec<u8>,
    ) -> Result<(), PlayFault>
        ensures { OnOk result (PlaysLine ⟦<MemoryDisk as Disk>⟧.honest ⟦<MemoryDisk as Disk>⟧.words line.now
            self.old self.new) }
    {
        match script_line(alloc, line)? {
            Some(said) if names_none_but(&said, self.nodes) => self.play_said(
                alloc, said, number, seen,
            ),
            _ => Err(PlayFault::Line(number)),
        }
    }

    /// Plays a line that names only nodes of the play.
    fn play_said(
        &mut self,
        alloc: Global,
        said: ScriptLine,
        number: u64,
        seen: &mut Vec<u8>,
    ) -> Result<(), PlayFault>
        ensures { OnOk result (Does ⟦<MemoryDisk as Disk>⟧.honest ⟦<MemoryDisk as Disk>⟧.words said
            self.old self.new) }
    {
        match said {
            ScriptLine::Skipped => Ok(()),
            ScriptLine::Nodes { count } => self.take_nodes(alloc, count, number),
            ScriptLine::Event(event) => {
                self.has_begun = true;
                unless_memory(happen(&mut self.pair, event, seen))
            }
            question => {
                self.has_begun = true;
                unless_memory(self.show(alloc, &question, seen))
            }
        }
    }

    /// Sets the number of nodes. Fails unless no significant line came before the line of this number.
    fn take_nodes(&mut self, alloc: Global, nodes: NodeCount, number: u64) -> Result<(), PlayFault>
        ensures { OnOk result (Does ⟦<MemoryDisk as Disk>⟧.honest ⟦<MemoryDisk as Disk>⟧.words
            (ScriptLine.Nodes nodes) self.old self.new) }
    {
        if self.has_begun {
            return Err(PlayFault::Line(number));
        }
        let count = nodes.count();
        self.pair = not_begun(Pair::nodes(alloc, count)?);
        self.nodes = count;
        self.has_begun = true;
        Ok(())
    }

    /// Adds the answer to a question in a line. An event asks nothing.
    fn show(&self, alloc: Global, question: &ScriptLine, seen: &mut Vec<u8>) -> io::Result<()> {
        match question {
            ScriptLine::Ledger => show_ledger(&self.pair, seen),
            ScriptLine::Marks => show_marks(alloc, &self.pair, seen),
            ScriptLine::Copies {
                node,
                number,
                place,
            } => show_copies(alloc, &self.pair, *node, *number, *place, seen),
            ScriptLine::Lost {
                node,
                number,
                place,
            } => show_lost(&self.pair, *node, *number, *place, seen),
            ScriptLine::Skipped | ScriptLine::Nodes { .. } | ScriptLine::Event(_) => Ok(()),
        }
    }
}

/// Returns the same relays. A run without events shows that they keep their promise from the start.
#[tactic(auto, using(relay_pair::proofs::Theorems::none_asked))]
fn not_begun(mut pair: Pair<MemoryDisk>) -> Pair<MemoryDisk>
    ensures same { result ≡ pair }
    ensures promise { KeepsItsPromise ⟦<MemoryDisk as Disk>⟧.honest ⟦<MemoryDisk as Disk>⟧.words [] result result }
{
    pair.run(&[]);
    pair
}

/// Writing octets to memory fails only if memory runs out.
fn unless_memory(shown: io::Result<()>) -> Result<(), PlayFault> {
    shown.map_err(|_| PlayFault::NoMemory)
}

/// Returns whether a line names only nodes of this many.
fn names_none_but(said: &ScriptLine, nodes: usize) -> bool
    ensures { IsTrue result ↔ IsAmong (named_in said.now) nodes }
{
    match node_of(said) {
        Some(node) => node.index() < nodes,
        None => true,
    }
}

/// Returns the node that a line names, if it names one.
fn node_of(said: &ScriptLine) -> Option<NodeIndex>
    ensures { result ≡ named_in said.now }
{
    match said {
        ScriptLine::Event(event) => node_of_event(event),
        ScriptLine::Copies { node, .. } => Some(*node),
        ScriptLine::Lost { node, .. } => Some(*node),
        ScriptLine::Skipped | ScriptLine::Nodes { .. } | ScriptLine::Ledger | ScriptLine::Marks => {
            None
        }
    }
}

fn node_of_event(event: &Event) -> Option<NodeIndex>
    ensures { result ≡ named_in (ScriptLine.Event event.now) }
{
    match event {
        Event::Connect { node } => Some(*node),
        Event::Carry { node, .. } => Some(*node),
        Event::Give { node } => Some(*node),
        Event::Compact { node } => Some(*node),
        Event::Stop { node, .. } => Some(*node),
        Event::Return { node, .. } => Some(*node),
        Event::Discard { node, .. } => Some(*node),
        Event::Send { .. } | Event::Break { .. } | Event::Tick { .. } => None,
    }
}
