//! A node of a world, up or down.
ghost use Rattle.std.specs.Prelude.{◌≡◌, ◌↔◌, ◌≤◌, ℕ, List, [], ◌∷◌, false, true, None, IfErr, IfOk, vec_capacity};
ghost use Rattle.std.specs.Prelude.{vec_len};
ghost use Rattle.std.specs.List.{Contains};
ghost use Rattle.relay_book.specs.declared.change.Change.{Change};
ghost use Rattle.relay_book.specs.Marks.{Held};
ghost use Rattle.relay_disk.specs.Disks.{ImagesWithin, LosesFuseOrNot};
ghost use Rattle.relay_hosts.specs.Call.{HasAttempt, HasSession, HearsOrNot, IsToldLoss, LosesSession, ReadsOrNot};
ghost use Rattle.relay_hosts.specs.Crash.{CrashesInCall, StateCrashes, StateStops, IsCutShort, OpensOrNot, StopsAgain};
ghost use Rattle.relay_hosts.specs.Crash.{StopsAtRest, WasCutShort, is_up_now};
ghost use Rattle.relay_hosts.specs.Compact.{KnowsNow, RewritesOrNot};
ghost use Rattle.relay_hosts.specs.Host.{OwesWithin, count_some, holds_up, host_in, notes_to_come};
ghost use Rattle.relay_hosts.specs.StopNow.{DownStops, StateStopsAgain, IsArmed};
ghost use Rattle.relay_hosts.specs.Work.{HasChanges, KeepsUp, KnowsIfUp, marks_in};
ghost use Rattle.relay_hosts.specs.declared.host.HostState.TheVariants.{Down};

use crate::calls::{Heard, Read, ToldLoss, hear_at, lose_at, read_at};
use crate::compact::{Compacted, compact_at};
use crate::opened::decide;
use relay_disk::{Disk, Disks, Reboot};
use relay_node::{Node, NodeFault, Noted};
use relay_octets::Octets;
use relay_routes::Config;
use relay_trace::Moment;
use std::alloc::Global;
use std::marker::Model;

/// The cause of a change.
#[derive(Clone, Copy)]
pub enum Origin {
    /// Octets of a client, on the link of this number.
    FromClient(usize),
    /// Replies on the link of this number, to the attempt at this index, for this message.
    FromReplies(usize, usize, u64),
    /// The loss of the link of this number, of the attempt at this index, for this message.
    FromLoss(usize, usize, u64),
    /// Places of this message that its node gave up without an attempt.
    FromGivingUp(u64),
}

/// The change that a stop left undecided.
pub struct Undecided {
    /// The note of the change.
    pub note: Noted,
    /// Its cause.
    pub origin: Origin,
}

// Written out, so that the proof of a caller that drops one stops at this function.
impl Drop for Undecided {
    fn drop(self) {
        let Undecided {
            note: _note,
            origin: _,
        } = self;
    }
}

/// A node that is down: the configuration to open it with, its disks, and the change that its opening decides.
pub(crate) struct DownNode<D: Disk> {
    pub(crate) config: Config,
    pub(crate) disk: Disks<D>,
    pub(crate) undecided: Option<Undecided>,
}

// Written out, so that the proof of a caller that drops one stops at this function.
impl<D: Disk + Drop> Drop for DownNode<D> {
    fn drop(self) {
        let DownNode {
            config: _config,
            disk: _disk,
            undecided: _undecided,
        } = self;
    }
}

/// A node that is up, or what a stop has left of it.
pub(crate) enum HostState<D: Disk> {
    /// It is up.
    Up(Node<D>),
    /// It is down.
    Down(DownNode<D>),
}

// Written out, so that the proof of a caller that drops a state stops at this function.
impl<D: Disk + Drop> Drop for HostState<D> {
    fn drop(self) {
        match self {
            HostState::Up(_node) => {}
            HostState::Down(_down) => {}
        }
    }
}

/// A node and the records of its changes; how many more records may come, for which there is room; and what a pending
/// device fault will leave of its disks.
pub struct Host<D: Disk> {
    pub(crate) state: HostState<D>,
    pub(crate) records: Vec<Octets>,
    pub(crate) owed: usize,
    pub(crate) pick: u64,
}

// Written out, so that the proof of a caller that drops a host stops at this function.
impl<D: Disk + Drop> Drop for Host<D> {
    fn drop(self) {
        let Host {
            state: _state,
            records: _records,
            owed: _,
            pick: _,
        } = self;
    }
}

impl<D: Disk> Model for Host<D> {
    ghost use Rattle.std.specs.Prelude.{vec_capacity, vec_len};
    ghost use Rattle.relay_hosts.specs.Host.{OwesWithin, host_in, notes_to_come};
    ghost use Rattle.relay_world.specs.World.{Host as HostOf};

    ghost Value = { HostOf D };

    ghost view = { λ host. host_in host.state host.records.items };

    ghost invariant = { λ host.
        OwesWithin (notes_to_come host.state) (vec_len host.records) (vec_capacity host.records) host.owed };
}

impl<D: Disk> Host<D> {
    /// Returns whether the node is up.
    pub fn is_up(&self) -> bool
        ensures { result ≡ holds_up self.now.state }
    {
        match &self.state {
            HostState::Up(_) => true,
            HostState::Down(_) => false,
        }
    }

    /// Returns the configuration of the node.
    pub fn config(&self) -> &Config
        ensures { result.now ≡ self.now.config }
    {
        match &self.state {
            HostState::Up(node) => node.config(),
            HostState::Down(down) => &down.config,
        }
    }

    /// Returns the held places of the node's messages, in order; none if the node is down. Fails only if memory runs
    /// out.
    pub fn marks(&self, alloc: Global) -> Result<Vec<(u64, u8)>, NodeFault>
        requires { KnowsIfUp D.honest D.words self.now.state }
        ensures marks { IfOk result (λ marks. marks.items ≡ marks_in self.now.state) }
        ensures kept { (changes : List Change) → KeepsUp D.honest D.words self.now.state changes
            → IfOk result (λ marks. (number place : ℕ)
            → Contains {X = ℕ × ℕ} marks.items (number, place) ↔ Held changes number place) }
        ensures fault { IfErr result (λ fault. fault ≡ NodeFault.NoMemory) }
    {
        match &self.state {
            HostState::Up(node) => node.marks(alloc),
            HostState::Down(_) => Ok(Vec::new(alloc)),
        }
    }

    /// Ends a running session.
    pub fn end(&mut self, session: usize)
        requires { HasSession D.honest D.words self.old session }
        ensures { LosesSession self.old self.new session }
    {
        let HostState::Up(node) = &mut self.state else {
            unreachable!()
        };
        let _ = node.ended(session);
    }

    /// Reports to the node that the connection of a running attempt is lost.
    pub fn lose(&mut self, slot: usize, now: Moment) -> ToldLoss
        requires { HasAttempt D.honest D.words self.old slot }
        ensures { IsToldLoss D.honest D.words now self.old self.new slot result }
    {
        let HostState::Up(node) = &mut self.state else {
            unreachable!()
        };
        lose_at(node, &mut self.records, &mut self.owed, slot, now)
    }

    /// Hands replies to the node for a running attempt, in one call.
    pub fn read(&mut self, slot: usize, piece: &[u8], now: Moment) -> Read
        requires { HasAttempt D.honest D.words self.old slot }
        ensures { ReadsOrNot D.honest D.words now self.old self.new slot piece.now result }
    {
        let HostState::Up(node) = &mut self.state else {
            unreachable!()
        };
        read_at(node, &mut self.records, &mut self.owed, slot, piece, now)
    }

    /// Hands octets of a client to the node for a running session, in one call.
    pub fn hear(&mut self, session: usize, piece: &[u8], now: Moment) -> Heard
        requires { HasSession D.honest D.words self.old session }
        ensures { HearsOrNot D.honest D.words now self.old self.new session piece.now result }
    {
        let HostState::Up(node) = &mut self.state else {
            unreachable!()
        };
        hear_at(node, &mut self.records, &mut self.owed, session, piece, now)
    }
}

impl<D: Reboot + Drop> Host<D> {
    /// Stops a node that is up, between two calls. If memory runs out, its disks are unchanged.
    pub fn stop(self, pick: u64) -> Self
        requires { holds_up self.state ≡ true }
        ensures { StopsAtRest D.Disk.honest D.Disk.words self result }
    {
        let Host {
            state,
            records,
            owed,
            pick: _,
        } = self;
        Host {
            state: state.stop(pick),
            records,
            owed,
            pick: 0,
        }
    }

    /// Takes a node down that stopped in a call, with the change that it was adding.
    pub fn crash(self, origin: Origin) -> Self
        requires { IsCutShort self.state }
        ensures { CrashesInCall D.Disk.honest D.Disk.words self result origin }
    {
        let Host {
            state,
            records,
            owed,
            pick,
        } = self;
        Host {
            state: state.crash(pick, origin),
            records,
            owed,
            pick: 0,
        }
    }

    /// Opens a node that is down. It stays down if its disks are refused or memory runs out. If the undecided change
    /// turns out to be there, returns it, without its record.
    pub fn open(self, alloc: Global) -> (Self, Option<Undecided>)
        requires { holds_up self.state ≡ false }
        ensures { OpensOrNot D.Disk.honest D.Disk.words self result.0 result.1 }
    {
        let Host {
            state,
            records,
            owed,
            pick,
        } = self;
        state.open(alloc, records, owed, pick)
    }
}

impl<D: Reboot + Drop> HostState<D> {
    /// Stops a node that is up, between two calls.
    fn stop(self, pick: u64) -> Self
        requires { is_up_now self ≡ true }
        ensures { StateStops D.Disk.honest D.Disk.words self result }
    {
        match self {
            HostState::Up(node) => {
                let (config, disk) = node.into_parts();
                let disk = stopped(disk, pick);
                HostState::Down(DownNode {
                    config,
                    disk,
                    undecided: None,
                })
            }
            HostState::Down(_down) => unreachable!(),
        }
    }

    /// Takes a node down that stopped in a call, with the change that it was adding.
    fn crash(self, pick: u64, origin: Origin) -> Self
        requires { WasCutShort self }
        ensures { StateCrashes D.Disk.honest D.Disk.words self result origin }
    {
        match self {
            HostState::Up(node) => {
                let mut node = node;
                let Some(note) = node.take_noted() else {
                    unreachable!()
                };
                let (config, disk) = node.into_parts();
                let disk = stopped(disk, pick);
                HostState::Down(DownNode {
                    config,
                    disk,
                    undecided: Some(Undecided { note, origin }),
                })
            }
            HostState::Down(_down) => unreachable!(),
        }
    }
}

impl<D: Reboot + Drop> HostState<D> {
    /// Opens a node that is down.
    fn open(
        self,
        alloc: Global,
        records: Vec<Octets>,
        owed: usize,
        pick: u64,
    ) -> (Host<D>, Option<Undecided>)
        requires down { is_up_now self ≡ false }
        requires room { OwesWithin (notes_to_come self) (vec_len records) (vec_capacity records) owed }
        ensures { OpensOrNot D.Disk.honest D.Disk.words (host_in self records.items) result.0 result.1 }
    {
        match self {
            HostState::Up(_node) => unreachable!(),
            HostState::Down(down) => down.open(alloc, records, owed, pick),
        }
    }
}

impl<D: Reboot + Drop> DownNode<D> {
    /// Opens the node, as the host of these records, which have room for the undecided one.
    fn open(
        self,
        alloc: Global,
        records: Vec<Octets>,
        owed: usize,
        pick: u64,
    ) -> (Host<D>, Option<Undecided>)
        requires { OwesWithin (count_some (self.undecided ∷ [])) (vec_len records) (vec_capacity records) owed }
        ensures { OpensOrNot D.Disk.honest D.Disk.words (host_in (Down self) records.items) result.0 result.1 }
    {
        let DownNode {
            config,
            disk,
            undecided,
        } = self;
        match Node::open_again(alloc, config, disk) {
            Ok(node) => decide(alloc, node, undecided, records, owed, pick),
            Err(not) => {
                let state = HostState::Down(DownNode {
                    config: not.config,
                    disk: not.refused.disk,
                    undecided,
                });
                (
                    Host {
                        state,
                        records,
                        owed,
                        pick,
                    },
                    None,
                )
            }
        }
    }
}

impl<D: Reboot + Drop> Host<D> {
    /// Stops a node again that is down. If memory runs out, its disks are unchanged.
    pub fn stop_again(self, pick: u64) -> Self
        requires { holds_up self.state ≡ false }
        ensures { StopsAgain D.Disk.honest D.Disk.words self result }
    {
        let Host {
            state,
            records,
            owed,
            pick: _,
        } = self;
        Host {
            state: state.stop_again(pick),
            records,
            owed,
            pick: 0,
        }
    }

    /// Sets a device fault for a node that is up: after `calls` calls of its disks the next one fails.
    pub fn arm(&mut self, calls: u64, pick: u64)
        requires { holds_up self.old.state ≡ true }
        ensures { IsArmed D.Disk.honest D.Disk.words self.old self.new calls }
    {
        let HostState::Up(node) = &mut self.state else {
            unreachable!()
        };
        node.fuse(calls);
        self.pick = pick;
    }
}

impl<D: Reboot + Drop> Host<D> {
    /// Compacts the spool of a node that is up. If the node stops in that call, it goes down.
    pub fn compact(self) -> (Self, Compacted)
        requires { HasChanges D.Disk.honest D.Disk.words self }
        ensures { RewritesOrNot D.Disk.honest D.Disk.words self result.0 result.1 }
    {
        let Host {
            state,
            records,
            owed,
            pick,
        } = self;
        let (state, compacted) = state.compact(pick);
        (
            Host {
                state,
                records,
                owed,
                pick,
            },
            compacted,
        )
    }
}

impl<D: Reboot + Drop> HostState<D> {
    /// Compacts the spool of a node that is up. If the node stops in that call, it goes down.
    fn compact(self, pick: u64) -> (Self, Compacted)
        requires { KnowsNow D.Disk.honest D.Disk.words self }
        ensures rewrites { (records : List (List ℕ)) → RewritesOrNot D.Disk.honest D.Disk.words (host_in self records)
            (host_in result.0 records) result.1 }
        ensures notes { notes_to_come result.0 ≤ notes_to_come self }
    {
        match self {
            HostState::Up(node) => compact_at(node, pick),
            HostState::Down(_down) => unreachable!(),
        }
    }
}

impl<D: Reboot + Drop> HostState<D> {
    /// Stops a node again that is down.
    fn stop_again(self, pick: u64) -> Self
        requires { is_up_now self ≡ false }
        ensures { StateStopsAgain D.Disk.honest D.Disk.words self result }
    {
        match self {
            HostState::Up(_node) => unreachable!(),
            HostState::Down(down) => HostState::Down(down.stop_again(pick)),
        }
    }
}

impl<D: Reboot + Drop> DownNode<D> {
    /// Stops the disks again.
    fn stop_again(self, pick: u64) -> Self
        ensures { DownStops D.Disk.honest D.Disk.words self result }
    {
        let DownNode {
            config,
            disk,
            undecided,
        } = self;
        DownNode {
            config,
            disk: stopped(disk, pick),
            undecided,
        }
    }
}

/// Returns two disks after a stop, without a fuse. If memory runs out, they are unchanged, or only the first has
/// stopped.
pub(crate) fn stopped<D: Reboot>(disk: Disks<D>, pick: u64) -> Disks<D>
    ensures images { D.Disk.honest → ImagesWithin D.Disk.words disk result }
    ensures fuse { LosesFuseOrNot D.Disk.words disk result }
{
    match disk.after_stop(pick) {
        Ok(stopped) => stopped,
        Err(refused) => refused.value,
    }
}
