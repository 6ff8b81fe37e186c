//! Playing a script, from its first line to its last.
ghost use Rattle.std.specs.Prelude.{◌≡◌, ◌<◌, ◌++◌, ◌∷◌, [], IfOk, IsTrue, List, MatchOption, OnOk, length, ℕ};
ghost use Rattle.std.specs.Io.KnownBytes.{IsAtEnd};
ghost use Rattle.relay_play.specs.declared.state.PlayState.{PlayState as State};
ghost use Rattle.relay_play.specs.Script.{HasNoLineFeed, HasPlayed, IsPlayed, IsReadTo, PlaysAll, PlaysBlock};
ghost use Rattle.relay_play.specs.Script.{PlaysLine};

use crate::fault::PlayFault;
use crate::state::PlayState;
use bstr::ByteSlice;
use relay_disk::{Disk, MemoryDisk};
use relay_pair::Pair;
use relay_world::passing::promise_is_kept;
use std::alloc::Global;
use std::io::{ErrorKind, Read, Write};

/// How many octets are read at a time.
const BLOCK: usize = 65_536;

/// The most reads of a script: 2^40.
const READS: u64 = 1_099_511_627_776;

/// A play in progress: its relays, how many lines of its script were read, and the start of a line whose end wasn't
/// read yet.
#[derive(Drop)]
struct Player {
    alloc: Global,
    play: PlayState,
    lines: u64,
    begun: Vec<u8>,
}

/// Plays a script of relays from `reader`, over disks in memory, and writes the result of each line to `writer` before
/// it reads on. There are two relays, or as many as the first significant line says (`nodes`). A line ends with LF, the
/// last one also with the input.
///
/// Returns the relays after the whole script was played. Fails at the first line that isn't one or that names a node
/// outside the play, or after 2^40 reads, as if the reader had failed. Whatever happens to the relays, they keep their
/// promise for mail.
pub fn play<R: Read, W: Write>(
    alloc: Global,
    reader: &mut R,
    writer: &mut W,
) -> Result<Pair<MemoryDisk>, PlayFault>
    ensures { IfOk result (λ pair. IsReadTo (R.remaining reader.old) (R.remaining reader.new)
        (λ script. IsPlayed ⟦<MemoryDisk as Disk>⟧.honest ⟦<MemoryDisk as Disk>⟧.words script pair)) }
{
    promise_is_kept::<MemoryDisk>();
    let mut player = Player {
        alloc,
        play: PlayState::new(alloc)?,
        lines: 0,
        begun: Vec::new(alloc),
    };
    let mut block = vec![in alloc; 0; BLOCK]?;
    player.play_blocks(block.as_mut_slice(), reader, writer)?;
    let Player {
        alloc: _,
        play,
        lines: _,
        begun: _begun,
    } = player;
    Ok(play.into_pair())
}

impl Player {
    /// Plays all that a reader gives, block by block.
    fn play_blocks<R: Read, W: Write>(
        &mut self,
        block: &mut [u8],
        reader: &mut R,
        writer: &mut W,
    ) -> Result<(), PlayFault>
        requires { 0 < length block.old }
        ensures { OnOk result ((first : State) (front : List ℕ)
            → HasPlayed ⟦<MemoryDisk as Disk>⟧.honest ⟦<MemoryDisk as Disk>⟧.words first front
            self.old.begun.items self.old.play
            → IsReadTo (R.remaining reader.old) (R.remaining reader.new)
            (λ script. PlaysAll ⟦<MemoryDisk as Disk>⟧.honest ⟦<MemoryDisk as Disk>⟧.words first (front ++ script)
            self.new.play)) }
    {
        for _ in 0..READS {
            if self.play_block(block, reader, writer)? {
                return Ok(());
            }
        }
        Err(PlayFault::Input)
    }

    /// Plays what one read gives or, at the end of the input, the last line. Returns whether the input has ended.
    fn play_block<R: Read, W: Write>(
        &mut self,
        block: &mut [u8],
        reader: &mut R,
        writer: &mut W,
    ) -> Result<bool, PlayFault>
        requires { 0 < length block.old }
        ensures len { length block.new ≡ length block.old }
        ensures end { IfOk result (λ ended. IsTrue ended → IsAtEnd (R.remaining reader.new)) }
        ensures plays { IfOk result (λ ended. (first : State) (front : List ℕ)
            → HasPlayed ⟦<MemoryDisk as Disk>⟧.honest ⟦<MemoryDisk as Disk>⟧.words first front
            self.old.begun.items self.old.play
            → PlaysBlock ⟦<MemoryDisk as Disk>⟧.honest ⟦<MemoryDisk as Disk>⟧.words
            (R.remaining reader.old) (R.remaining reader.new) first front self.new.begun.items self.new.play ended) }
    {
        let count = match reader.read(block) {
            Ok(count) => count,
            Err(error) if error.kind() == ErrorKind::Interrupted => return Ok(false),
            Err(error) => return Err(PlayFault::of_input(&error)),
        };
        if count == 0 {
            self.end(writer)?;
            return Ok(true);
        }
        self.go_on(&block[..count], writer)?;
        Ok(false)
    }

    /// Plays the lines that end within these octets.
    fn go_on<W: Write>(&mut self, octets: &[u8], writer: &mut W) -> Result<(), PlayFault>
        ensures { OnOk result ((first : State) (front : List ℕ)
            → HasPlayed ⟦<MemoryDisk as Disk>⟧.honest ⟦<MemoryDisk as Disk>⟧.words first front
            self.old.begun.items self.old.play
            → HasPlayed ⟦<MemoryDisk as Disk>⟧.honest ⟦<MemoryDisk as Disk>⟧.words first (front ++ octets.now)
            self.new.begun.items self.new.play) }
    {
        let mut seen = Vec::new(self.alloc);
        let end = self.play_lines(octets, &mut seen);
        write_lines(seen.as_slice(), writer)?;
        end
    }

    /// Plays the last line, which has no LF.
    fn end<W: Write>(&mut self, writer: &mut W) -> Result<(), PlayFault>
        ensures { OnOk result (PlaysLine ⟦<MemoryDisk as Disk>⟧.honest ⟦<MemoryDisk as Disk>⟧.words
            self.old.begun.items self.old.play self.new.play) }
    {
        let mut seen = Vec::new(self.alloc);
        let end = self.play_begun(&mut seen);
        write_lines(seen.as_slice(), writer)?;
        end
    }

    /// Plays the lines that end within these octets, adds their results, and keeps the rest.
    fn play_lines(&mut self, octets: &[u8], seen: &mut Vec<u8>) -> Result<(), PlayFault>
        ensures { OnOk result ((first : State) (front : List ℕ)
            → HasPlayed ⟦<MemoryDisk as Disk>⟧.honest ⟦<MemoryDisk as Disk>⟧.words first front
            self.old.begun.items self.old.play
            → HasPlayed ⟦<MemoryDisk as Disk>⟧.honest ⟦<MemoryDisk as Disk>⟧.words first (front ++ octets.now)
            self.new.begun.items self.new.play) }
    {
        let mut rest = octets;
        while let Some((line, after)) = first_line(rest) {
            self.begun.extend_from_slice(line)?;
            self.play_begun(seen)?;
            rest = after;
        }
        Ok(self.begun.extend_from_slice(rest)?)
    }

    /// Plays the line that is complete now, adds its result, and clears it.
    fn play_begun(&mut self, seen: &mut Vec<u8>) -> Result<(), PlayFault>
        ensures plays { OnOk result (PlaysLine ⟦<MemoryDisk as Disk>⟧.honest ⟦<MemoryDisk as Disk>⟧.words
            self.old.begun.items self.old.play self.new.play) }
        ensures begun { OnOk result (self.new.begun.items ≡ []) }
    {
        self.lines = self.lines.saturating_add(1);
        self.play
            .play_line(self.alloc, self.begun.as_slice(), self.lines, seen)?;
        self.begun.clear();
        Ok(())
    }
}

/// Splits a text at its first LF.
#[tactic(auto, using(crate::proofs::LineLemmas::first_line_is))]
fn first_line(text: &[u8]) -> Option<(&[u8], &[u8])>
    ensures { MatchOption result (HasNoLineFeed text.now)
        (λ parts. HasNoLineFeed parts.0.now × (text.now ≡ parts.0.now ++ 10 ∷ parts.1.now)) }
{
    text.split_once_str(b"\n")
}

/// Writes results, if there are any; also before a fault is returned.
fn write_lines<W: Write>(seen: &[u8], writer: &mut W) -> Result<(), PlayFault> {
    if seen.is_empty() {
        return Ok(());
    }
    match writer.write_all(seen).and_then(|()| writer.flush()) {
        Ok(()) => Ok(()),
        Err(error) => Err(PlayFault::of_output(&error)),
    }
}
