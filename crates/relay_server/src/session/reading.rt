//! The octets that a session reads: those of command lines, of mail data and of chunks.
ghost use Rattle.std.specs.Prelude.{◌≡◌, ℕ, List, [], ◌++◌, ◌≤◌, ◌<◌, length, take, true, false, IfOk, OnOk, OnErr};
ghost use Rattle.relay_octets.specs.Line.{HasNoCrlf, crlf};
ghost use Rattle.relay_body.specs.ChunkText.{chunk_limit_of};
ghost use Rattle.relay_body.specs.DotReading.{IsReading, limit_of};
ghost use Rattle.relay_server.specs.Bounds.{IsHeld};
ghost use Rattle.relay_server.specs.Dialogue.{Said};
ghost use Rattle.relay_server.specs.Machine.{Advances, GathersChunk, IsGiven, Moves, RefusesChunk, Steps, is_reading};
ghost use Rattle.relay_server.specs.Session.{Hears, Stands};
ghost use Rattle.relay_server.specs.Setup.{Setup, setup_of};
ghost use Rattle.relay_server.specs.State as standing;
ghost use Rattle.relay_server.specs.Values.{command_state_of};
ghost use Rattle.relay_routes.specs.Routes.{RouteTable};
ghost use Rattle.relay_lines.specs.HeldLine.{Holds};

use crate::session::Session;
use crate::stage::{Chunk, MailData, Skipped, Stage};
use crate::state::CommandState;
use relay_lines::{LINE_LIMIT, LineCut, next_line};
use relay_routes::Table;
use std::alloc::AllocError;

impl Session {
    /// Uses octets of a piece up to an offer or a close, or all of them, and returns how many.
    pub(super) fn read(
        &mut self,
        table: &Table,
        piece: &[u8],
        out: &mut Vec<u8>,
    ) -> Result<usize, AllocError>
        ensures stands { IfOk result (λ used. (setup : Setup) (said : Said)
            → setup.routes ≡ table.now → Stands setup self.old said
            → Hears setup said self.old self.new (take used piece.now) out.old.items out.new.items) }
        ensures idle { IfOk result (λ used. used ≡ 0 → self.new ≡ self.old) }
        ensures within { IfOk result (λ used. used ≤ length piece.now) }
        ensures whole { IfOk result (λ used. is_reading self.new.stage ≡ true → used ≡ length piece.now) }
        ensures waits { is_reading self.old.stage ≡ false → (self.new ≡ self.old)
            × (out.new.items ≡ out.old.items) × IfOk result (λ used. used ≡ 0) }
        ensures failed { OnErr result (self.new.stage ≡ Stage.Failed) }
    {
        let mut used = 0;
        while used < piece.len() && self.is_reading() {
            used += self.advance(table, &piece[used..], out)?;
        }
        Ok(used)
    }

    /// Returns whether octets are read.
    fn is_reading(&self) -> bool
        ensures { result ≡ is_reading self.now.stage }
    {
        match &self.stage {
            Stage::Command(_) | Stage::Receiving(_) | Stage::Chunk(_) | Stage::Skipping(_) => true,
            Stage::Offering(..) | Stage::Closed | Stage::Failed => false,
        }
    }

    /// Uses the octets of one unit, or the next ones of it.
    fn advance(
        &mut self,
        table: &Table,
        rest: &[u8],
        out: &mut Vec<u8>,
    ) -> Result<usize, AllocError>
        requires some { 0 < length rest.now }
        requires reading { is_reading self.old.stage ≡ true }
        ensures advances { IfOk result (λ used. Advances self.old self.new table.now
            (take used rest.now) out.old.items out.new.items) }
        ensures within { IfOk result (λ used. (0 < used) × (used ≤ length rest.now)) }
        ensures failed { OnErr result (self.new.stage ≡ Stage.Failed) }
    {
        match self.leave() {
            Stage::Command(state) => self.read_line(table, state, rest, out),
            Stage::Receiving(mail) => self.read_text(mail, rest, out),
            Stage::Chunk(chunk) => self.read_chunk(chunk, rest, out),
            Stage::Skipping(skipped) => self.skip(skipped, rest, out),
            Stage::Offering(..) | Stage::Closed | Stage::Failed => unreachable!(),
        }
    }

    /// Uses the octets of mail data up to its end.
    fn read_text(
        &mut self,
        mail: MailData,
        rest: &[u8],
        out: &mut Vec<u8>,
    ) -> Result<usize, AllocError>
        requires some { 0 < length rest.now }
        requires limit { limit_of mail.reader ≡ self.old.server.max_content }
        ensures moves { IfOk result (λ used. (routes : RouteTable) (octets : List ℕ)
            → IsReading mail.reader self.old.server.max_content octets
            → Moves (setup_of self.old.server routes)
            (standing.Receiving mail.transaction.client mail.transaction.envelope) self.new.stage
            (octets ++ take used rest.now) out.old.items out.new.items) }
        ensures same { (self.new.server ≡ self.old.server) × (self.new.line ≡ self.old.line) }
        ensures within { IfOk result (λ used. (0 < used) × (used ≤ length rest.now)) }
        ensures failed { OnErr result (self.new.stage ≡ self.old.stage) }
    {
        let (stage, used) = self.server.read_text(mail, rest, out)?;
        self.enter(stage);
        Ok(used)
    }

    /// Uses the octets of a chunk up to its end.
    fn read_chunk(
        &mut self,
        chunk: Chunk,
        rest: &[u8],
        out: &mut Vec<u8>,
    ) -> Result<usize, AllocError>
        requires some { 0 < length rest.now }
        requires limit { chunk_limit_of chunk.reader ≡ self.old.server.max_content }
        ensures moves { IfOk result (λ used. (routes : RouteTable) (state : standing.State) (octets : List ℕ)
            → GathersChunk self.old.server.max_content chunk.transaction chunk.reader chunk.is_last
            state octets
            → Moves (setup_of self.old.server routes) state self.new.stage
            (octets ++ take used rest.now) out.old.items out.new.items) }
        ensures same { (self.new.server ≡ self.old.server) × (self.new.line ≡ self.old.line) }
        ensures within { IfOk result (λ used. (0 < used) × (used ≤ length rest.now)) }
        ensures failed { OnErr result (self.new.stage ≡ self.old.stage) }
    {
        let (transaction, reader, is_last) = chunk.into_parts();
        let (stage, used) = self
            .server
            .read_chunk(transaction, reader, is_last, rest, out)?;
        self.enter(stage);
        Ok(used)
    }

    /// Drops the octets of a chunk that is refused, up to its end.
    fn skip(
        &mut self,
        skipped: Skipped,
        rest: &[u8],
        out: &mut Vec<u8>,
    ) -> Result<usize, AllocError>
        requires some { 0 < length rest.now }
        requires held { IsHeld self.old.server.max_content skipped.state }
        ensures moves { IfOk result (λ used. (routes : RouteTable) (state : standing.State) (octets : List ℕ)
            → RefusesChunk self.old.server.max_content skipped.row skipped.state skipped.missing state octets
            → Moves (setup_of self.old.server routes) state self.new.stage
            (octets ++ take used rest.now) out.old.items out.new.items) }
        ensures same { (self.new.server ≡ self.old.server) × (self.new.line ≡ self.old.line) }
        ensures within { IfOk result (λ used. (0 < used) × (used ≤ length rest.now)) }
        ensures failed { OnErr result (self.new.stage ≡ self.old.stage) }
    {
        let (row, state, missing) = skipped.into_parts();
        let (stage, used) = self.server.skip(row, state, missing, rest, out)?;
        self.enter(stage);
        Ok(used)
    }

    /// Uses the octets of one command line, or the next ones of it. A line that stands whole in the
    /// piece is read there.
    fn read_line(
        &mut self,
        table: &Table,
        state: CommandState,
        rest: &[u8],
        out: &mut Vec<u8>,
    ) -> Result<usize, AllocError>
        requires some { 0 < length rest.now }
        requires held { IsHeld self.old.server.max_content state }
        ensures steps { IfOk result (λ used. (octets : List ℕ) → Holds self.old.line octets
            → Steps (setup_of self.old.server table.now)
            (standing.Command (command_state_of state)) self.new
            (octets ++ take used rest.now) out.old.items out.new.items) }
        ensures server { self.new.server ≡ self.old.server }
        ensures within { IfOk result (λ used. (0 < used) × (used ≤ length rest.now)) }
        ensures failed { OnErr result (self.new.stage ≡ self.old.stage) }
    {
        if self.line.is_empty()
            && let LineCut::Whole(end) = next_line(rest, LINE_LIMIT)
        {
            let text = &rest[..end - 2];
            let stage = self.server.answer_line(table, text, false, state, out)?;
            self.enter(stage);
            return Ok(end);
        }
        let Some(used) = self.line.feed(rest) else {
            self.enter(Stage::Command(state));
            return Ok(rest.len());
        };
        self.answer_line(table, state, out)?;
        Ok(used)
    }

    /// Answers the line that has ended in the buffer, and clears that.
    fn answer_line(
        &mut self,
        table: &Table,
        state: CommandState,
        out: &mut Vec<u8>,
    ) -> Result<(), AllocError>
        requires { IsHeld self.old.server.max_content state }
        ensures moves { OnOk result ((line : List ℕ)
            → HasNoCrlf line
            → IsGiven line self.old.line.kept self.old.line.is_long
            → Moves (setup_of self.old.server table.now)
            (standing.Command (command_state_of state)) self.new.stage
            (line ++ crlf) out.old.items out.new.items) }
        ensures server { self.new.server ≡ self.old.server }
        ensures line { OnOk result (Holds self.new.line []) }
        ensures failed { OnErr result (self.new.stage ≡ self.old.stage) }
    {
        let is_long = self.line.is_long();
        let text = self.line.octets();
        let stage = self.server.answer_line(table, text, is_long, state, out)?;
        self.line.clear();
        self.enter(stage);
        Ok(())
    }
}
