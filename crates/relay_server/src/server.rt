//! Whole lines, texts and chunks, each with its reply.
ghost use Rattle.std.specs.Prelude.{◌≡◌, ℕ, List, [], ◌++◌, ◌≤◌, ◌<◌, length, take, IfOk};
ghost use Rattle.relay_octets.specs.Line.{HasNoCrlf, crlf};
ghost use Rattle.relay_body.specs.ChunkText.{Chunk as ChunkText, HasChunks, IsBetweenChunks, chunk_limit_of};
ghost use Rattle.relay_body.specs.ChunkText.{content_of_chunks};
ghost use Rattle.relay_body.specs.DotReading.{IsReading, limit_of};
ghost use Rattle.relay_body.specs.Gathering.{IsWithin, gathered_of};
ghost use Rattle.relay_server.specs.Bounds.{IsHeld, IsHeldAt};
ghost use Rattle.relay_server.specs.Dialogue.{row_of_answer};
ghost use Rattle.relay_server.specs.ReplyTable.{course_of, course_of_chunks, course_of_content, course_of_text, Offers};
ghost use Rattle.relay_server.specs.ReplyTable.{refusal_by, unless_refused};
ghost use Rattle.relay_server.specs.Machine.{EndsBy, EntersBy, GathersChunk, IsGiven, KeepsText, Moves, RefusesChunk};
ghost use Rattle.relay_server.specs.Machine.{offers_at};
ghost use Rattle.relay_server.specs.Setup.{setup_of};
ghost use Rattle.relay_server.specs.State as standing;
ghost use Rattle.relay_server.specs.Unit.{asked_of_long};
ghost use Rattle.relay_server.specs.Values.{IsNextHeld, command_state_of, state_of};
ghost use Rattle.relay_routes.specs.Routes.{RouteTable};

use crate::judge::{Judged, judge};
use crate::offer::Answer;
use crate::reply_table::Row;
use crate::stage::{Chunk, MailData, Skipped, Stage};
use crate::state::{CommandState, Gathering, State, Transaction};
use relay_body::{BodyFault, ChunkReader, DotReader, Gathered, has_bare_end, has_nul};
use relay_lines::begins_with_bdat;
use relay_octets::Octets;
use relay_routes::{BareNewlines, HostName, RoutedPaths, Table};
use relay_trace::received_count;
use std::alloc::{AllocError, Global};

/// This many `Received:` fields show that a message goes in a circle (RFC 5321, section 6.3).
const RECEIVED_LIMIT: usize = 100;

/// The constants of a session.
pub(crate) struct Server {
    pub(crate) alloc: Global,
    /// The name of this host.
    pub(crate) host: HostName,
    /// The most octets of a content.
    pub(crate) max_content: usize,
    /// The rule for a content with a bare CR or LF.
    pub(crate) bare_newlines: BareNewlines,
    /// The rule for this client's routed paths.
    pub(crate) routed_paths: RoutedPaths,
}

// Written out, so that the proof of a caller that drops a server stops at this function.
impl Drop for Server {
    fn drop(self) {
        let Server {
            alloc: _,
            host: _host,
            max_content: _,
            bare_newlines: _,
            routed_paths: _,
        } = self;
    }
}

impl Server {
    /// Answers a command line: its octets without CR LF, or the first of them where it is too long.
    /// A line that announces a chunk is answered when that has come.
    pub(crate) fn answer_line(
        &self,
        table: &Table,
        text: &[u8],
        is_long: bool,
        state: CommandState,
        out: &mut Vec<u8>,
    ) -> Result<Stage, AllocError>
        requires { IsHeld self.now.max_content state }
        ensures moves { IfOk result (λ stage. (line : List ℕ)
            → HasNoCrlf line → IsGiven line text.now is_long
            → Moves (setup_of self.now table.now) (standing.Command (command_state_of state)) stage
            (line ++ crlf) out.old.items out.new.items) }
        ensures held { IfOk result (IsHeldAt self.now.max_content) }
    {
        if is_long {
            return self.answer_long_line(text, state, out);
        }
        match judge(self, table, text, state)? {
            Judged::Replied(row, next) => self.reply(row, next, out),
            Judged::Gathers(transaction, reader, is_last) => {
                let (stage, _) = self.read_chunk(transaction, reader, is_last, b"", out)?;
                Ok(stage)
            }
            Judged::Refuses(row, state, size) => {
                let (stage, _) = self.skip(row, state, size, b"", out)?;
                Ok(stage)
            }
        }
    }

    /// Answers a line that is too long, by its first octets.
    fn answer_long_line(
        &self,
        text: &[u8],
        state: CommandState,
        out: &mut Vec<u8>,
    ) -> Result<Stage, AllocError>
        requires { IsHeld self.now.max_content state }
        ensures ends { IfOk result (λ stage. (routes : RouteTable)
            → EndsBy (setup_of self.now routes) (course_of (setup_of self.now routes)
            (asked_of_long text.now) (command_state_of state)) stage out.old.items out.new.items) }
        ensures held { IfOk result (IsHeldAt self.now.max_content) }
    {
        if begins_with_bdat(text) {
            self.reply(Row::BadChunkSize, State::Closed, out)
        } else {
            self.reply(Row::LineTooLong, State::Command(state), out)
        }
    }

    /// Writes a reply, and gives the stage of the state after it.
    fn reply(&self, row: Row, next: State, out: &mut Vec<u8>) -> Result<Stage, AllocError>
        requires { IsNextHeld self.now.max_content next }
        ensures enters { IfOk result (λ stage. (routes : RouteTable)
            → EntersBy (setup_of self.now routes) row (state_of next) stage out.old.items out.new.items) }
        ensures held { IfOk result (IsHeldAt self.now.max_content) }
    {
        row.write(self.host.as_slice(), out)?;
        Ok(self.stage_of(next))
    }

    /// Returns the stage of the state that a command has led to.
    fn stage_of(&self, state: State) -> Stage
        requires { IsNextHeld self.now.max_content state }
        ensures begun { (routes : RouteTable)
            → KeepsText (setup_of self.now routes) result (state_of state) [] }
        ensures none { offers_at result ≡ [] }
        ensures held { IsHeldAt self.now.max_content result }
    {
        match state {
            State::Command(state) => Stage::Command(state),
            State::Receiving(transaction) => {
                let reader = DotReader::new(self.alloc, self.max_content);
                Stage::Receiving(MailData {
                    transaction,
                    reader,
                })
            }
            State::Closed => Stage::Closed,
        }
    }

    /// Takes octets of mail data up to its end, and returns how many they were.
    pub(crate) fn read_text(
        &self,
        mail: MailData,
        rest: &[u8],
        out: &mut Vec<u8>,
    ) -> Result<(Stage, usize), AllocError>
        requires { limit_of mail.reader ≡ self.now.max_content }
        ensures moves { IfOk result (λ read. (routes : RouteTable) (octets : List ℕ)
            → IsReading mail.reader self.now.max_content octets
            → Moves (setup_of self.now routes)
            (standing.Receiving mail.transaction.client mail.transaction.envelope) read.0
            (octets ++ take read.1 rest.now) out.old.items out.new.items) }
        ensures within { IfOk result (λ read. read.1 ≤ length rest.now) }
        ensures progress { 0 < length rest.now → IfOk result (λ read. 0 < read.1) }
        ensures held { IfOk result (λ read. IsHeldAt self.now.max_content read.0) }
    {
        let (transaction, mut reader) = mail.into_parts();
        match reader.feed(rest) {
            Err(BodyFault::NoMemory) => Err(AllocError),
            Ok(cut) => {
                if cut.done {
                    let stage = self.end_text(transaction, reader.finish(), out)?;
                    Ok((stage, cut.used))
                } else {
                    let mail = MailData {
                        transaction,
                        reader,
                    };
                    Ok((Stage::Receiving(mail), cut.used))
                }
            }
        }
    }

    /// Refuses a content that is too large, and ends another.
    fn end_text(
        &self,
        transaction: Transaction,
        gathered: Gathered,
        out: &mut Vec<u8>,
    ) -> Result<Stage, AllocError>
        requires { IsWithin self.now.max_content gathered }
        ensures ends { IfOk result (λ stage. (routes : RouteTable) (content : List ℕ)
            → gathered ≡ gathered_of self.now.max_content content
            → EndsBy (setup_of self.now routes)
            (unless_refused self.now.bare_newlines
            (course_of_text self.now.max_content transaction.client transaction.envelope content))
            stage out.old.items out.new.items) }
        ensures held { IfOk result (IsHeldAt self.now.max_content) }
    {
        match gathered {
            Gathered::Whole(content) => self.end_content(transaction, content, out),
            Gathered::TooLarge => {
                let greeted = CommandState::Greeted(transaction.into_client());
                self.reply(Row::ContentTooLarge, State::Command(greeted), out)
            }
        }
    }

    /// Refuses a content that has come in a circle, or that the configuration refuses, and offers another.
    fn end_content(
        &self,
        transaction: Transaction,
        content: Octets,
        out: &mut Vec<u8>,
    ) -> Result<Stage, AllocError>
        requires { length content ≤ self.now.max_content }
        ensures ends { IfOk result (λ stage. (routes : RouteTable)
            → EndsBy (setup_of self.now routes)
            (unless_refused self.now.bare_newlines
            (course_of_content transaction.client transaction.envelope content)) stage out.old.items
            out.new.items) }
        ensures held { IfOk result (IsHeldAt self.now.max_content) }
    {
        if received_count(content.as_slice()) >= RECEIVED_LIMIT {
            let greeted = CommandState::Greeted(transaction.into_client());
            return self.reply(Row::TooManyReceived, State::Command(greeted), out);
        }
        self.offer(transaction, content, out)
    }

    /// Refuses a content with a bare CR or LF, or with NUL, if the configuration says so, and offers any other.
    fn offer(
        &self,
        transaction: Transaction,
        content: Octets,
        out: &mut Vec<u8>,
    ) -> Result<Stage, AllocError>
        requires { length content ≤ self.now.max_content }
        ensures ends { IfOk result (λ stage. (routes : RouteTable)
            → EndsBy (setup_of self.now routes)
            (unless_refused self.now.bare_newlines
            (Offers transaction.client transaction.envelope content)) stage out.old.items
            out.new.items) }
        ensures held { IfOk result (IsHeldAt self.now.max_content) }
    {
        if let Some(refusal) = refusal_by(self.bare_newlines, content.as_slice()) {
            let greeted = CommandState::Greeted(transaction.into_client());
            return self.reply(refusal, State::Command(greeted), out);
        }
        Ok(Stage::Offering(transaction, content))
    }

    /// Takes octets of a chunk up to its end, and returns how many they were.
    pub(crate) fn read_chunk(
        &self,
        transaction: Transaction,
        mut reader: ChunkReader,
        is_last: bool,
        rest: &[u8],
        out: &mut Vec<u8>,
    ) -> Result<(Stage, usize), AllocError>
        requires { chunk_limit_of reader ≡ self.now.max_content }
        ensures moves { IfOk result (λ read. (routes : RouteTable) (state : standing.State) (octets : List ℕ)
            → GathersChunk self.now.max_content transaction reader is_last state octets
            → Moves (setup_of self.now routes) state read.0
            (octets ++ take read.1 rest.now) out.old.items out.new.items) }
        ensures within { IfOk result (λ read. read.1 ≤ length rest.now) }
        ensures progress { 0 < length rest.now → (¬ IsBetweenChunks reader)
            → IfOk result (λ read. 0 < read.1) }
        ensures held { IfOk result (λ read. IsHeldAt self.now.max_content read.0) }
    {
        match reader.feed(rest) {
            Err(BodyFault::NoMemory) => Err(AllocError),
            Ok(cut) => {
                if cut.done {
                    let stage = self.end_chunk(transaction, reader, is_last, out)?;
                    Ok((stage, cut.used))
                } else {
                    let chunk = Chunk {
                        transaction,
                        reader,
                        is_last,
                    };
                    Ok((Stage::Chunk(chunk), cut.used))
                }
            }
        }
    }

    /// Answers a chunk that has come whole: too large, one more, or the last.
    fn end_chunk(
        &self,
        transaction: Transaction,
        reader: ChunkReader,
        is_last: bool,
        out: &mut Vec<u8>,
    ) -> Result<Stage, AllocError>
        requires between { IsBetweenChunks reader }
        requires limit { chunk_limit_of reader ≡ self.now.max_content }
        ensures ends { IfOk result (λ stage. (routes : RouteTable) (chunks : List ChunkText)
            → HasChunks reader self.now.max_content chunks
            → EndsBy (setup_of self.now routes)
            (unless_refused self.now.bare_newlines
            (course_of_chunks self.now.max_content transaction.client transaction.envelope
            (content_of_chunks chunks) is_last)) stage out.old.items out.new.items) }
        ensures held { IfOk result (IsHeldAt self.now.max_content) }
    {
        if reader.is_too_large() {
            let spent = CommandState::Spent(transaction.into_client());
            return self.reply(Row::ContentTooLarge, State::Command(spent), out);
        }
        if is_last {
            return self.end_text(transaction, reader.finish(), out);
        }
        let gathering = Gathering {
            transaction,
            reader,
        };
        let state = CommandState::Gathering(gathering);
        self.reply(Row::ChunkOk, State::Command(state), out)
    }

    /// Drops octets of a chunk that is refused, up to its end, and returns how many they were.
    pub(crate) fn skip(
        &self,
        row: Row,
        state: CommandState,
        missing: u32,
        rest: &[u8],
        out: &mut Vec<u8>,
    ) -> Result<(Stage, usize), AllocError>
        requires { IsHeld self.now.max_content state }
        ensures moves { IfOk result (λ read. (routes : RouteTable) (old : standing.State) (octets : List ℕ)
            → RefusesChunk self.now.max_content row state missing old octets
            → Moves (setup_of self.now routes) old read.0
            (octets ++ take read.1 rest.now) out.old.items out.new.items) }
        ensures within { IfOk result (λ read. read.1 ≤ length rest.now) }
        ensures progress { 0 < length rest.now → 0 < missing → IfOk result (λ read. 0 < read.1) }
        ensures held { IfOk result (λ read. IsHeldAt self.now.max_content read.0) }
    {
        let used = rest.len().min(missing as usize);
        let missing = missing - used as u32;
        if missing == 0 {
            let stage = self.reply(row, State::Command(state), out)?;
            return Ok((stage, used));
        }
        let skipped = Skipped {
            row,
            state,
            missing,
        };
        Ok((Stage::Skipping(skipped), used))
    }
}

/// Returns the row by which this rule refuses a content: for a bare CR or LF, or for NUL.
fn refusal_by(rule: BareNewlines, content: &[u8]) -> Option<Row>
    ensures { result ≡ refusal_by rule content.now }
{
    match rule {
        BareNewlines::Pass => None,
        BareNewlines::Refuse if has_bare_end(content) => Some(Row::BareLineEnd),
        BareNewlines::Refuse if has_nul(content) => Some(Row::NulInContent),
        BareNewlines::Refuse => None,
    }
}

/// Returns the row that answers the client by the answer to its offer.
pub(crate) fn row_of_answer(answer: Answer) -> Row
    ensures { result ≡ row_of_answer answer }
{
    match answer {
        Answer::Queued(number) => Row::Queued(number),
        Answer::Full => Row::SpoolFull,
    }
}
