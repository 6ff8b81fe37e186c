ghost use Rattle.std.specs.Prelude.{◌≡◌};
ghost use Rattle.relay_body.specs.ChunkText.{IsBetweenChunks, KeepsAll};

use crate::client::Client;
use relay_body::ChunkReader;
use relay_envelope::Envelope;

/// A mail transaction (RFC 5321, section 3.3) of a client that was greeted.
pub(crate) struct Transaction {
    pub(crate) client: Client,
    pub(crate) envelope: Envelope,
}

// Written out, so that the proof of a caller that drops a transaction stops at this function.
impl Drop for Transaction {
    fn drop(self) {
        let Transaction {
            client: _client,
            envelope: _envelope,
        } = self;
    }
}

impl Transaction {
    /// Gives the transaction up, and keeps its client.
    pub(crate) fn into_client(self) -> Client
        ensures { result ≡ self.client }
    {
        let Transaction {
            client,
            envelope: _envelope,
        } = self;
        client
    }
}

/// A mail transaction of whose content chunks have come (RFC 3030, section 2).
pub(crate) struct Gathering {
    pub(crate) transaction: Transaction,
    pub(crate) reader: ChunkReader,
    ghost between: { IsBetweenChunks reader },
    ghost kept: { KeepsAll reader },
}

// Written out, so that the proof of a caller that drops a gathering stops at this function.
impl Drop for Gathering {
    fn drop(self) {
        let Gathering {
            transaction: _transaction,
            reader: _reader,
        } = self;
    }
}

impl Gathering {
    /// Returns the transaction, and the reader of its chunks.
    pub(crate) fn into_parts(self) -> (Transaction, ChunkReader)
        ensures { (result.0 ≡ self.transaction) × (result.1 ≡ self.reader) }
    {
        let Gathering {
            transaction,
            reader,
        } = self;
        (transaction, reader)
    }

    /// Gives the transaction up, and keeps its client.
    pub(crate) fn into_client(self) -> Client
        ensures { result ≡ self.transaction.client }
    {
        let Gathering {
            transaction,
            reader: _reader,
        } = self;
        transaction.into_client()
    }
}

/// The state while a command is awaited.
#[derive(Drop)]
pub(crate) enum CommandState {
    /// No HELO or EHLO has come.
    Fresh,
    /// It has, and no transaction is open.
    Greeted(Client),
    /// A transaction is open.
    Open(Transaction),
    /// Chunks of its content have come.
    Gathering(Gathering),
    /// A chunk of its content was refused, and it takes nothing more.
    Spent(Client),
}

/// What a command leads to.
#[derive(Drop)]
pub(crate) enum State {
    /// The next command is awaited.
    Command(CommandState),
    /// Mail data follows.
    Receiving(Transaction),
    /// The connection closes after the reply.
    Closed,
}
