//! The table of the subcommands.
use crate::parameters::{
    CHOSEN_FROM, CHOSEN_HOP, CHOSEN_MESSAGES, CHOSEN_TO, DEFAULT_FILE, FILE, FILE_TO_MAKE, JSON,
    LISTED_FROM, LISTED_HOP, LISTED_TO, LOG, LONG, NUMBER, OLDER, PROMETHEUS, QUIET, RAW, ROUNDS,
    ROUTE, SAVE, SECONDS, STEERED_HOP, STEERED_MESSAGE, WORKERS, YES,
};
use crate::syntax::Syntax;

/// The subcommands, in the order in which `--help` lists them.
pub(crate) const SUBCOMMANDS: [Syntax; 19] = [
    Syntax {
        name: "session",
        about: "Hold one SMTP session from standard input to standard output",
        example: "Example: printf 'EHLO client.example\\r\\nQUIT\\r\\n' | relayd session",
        parameters: &[],
    },
    Syntax {
        name: "play",
        about: "Play a script of 2 to 16 relays from standard input, and print the result of each line",
        example: "Example: relayd play < docs/plays/lost_reply.play",
        parameters: &[],
    },
    Syntax {
        name: "init",
        about: "Make the spool that the configuration names",
        example: "Example: relayd init --config /etc/relayd.toml",
        parameters: &[FILE],
    },
    Syntax {
        name: "list",
        about: "List each queued recipient: message, place, path, due moment",
        example: "Example: relayd list --config /etc/relayd.toml --long --older 4h",
        parameters: &[FILE, LONG, JSON, LISTED_HOP, LISTED_FROM, LISTED_TO, OLDER],
    },
    Syntax {
        name: "show",
        about: "Show the envelope, the state and the text of a message",
        example: "Example: relayd show 7",
        parameters: &[DEFAULT_FILE, NUMBER, RAW],
    },
    Syntax {
        name: "status",
        about: "Sum up the queue by next hop, and show how full the spool is",
        example: "Example: relayd status --prometheus",
        parameters: &[DEFAULT_FILE, PROMETHEUS],
    },
    Syntax {
        name: "compact",
        about: "Write the spool anew, and print its size before and after",
        example: "Example: relayd compact --config /etc/relayd.toml",
        parameters: &[FILE],
    },
    Syntax {
        name: "check",
        about: "Check the configuration, and print each finding with its place and what to write instead",
        example: "Example: relayd check --config relayd.toml --route b@example.org",
        parameters: &[DEFAULT_FILE, ROUTE],
    },
    Syntax {
        name: "run",
        about: "Accept mail from many clients at once and relay it, until you stop it",
        example: "Example: relayd run --config /etc/relayd.toml",
        parameters: &[DEFAULT_FILE, QUIET],
    },
    Syntax {
        name: "serve",
        about: "Serve clients in rounds, and relay their mail after each",
        example: "Example: relayd serve --config relayd.toml --rounds 10 --log",
        parameters: &[FILE, ROUNDS, WORKERS, LOG],
    },
    Syntax {
        name: "push",
        about: "Relay what is due, and print for each message and hop whether the attempt ended or was lost",
        example: "Example: relayd push --config relayd.toml --log",
        parameters: &[FILE, LOG],
    },
    Syntax {
        name: "flush",
        about: "Try queued mail now: all of it, the mail of a next hop, or a message",
        example: "Example: relayd flush --hop next.example",
        parameters: &[DEFAULT_FILE, STEERED_HOP, STEERED_MESSAGE],
    },
    Syntax {
        name: "hold",
        about: "Begin no attempt for mail until it is released, also after a restart; it still expires",
        example: "Example: relayd hold --message 7",
        parameters: &[DEFAULT_FILE, STEERED_HOP, STEERED_MESSAGE],
    },
    Syntax {
        name: "release",
        about: "Release held mail",
        example: "Example: relayd release --hop next.example",
        parameters: &[DEFAULT_FILE, STEERED_HOP, STEERED_MESSAGE],
    },
    Syntax {
        name: "drain",
        about: "Accept no more clients, let attempts end, and stop the relay",
        example: "Example: relayd drain --seconds 30",
        parameters: &[DEFAULT_FILE, SECONDS],
    },
    Syntax {
        name: "reload",
        about: "Read the configuration again, and serve by it",
        example: "Example: relayd reload",
        parameters: &[DEFAULT_FILE],
    },
    Syntax {
        name: "return",
        about: "Return queued mail to its reverse path, with a delivery status notification",
        example: "Example: relayd return --message 15,16 --yes",
        parameters: &[
            DEFAULT_FILE,
            CHOSEN_MESSAGES,
            CHOSEN_HOP,
            CHOSEN_FROM,
            CHOSEN_TO,
            SAVE,
            YES,
        ],
    },
    Syntax {
        name: "discard",
        about: "Remove mail from the queue without a notification",
        example: "Example: relayd discard --from '<spam@client.example>' --yes",
        parameters: &[
            DEFAULT_FILE,
            CHOSEN_MESSAGES,
            CHOSEN_HOP,
            CHOSEN_FROM,
            CHOSEN_TO,
            SAVE,
            YES,
        ],
    },
    Syntax {
        name: "save",
        about: "Save the text of a message to a new file",
        example: "Example: relayd save 7 message-7.eml",
        parameters: &[DEFAULT_FILE, NUMBER, FILE_TO_MAKE],
    },
];
