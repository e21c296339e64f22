//! Commands as text, for the state from which a test begins.
use cap_connection::{Connection, ConnectionFault};
use cap_value::Fault;
use std::alloc::Global;

pub(crate) const MISUSE: Fault<ConnectionFault> = Fault::Refused(ConnectionFault::Misuse);

/// Whether each text is an accepted command.
pub(crate) fn accepts(connection: &mut Connection, alloc: Global, texts: &[&str]) -> bool {
    for text in texts {
        if connection.call(alloc, text.as_bytes()) != Ok(true) {
            return false;
        }
    }
    true
}

/// A connection to a history in which each of these texts was an accepted command.
pub(crate) fn opened(alloc: Global, texts: &[&str]) -> Option<Connection> {
    let Ok(mut connection) = Connection::open(alloc) else {
        return None;
    };
    if accepts(&mut connection, alloc, texts) {
        Some(connection)
    } else {
        None
    }
}

/// Whether a text is an accepted command with this reply.
pub(crate) fn answers(connection: &mut Connection, alloc: Global, text: &str, reply: &str) -> bool {
    accepts(connection, alloc, &[text]) && connection.reply_text() == reply.as_bytes()
}
