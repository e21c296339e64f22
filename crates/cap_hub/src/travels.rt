//! A client may go from one thread to another.

use crate::Client;

fn travels<T: Send>(_owned: &T) {}

pub(crate) fn client_travels(client: &Client) {
    travels(client);
}
