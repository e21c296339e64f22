//! What lines leave open.

use crate::application::Application;
use cap_txn::Txn;
use cap_value::AllocHandle;

// What is open between two lines.
#[derive(Drop)]
pub(crate) enum Open<A: AllocHandle> {
    // A transaction.
    Transaction(Txn<A>),
    // An application that stops at each conflict.
    Application(Application<A>),
}
