//! What is to be answered.
use http_connection::Request;
use http_messages::Refusal;

/// What stands first on a connection that is to be answered.
#[derive(Clone, Copy)]
pub(crate) enum Ready {
    /// A whole request, which the machine lends.
    Request,
    /// What no request can follow.
    Refused(Refusal),
}

/// An arrival that is to be answered, lent where it came.
#[derive(Drop)]
pub enum Arrived<'a> {
    /// A whole request.
    Request(Request<'a>),
    /// What no request can follow.
    Refused(Refusal),
}
