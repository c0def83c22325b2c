//! What a call names.

use case_forms::Call;

/// The socket number that a call names. None: the call opens something.
pub fn socket_of(call: &Call) -> Option<u32> {
    match call {
        Call::Listen(..) | Call::Connect(..) => None,
        Call::Await(socket)
        | Call::Accept(socket)
        | Call::Send(socket, _)
        | Call::Recv(socket, _)
        | Call::Shut(socket)
        | Call::Close(socket)
        | Call::Abort(socket)
        | Call::Status(socket) => Some(*socket),
    }
}
