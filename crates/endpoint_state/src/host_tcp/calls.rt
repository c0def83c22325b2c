//! Socket calls (RFC 9293, 3.9.1 and 3.10): which answers they may have, and what the host's state is then.

ghost use Rattle.std.specs.Prelude.{◌≡◌, ◌<◌, ◌+◌, ◌^◌, None, Some, false, true, length, [], ◌∷◌, ◌++◌};
ghost use Rattle.std.specs.Prelude.{OnOk, OnErr, slice_get};
ghost use Rattle.std.specs.List.{All};
ghost use Rattle.std.specs.Option.{option_map_or};
ghost use Rattle.case_forms.specs.declared.calls.Answer.TheVariants.{Done};
ghost use Rattle.case_forms.specs.declared.calls.State.TheVariants as states;
ghost use Rattle.spec_tcp.specs.declared.endpoint.SocketTarget.TheVariants.{ListenerAt, EndpointAt};
ghost use Rattle.spec_tcp.specs.Bounds.{HasRoom};
ghost use Rattle.spec_tcp.specs.HostTcp.{dead, with_socket, is_listening, queue_of, socket_target};
ghost use Rattle.spec_tcp.specs.Calls.Send.{after_send};
ghost use Rattle.spec_tcp.specs.Calls.Receive.{after_recv};
ghost use Rattle.spec_tcp.specs.Calls.Close.{after_abort, after_close, after_gone, after_shut, without_listener};
ghost use Rattle.spec_tcp.specs.Calls.Accept.{accepted_from, after_accept, listener_allows};
ghost use Rattle.spec_tcp.specs.Calls.{after_call, call_allows, change, gives_or_in_use, socket_allows, target_allows};
ghost use Rattle.spec_tcp.specs.Endpoints.{new_endpoint};
ghost use Rattle.spec_tcp.specs.Forgetting.{forget_body};
ghost use Rattle.spec_tcp.specs.Signals.{profile_of};
ghost use Rattle.endpoint_state.specs.Waiting.{AreWaiting};

use crate::host_tcp::HostTcp;
use case_forms::{Answer, Call, Header, State, Version};
use endpoint::{endpoint_allows, listener_allows, open_shut_allows};
use segment::OutOfMemory;
use spec_tcp::{Endpoint, Listener, Queue, Socket, SocketTarget, profile_of};
use std::alloc::Global;
use tables::Table;
use window_rules::Profile;

impl HostTcp {
    /// Whether a call may have this answer in a text of this version (RFC 9293, 3.9.1 and 3.10).
    pub(crate) fn allows(&self, version: Version, call: &Call, answer: &Answer) -> bool
        ensures { result ≡ call_allows version self.now call.now answer.now }
    {
        match call {
            Call::Listen(_, port, _) => gives_or_in_use(self.is_listening(*port), answer),
            Call::Connect(_, lport, rport) => {
                gives_or_in_use(self.is_connected(*lport, *rport), answer)
            }
            Call::Await(number) => self.socket_allows(version, *number, call, answer),
            Call::Accept(number) => self.socket_allows(version, *number, call, answer),
            Call::Send(number, _) => self.socket_allows(version, *number, call, answer),
            Call::Recv(number, _) => self.socket_allows(version, *number, call, answer),
            Call::Shut(number) => self.socket_allows(version, *number, call, answer),
            Call::Close(number) => self.socket_allows(version, *number, call, answer),
            Call::Abort(number) => self.socket_allows(version, *number, call, answer),
            Call::Status(number) => self.socket_allows(version, *number, call, answer),
        }
    }

    fn socket_allows(&self, version: Version, number: u32, call: &Call, answer: &Answer) -> bool
        ensures { result ≡ socket_allows version self.now number call.now answer.now }
    {
        match self.target(number) {
            Some(target) => self.target_allows(version, call, answer, target),
            None => matches!(answer, Answer::BadSocket),
        }
    }

    /// Whether a call on a live socket number that names this target may have this answer in a text of this version.
    pub fn target_allows(
        &self,
        version: Version,
        call: &Call,
        answer: &Answer,
        target: SocketTarget,
    ) -> bool
        ensures { result ≡ target_allows version self.now call.now answer.now target }
    {
        match target {
            SocketTarget::ListenerAt(place) => match self.listener_at(place) {
                Some(listener) => listener_allows(version, listener, call, answer),
                None => childless_allows(version, call, answer),
            },
            SocketTarget::EndpointAt(place) => match self.endpoint_at(place) {
                Some(endpoint) => endpoint_allows(version, endpoint, call, answer),
                None => false,
            },
        }
    }

    // `listen`: a listener is opened, on a port with no open listener.
    fn listen(
        &mut self,
        alloc: Global,
        number: u32,
        port: u16,
        backlog: u16,
    ) -> Result<(), OutOfMemory>
        requires room { length self.old.listeners + 1 < 2 ^ 32 }
        requires free { is_listening self.old port ≡ false }
        ensures ok { OnOk result (self.new ≡ with_socket (record self.old {
          listeners = self.old.listeners ++ record { port = port; backlog = backlog; is_open = true; queue = [] } ∷ [];
        }) number (ListenerAt (length self.old.listeners))) }
        ensures err { OnErr result (self.new ≡ self.old) }
    {
        let place = self.listeners.len() as u32;
        let listener = Listener {
            port,
            backlog,
            is_open: true,
            queue: Queue::new(alloc),
        };
        self.sockets.reserve(u64::from(number))?;
        self.listeners.add(listener)?;
        self.sockets.insert(
            u64::from(number),
            new_socket(SocketTarget::ListenerAt(place)),
        )?;
        Ok(())
    }

    // `connect`: an endpoint is opened, in SYN-SENT.
    fn connect(
        &mut self,
        alloc: Global,
        profile: Profile,
        number: u32,
        lport: u16,
        rport: u16,
    ) -> Result<(), OutOfMemory>
        requires room { length self.old.endpoints + 1 < 2 ^ 32 }
        ensures ok { OnOk result (self.new ≡ with_socket (record self.old {
          endpoints = self.old.endpoints ++ new_endpoint lport rport None states.SynSent profile ∷ [];
        }) number (EndpointAt (length self.old.endpoints))) }
        ensures err { OnErr result (self.new ≡ self.old) }
    {
        let place = self.endpoints.len() as u32;
        let endpoint = Endpoint::new(alloc, lport, rport, None, State::SynSent, profile);
        self.sockets.reserve(u64::from(number))?;
        self.endpoints.add(alloc, endpoint)?;
        self.sockets.insert(
            u64::from(number),
            new_socket(SocketTarget::EndpointAt(place)),
        )?;
        Ok(())
    }

    // `send`: the first bytes are accepted.
    #[tactic(auto, using(crate::proofs::BodyLemmas::body_same))]
    fn send(&mut self, number: u32, bytes: &[u8], count: u32) -> Result<(), OutOfMemory>
        requires { All HasRoom self.old.endpoints }
        ensures ok { OnOk result (self.new ≡ forget_body (change self.old number (after_send bytes.now count))) }
        ensures err { OnErr result (self.new ≡ self.old) }
    {
        match self.target(number) {
            Some(SocketTarget::EndpointAt(place)) => self.endpoints.send(place, bytes, count),
            Some(SocketTarget::ListenerAt(_)) | None => Ok(()),
        }
    }

    // `shut`: sending is ended, or a listener ends; the socket number stays live.
    #[tactic(auto, using(crate::proofs::BodyLemmas::body_same))]
    fn shut(&mut self, number: u32)
        requires { All HasRoom self.old.endpoints }
        ensures { self.new ≡ forget_body (after_gone self.old number after_shut self.old.sockets) }
    {
        match self.target(number) {
            Some(SocketTarget::EndpointAt(place)) => self.endpoints.shut(place),
            Some(SocketTarget::ListenerAt(place)) => self.end_listener(place),
            None => {}
        }
    }

    // `recv`: these waiting bytes are delivered.
    #[tactic(auto, using(crate::proofs::BodyLemmas::body_same))]
    fn deliver(&mut self, number: u32, bytes: &[u8])
        requires kept { All HasRoom self.old.endpoints }
        requires waiting { AreWaiting self.old number bytes.now }
        ensures { self.new ≡ forget_body (change self.old number (after_recv bytes.now)) }
    {
        if let Some(SocketTarget::EndpointAt(place)) = self.target(number) {
            self.endpoints.deliver(place, bytes);
        }
    }

    // `close` of what a socket number names.
    #[tactic(auto, using(crate::proofs::BodyLemmas::body_same))]
    fn close(&mut self, number: u32)
        requires { All HasRoom self.old.endpoints }
        ensures { self.new ≡ forget_body
            (after_gone self.old number after_close (dead self.old.sockets number)) }
    {
        match self.target(number) {
            Some(SocketTarget::EndpointAt(place)) => {
                self.endpoints.close(place);
                retire(&mut self.sockets, number);
            }
            Some(SocketTarget::ListenerAt(place)) => {
                self.end_listener(place);
                retire(&mut self.sockets, number);
            }
            None => {}
        }
    }

    // `abort` of what a socket number names.
    #[tactic(auto, using(crate::proofs::BodyLemmas::body_same))]
    fn abort(&mut self, number: u32)
        requires { All HasRoom self.old.endpoints }
        ensures { self.new ≡ forget_body
            (after_gone self.old number after_abort (dead self.old.sockets number)) }
    {
        match self.target(number) {
            Some(SocketTarget::EndpointAt(place)) => {
                self.endpoints.abort(place);
                retire(&mut self.sockets, number);
            }
            Some(SocketTarget::ListenerAt(place)) => {
                self.end_listener(place);
                retire(&mut self.sockets, number);
            }
            None => {}
        }
    }

    // A listener ends, and with it its children that were not accepted.
    fn end_listener(&mut self, place: u32)
        requires { All HasRoom self.old.endpoints }
        ensures { self.new ≡ forget_body (without_listener self.old place) }
    {
        self.listeners.close(place);
        self.endpoints.orphan(place);
    }

    // `accept`: the first child of the listener's queue gets a socket number.
    #[tactic(auto, using(crate::proofs::BodyLemmas::body_same))]
    fn accept(&mut self, number: u32, child_number: u32) -> Result<(), OutOfMemory>
        requires { All HasRoom self.old.endpoints }
        ensures ok { OnOk result (self.new ≡ forget_body
            (option_map_or (after_accept self.old child_number) (socket_target self.old number) self.old)) }
        ensures err { OnErr result (self.new ≡ self.old) }
    {
        match self.target(number) {
            Some(SocketTarget::ListenerAt(place)) => self.accept_from(place, child_number),
            Some(SocketTarget::EndpointAt(_)) | None => Ok(()),
        }
    }

    fn accept_from(&mut self, place: u32, child_number: u32) -> Result<(), OutOfMemory>
        requires { All HasRoom self.old.endpoints }
        ensures ok { OnOk result (self.new ≡ forget_body
            (accepted_from self.old place child_number (queue_of self.old place))) }
        ensures err { OnErr result (self.new ≡ self.old) }
    {
        let Some(child) = self.first_child(place) else {
            return Ok(());
        };
        self.sockets.insert(
            u64::from(child_number),
            new_socket(SocketTarget::EndpointAt(child)),
        )?;
        self.endpoints.accept(child);
        self.listeners.leave(place);
        Ok(())
    }

    // The first child in a listener's queue.
    fn first_child(&self, place: u32) -> Option<u32>
        ensures { result ≡ slice_get (queue_of self.now place) 0 }
    {
        match self.listener_at(place) {
            Some(listener) => listener.queue.first(),
            None => None,
        }
    }

    // What ends once a call is answered `ok`: for `shut` the sending or a listener, for `close` and `abort` what the
    // socket number names.
    #[tactic(auto, using(crate::proofs::BodyLemmas::body_same))]
    fn end(&mut self, profile: Profile, call: &Call)
        requires { All HasRoom self.old.endpoints }
        ensures { self.new ≡ forget_body (after_call profile self.old call.now Done) }
    {
        match call {
            Call::Shut(number) => self.shut(*number),
            Call::Close(number) => self.close(*number),
            Call::Abort(number) => self.abort(*number),
            Call::Listen(_, _, _)
            | Call::Connect(_, _, _)
            | Call::Await(_)
            | Call::Accept(_)
            | Call::Send(_, _)
            | Call::Recv(_, _)
            | Call::Status(_) => {}
        }
    }

    /// The host's state after a call got an answer that it may have (RFC 9293, 3.9.1 and 3.10). If memory runs out,
    /// nothing is changed.
    #[tactic(auto, using(crate::proofs::BodyLemmas::body_same))]
    pub(crate) fn do_call(
        &mut self,
        alloc: Global,
        header: &Header,
        call: &Call,
        answer: &Answer,
    ) -> Result<(), OutOfMemory>
        requires allowed { call_allows header.now.version self.old call.now answer.now ≡ true }
        requires kept { All HasRoom self.old.endpoints }
        requires endpoints { length self.old.endpoints + 1 < 2 ^ 32 }
        requires listeners { length self.old.listeners + 1 < 2 ^ 32 }
        ensures ok { OnOk result
            (self.new ≡ forget_body (after_call (profile_of header.now) self.old call.now answer.now)) }
        ensures err { OnErr result (self.new ≡ self.old) }
    {
        let profile = profile_of(header);
        match (call, answer) {
            (Call::Listen(_, port, backlog), Answer::Given(number)) => {
                self.listen(alloc, *number, *port, *backlog)
            }
            (Call::Connect(_, lport, rport), Answer::Given(number)) => {
                self.connect(alloc, profile, *number, *lport, *rport)
            }
            (Call::Accept(number), Answer::Given(child)) => self.accept(*number, *child),
            (Call::Send(number, bytes), Answer::Given(count)) => {
                self.send(*number, bytes.as_slice(), *count)
            }
            (Call::Recv(number, _), Answer::Bytes(bytes)) => {
                self.deliver(*number, bytes.as_slice());
                Ok(())
            }
            (call, Answer::Done) => {
                self.end(profile, call);
                Ok(())
            }
            (
                Call::Listen(_, _, _)
                | Call::Connect(_, _, _)
                | Call::Await(_)
                | Call::Accept(_)
                | Call::Send(_, _)
                | Call::Recv(_, _)
                | Call::Shut(_)
                | Call::Close(_)
                | Call::Abort(_)
                | Call::Status(_),
                _,
            ) => Ok(()),
        }
    }
}

fn gives_or_in_use(used: bool, answer: &Answer) -> bool
    ensures { result ≡ gives_or_in_use used answer.now }
{
    match answer {
        Answer::Given(_) => !used,
        Answer::InUse => used,
        Answer::Done
        | Answer::Bytes(_)
        | Answer::Again
        | Answer::Eof
        | Answer::Closed
        | Answer::NotConn
        | Answer::Refused
        | Answer::Reset
        | Answer::Timeout
        | Answer::BadSocket
        | Answer::State(_) => false,
    }
}

// A call on an open listener with no child.
fn childless_allows(version: Version, call: &Call, answer: &Answer) -> bool
    ensures { result ≡ listener_allows version false [] call.now answer.now }
{
    match call {
        Call::Accept(_) => matches!(answer, Answer::Again),
        Call::Await(_) | Call::Send(_, _) | Call::Recv(_, _) => {
            matches!(answer, Answer::NotConn)
        }
        Call::Shut(_) => open_shut_allows(version, answer),
        Call::Close(_) | Call::Abort(_) => matches!(answer, Answer::Done),
        Call::Status(_) => matches!(answer, Answer::State(State::Listen)),
        Call::Listen(_, _, _) | Call::Connect(_, _, _) => false,
    }
}

// A new socket: its number is live until `close` or `abort`.
fn new_socket(target: SocketTarget) -> Socket
    ensures { result ≡ record { target = target; live = true } }
{
    Socket { target, live: true }
}

// A socket number is no longer live.
fn retire(sockets: &mut Table<Socket>, number: u32)
    ensures { sockets.new.entries ≡ dead sockets.old.entries number }
{
    if let Some(socket) = sockets.get(u64::from(number)).copied() {
        let ended = Socket {
            live: false,
            ..socket
        };
        match sockets.insert(u64::from(number), ended) {
            Ok(_) => {}
            Err(_) => unreachable!(),
        }
    }
}
