ghost use Rattle.std.specs.Prelude.{◌≡◌, ◌≤◌, length};
ghost use Rattle.requests.specs.Answers.{failure_body, failure_bytes, failure_text};

use accept::CallFault;

/// How many bytes the longest body of a failure has.
pub const LONGEST_FAILURE: usize = 13;

/// What an answer of status 500 says to a request that was given up for this fault of a call: its body.
pub fn failure_body(failure: CallFault) -> &'static str
    ensures body { result.now ≡ failure_body failure }
    ensures short { length result.now ≤ LONGEST_FAILURE }
{
    match failure {
        CallFault::Memory => "out of memory",
        CallFault::PassClosed => "pass closed",
        CallFault::InDoubt => "call in doubt",
        CallFault::LogSpent => "log spent",
    }
}

/// The whole answer with this body, as bytes that need no memory. The connection ends after it.
pub fn failure_text(fault: CallFault) -> &'static [u8]
    ensures { result.now ≡ failure_text fault }
{
    failure_bytes(fault)
}

// The bodies once more, each after its head.
fn failure_bytes(fault: CallFault) -> &'static [u8]
    ensures { result.now ≡ failure_bytes fault }
{
    match fault {
        CallFault::Memory => b"HTTP/1.1 500 Internal Server Error\r\n\
            Content-Type: text/plain; charset=utf-8\r\nContent-Length: 13\r\nConnection: close\r\n\r\nout of memory",
        CallFault::PassClosed => b"HTTP/1.1 500 Internal Server Error\r\n\
            Content-Type: text/plain; charset=utf-8\r\nContent-Length: 11\r\nConnection: close\r\n\r\npass closed",
        CallFault::InDoubt => b"HTTP/1.1 500 Internal Server Error\r\n\
            Content-Type: text/plain; charset=utf-8\r\nContent-Length: 13\r\nConnection: close\r\n\r\ncall in doubt",
        CallFault::LogSpent => b"HTTP/1.1 500 Internal Server Error\r\n\
            Content-Type: text/plain; charset=utf-8\r\nContent-Length: 9\r\nConnection: close\r\n\r\nlog spent",
    }
}
