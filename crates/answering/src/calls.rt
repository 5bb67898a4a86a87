ghost use Rattle.std.specs.Prelude.{◌≡◌, ◌≤◌, Bool, false, [], All, Result};
ghost use Rattle.std.specs.VecDeque.{deque_len, deque_capacity};
ghost use Rattle.accept.specs.Calls.{AreNumbers};
ghost use Rattle.accept.specs.declared.call.Call.{Call};
ghost use Rattle.accept.specs.declared.call.Reply.{Reply};
ghost use Rattle.accept.specs.declared.fault.CallFault.{CallFault};
ghost use Rattle.answering.specs.Calls.{CallsGive, max_window};

use accept::{Call, CallFault, Reply};
use std::alloc::Global;
use std::collections::VecDeque;
use std::sync::Wait;

/// What makes the calls of requests.
pub trait Calls {
    /// What a caller keeps from call to call.
    type Pass;

    /// By this pass calls may be made.
    ghost is_ready: { Self → Self.Pass → Type 0 };

    /// Relates a pass before a call, the call, what came of it, and the pass after it. A call has a reply, or it fails,
    /// and its request is answered by a status 500. The `Bool` tells whether the call just before it, of those that
    /// are made together, is in doubt.
    ghost gives: { Self → Bool → Self.Pass → Call → Result Reply CallFault → Self.Pass → Type 0 };

    /// Makes a call.
    ///
    /// # Errors
    ///
    /// Why the request that asks for it ends.
    fn call<R: Wait>(
        &self,
        rt: &R,
        alloc: Global,
        pass: &mut Self::Pass,
        call: Call,
    ) -> Result<Reply, CallFault>
        requires ready { is_ready self.now pass.old }
        requires numbers { AreNumbers call }
        ensures ready { is_ready self.now pass.new }
        ensures gives { gives self.now false pass.old call result pass.new };

    /// Makes up to 64 calls, as if by `call` one after another in their order. They are taken out of `calls`, and the
    /// outcome of each is put into `outcomes`, which has room for them.
    fn call_all<R: Wait>(
        &self,
        rt: &R,
        alloc: Global,
        pass: &mut Self::Pass,
        calls: &mut VecDeque<Call>,
        outcomes: &mut VecDeque<Result<Reply, CallFault>>,
    )
        requires ready { is_ready self.now pass.old }
        requires few { deque_len calls.old ≤ max_window }
        requires numbers { All AreNumbers calls.old.items }
        requires empty { outcomes.old.items ≡ [] }
        requires room { deque_len calls.old ≤ deque_capacity outcomes.old }
        ensures ready { is_ready self.now pass.new }
        ensures given { CallsGive (gives self.now) pass.old calls.old.items
            outcomes.new.items pass.new }
        ensures taken { calls.new.items ≡ [] }
        ensures lens { (deque_len calls.new ≡ 0) × (deque_len outcomes.new ≡ deque_len calls.old) }
        ensures capacities { (deque_capacity calls.new ≡ deque_capacity calls.old)
            × (deque_capacity outcomes.new ≡ deque_capacity outcomes.old) };
}
