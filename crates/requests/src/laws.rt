ghost use Rattle.std.specs.Prelude.{ℕ, List};
ghost use Rattle.requests.specs.Laws.{HaveOneRequest, KeepsRequest, RefusesForGood, HoldsNoneIfCut, HaveOneSplit, GoOn};

/// The laws of the request at the front of bytes: there is at most one, with one rest. Bytes after it do not change it.
/// Bytes that are refused begin no request, whatever follows. Bytes that are cut short hold none.
pub fn one_request()
    ensures one { (bytes : List ℕ) → HaveOneRequest bytes }
    ensures kept { (bytes more : List ℕ) → KeepsRequest bytes more }
    ensures refused { (bytes more : List ℕ) → RefusesForGood bytes more }
    ensures cut { (bytes : List ℕ) → HoldsNoneIfCut bytes }
{}

/// The laws of all requests at the front of bytes: they are one list, with one rest. A request after others is one
/// more.
pub fn one_split()
    ensures one { (bytes : List ℕ) → HaveOneSplit bytes }
    ensures more { (bytes : List ℕ) → GoOn bytes }
{}
