//! A law of streams under another number of shards. The function does nothing: its contract is the law.
ghost use Rattle.std.specs.Prelude.{◌≡◌, ◌<◌, ℕ, Some};
ghost use Rattle.std.specs.FinMap as finite;
ghost use Rattle.labels.specs.declared.key.StreamKey.{StreamKey};
ghost use Rattle.labels.specs.Shards.{shard};
ghost use Rattle.accept.specs.declared.image.StreamImage.{StreamImage};
ghost use Rattle.accept.specs.Rooms.{Streams};
ghost use Rattle.split.specs.Maps.{AreApart, IsSplit};

/// A split keeps the streams: each is in the shard of its key with what it had, none is lost and none is new. To split
/// them again under the first number gives back what was there.
pub fn split_keeps_streams()
    ensures kept { (n m : ℕ) (olds news : ℕ → Streams) → 0 < m → AreApart n olds
        → IsSplit n m olds news
        → (s : ℕ) (k : StreamKey) (x : StreamImage) → s < n → finite.get (olds s) k ≡ Some x
        → finite.get (news (shard k m)) k ≡ Some x }
    ensures not_new { (n m : ℕ) (olds news : ℕ → Streams) → IsSplit n m olds news
        → (s : ℕ) (k : StreamKey) (x : StreamImage) → s < m → finite.get (news s) k ≡ Some x
        → finite.get (olds (shard k n)) k ≡ Some x }
    ensures apart { (n m : ℕ) (olds news : ℕ → Streams) → IsSplit n m olds news → AreApart m news }
    ensures one { (n m : ℕ) (olds news others : ℕ → Streams) → IsSplit n m olds news
        → IsSplit n m olds others
        → (s : ℕ) → s < m → news s ≡ others s }
    ensures back { (n m : ℕ) (olds news again : ℕ → Streams) → 0 < m → AreApart n olds
        → IsSplit n m olds news
        → IsSplit m n news again → (s : ℕ) → s < n → again s ≡ olds s }
{}
