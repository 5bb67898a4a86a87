//! A look, a meeting, and the end of a pass.
ghost use Rattle.std.specs.Prelude.{◌<◌, false};
ghost use Rattle.ingester.specs.Calls.{IsPassOf};
ghost use Rattle.headline.specs.Threads.{IsLooked, IsMet, Happens, Closed};

use disk::Disk;
use ingester::{Ingester, Pass};

/// Looks at a shard, and answers the length of its history.
pub fn look_once<D: Disk + Drop>(ingester: &Ingester<D>, pass: &mut Pass, shard: u32) -> u64
    requires pass { IsPassOf ingester.now pass.old }
    requires shard { shard < ingester.now.about.shards }
    ensures { IsLooked ingester.now pass.old shard pass.new }
{
    ingester.look(pass, shard)
}

/// Two passes meet.
pub fn meet_once<D: Disk + Drop>(ingester: &Ingester<D>, one: &mut Pass, two: &mut Pass)
    requires one { IsPassOf ingester.now one.old }
    requires two { IsPassOf ingester.now two.old }
    ensures one { IsMet ingester.now one.old two.old.caller two.new.caller.seen one.new }
    ensures two { IsMet ingester.now two.old one.old.caller one.new.caller.seen two.new }
{
    ingester.meet(one, two);
}

/// A pass makes no call from now on.
pub fn close_once<D: Disk + Drop>(ingester: &Ingester<D>, pass: &mut Pass)
    requires pass { IsPassOf ingester.now pass.old }
    ensures { Happens false ingester.now pass.old Closed pass.new }
{
    let _ = ingester;
    pass.close();
}
