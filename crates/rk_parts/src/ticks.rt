//! The present tick, which all nine parts have.

ghost use Rattle.std.specs.Prelude.{◌≡◌, ◌<◌, ◌+◌, ℕ, map};
ghost use Rattle.rk_parts.specs.Hosted.{AreHosted};
ghost use Rattle.rk_parts.specs.Joined.{present_of, plain_of};
ghost use Rattle.rk_parts.specs.Noted.{AreNoted};
ghost use Rattle.rk_parts.specs.Whole.{AreWhole, at_tick, group_at_tick};

use crate::parts::{AllParts, ClusterPart};
use rk_groups::group::GroupPart;

/// The present tick, as the lent parts have it.
pub fn present(clusters: &[ClusterPart]) -> u32
    ensures { result ≡ present_of clusters.now }
{
    match clusters {
        [first, ..] => first.present,
        [] => 0,
    }
}

/// Sets the tick of cluster parts.
fn set_clusters(clusters: &mut [ClusterPart], tick: u32)
    ensures { clusters.new ≡ map (at_tick tick) clusters.old }
{
    for at in 0..clusters.len() {
        clusters[at].present = tick;
    }
}

/// Sets the tick of group parts.
fn set_groups(groups: &mut [GroupPart], tick: u32)
    ensures { groups.new ≡ map (group_at_tick tick) groups.old }
{
    for at in 0..groups.len() {
        groups[at].present = tick;
    }
}

/// A tick passes in all parts.
pub fn pass_tick(all: &mut AllParts)
    requires whole { AreWhole all.old }
    requires below { present_of all.old.clusters < 4294967295 }
    ensures passed { plain_of all.new ≡ record (plain_of all.old) { present = present_of all.old.clusters + 1 } }
    ensures whole { AreWhole all.new }
    ensures noted { (count : ℕ) → AreNoted count all.old.clusters → AreNoted count all.new.clusters }
    ensures hosted { AreHosted all.old.clusters → AreHosted all.new.clusters }
    ensures scenario { all.new.scenario ≡ all.old.scenario }
{
    let tick = present(&all.clusters) + 1;
    set_clusters(&mut all.clusters, tick);
    set_groups(&mut all.groups, tick);
    all.table.present = tick;
}
