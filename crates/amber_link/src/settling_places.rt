//! Moves batches from a `Downstream` of one worker to an `Upstream` of another. Rests on `settle` of `ends`.

ghost use Rattle.std.specs.Prelude.{All, ◌≡◌, ◌<◌, ◌≤◌, ℕ, Bool, is_ok, length, map, slice_index_or};
ghost use Rattle.amber_link.specs.Links.{AreLinked};
ghost use Rattle.amber_link.specs.Sides.{Settles, have_builders_ended, without_room};
ghost use Rattle.amber_link.specs.declared.upstreams.Upstream.{Upstream as OneUpstream};
ghost use Rattle.amber_link.specs.declared.downstreams.Downstream.{Downstream as OneDownstream};

use crate::downstreams::Downstream;
use crate::ends::settle;
use crate::upstreams::Upstream;
use std::alloc::AllocError;

/// Moves all that was made for the receiver at one place into the inbox of the sender at another place, where these hold
/// the two ends of one link.
pub fn settle_at(
    outs: &mut [Downstream],
    j: usize,
    ins: &mut [Upstream],
    k: usize,
) -> Result<(), AllocError>
    requires out_there { j < length outs.old }
    requires in_there { k < length ins.old }
    requires linked { (one : OneDownstream) (other : OneUpstream)
        → AreLinked (slice_index_or outs.old j one).link (slice_index_or ins.old k other).link }
    ensures settles { Settles (is_ok result) (record { from = j; to = k })
        (record { outs = map without_room outs.old; ins = ins.old })
        (record { outs = map without_room outs.new; ins = ins.new }) }
    ensures taken { (n : ℕ) → All (λ one. one.taken ≤ n) ins.old
        → All (λ one. one.taken ≤ n) ins.new }
    ensures built { have_builders_ended ins.new ≡ have_builders_ended ins.old }
    ensures made { (n : ℕ) → All (λ one. one.link.kept.made ≤ n) outs.old
        → All (λ one. one.link.kept.made ≤ n) outs.new }
    ensures ended { (b : Bool) → All (λ one. one.link.kept.ended ≡ b) outs.old
        → All (λ one. one.link.kept.ended ≡ b) outs.new }
{
    settle(&mut outs[j].link, &mut ins[k].link)
}
