//! One pass of a queue takes over what all others stand for.
ghost use Rattle.std.specs.Prelude.{◌≡◌, ◌≤◌, ◌<◌, ◌++◌, map, vec_len, All};
ghost use Rattle.crossbeam_queue.specs.Passes.{view, IsPassOf};
ghost use Rattle.job_queue.specs.Views.{records_of};
ghost use Rattle.job_queue.specs.declared.view.View.TheVariants.{Records};
ghost use Rattle.job_queue.specs.Seen.{OfFeeder, OfTaker};
ghost use Rattle.job_queue.specs.Records.{feeder_known, taker_known, all_known};

use crate::pass::{Feeder, Taker};
use crate::rule::{Gather, Hand, Ring};

fn absorb<J>(ring: &Ring<J>, hand: &mut Hand<J>, other: Hand<J>)
    requires queue { IsPassOf ring.now hand.old × IsPassOf ring.now other }
    requires views { (view hand.old ≡ Records (records_of (view hand.old))) × (view other ≡ Records (records_of (view other))) }
    ensures queue { IsPassOf ring.now hand.new }
    ensures view { view hand.new ≡ Records (records_of (view other) ++ records_of (view hand.old)) }
{
    ring.absorb::<Gather>(hand, other);
}

fn absorb_takers<J>(ring: &Ring<J>, hand: &mut Hand<J>, takers: Vec<Taker<J>>)
    requires queue { IsPassOf ring.now hand.old × All (λ (t : OfTaker J). t.queue.table ≡ ring.now.table.shared.table_id) takers.items }
    requires view { view hand.old ≡ Records (records_of (view hand.old)) }
    ensures queue { IsPassOf ring.now hand.new }
    ensures view { view hand.new ≡ Records (map taker_known takers.items ++ records_of (view hand.old)) }
    ensures numbers { All (λ (t : OfTaker J). t.queue.feeders ≤ t.number) takers.items }
{
    let mut left = takers;
    while let Some(taker) = left.pop() {
        let Taker {
            hand: theirs,
            number: _,
        } = taker;
        absorb(ring, hand, theirs);
    }
    left.destroy_empty();
}

fn absorb_feeders<J>(ring: &Ring<J>, hand: &mut Hand<J>, feeders: Vec<Feeder<J>>)
    requires queue { IsPassOf ring.now hand.old × All (λ (f : OfFeeder J). f.queue.table ≡ ring.now.table.shared.table_id) feeders.items }
    requires view { view hand.old ≡ Records (records_of (view hand.old)) }
    ensures queue { IsPassOf ring.now hand.new }
    ensures view { view hand.new ≡ Records (map feeder_known feeders.items ++ records_of (view hand.old)) }
    ensures numbers { All (λ (f : OfFeeder J). f.number < f.queue.feeders) feeders.items }
{
    let mut left = feeders;
    while let Some(feeder) = left.pop() {
        let Feeder {
            hand: theirs,
            number: _,
            stored: _,
        } = feeder;
        absorb(ring, hand, theirs);
    }
    left.destroy_empty();
}

// One pass that stands for all.
pub(crate) fn absorb_all<J>(
    ring: &Ring<J>,
    feeders: Vec<Feeder<J>>,
    takers: Vec<Taker<J>>,
) -> Hand<J>
    requires feeders { All (λ (f : OfFeeder J). f.queue.table ≡ ring.now.table.shared.table_id) feeders.items }
    requires takers { All (λ (t : OfTaker J). t.queue.table ≡ ring.now.table.shared.table_id) takers.items }
    requires some { 0 < vec_len feeders }
    ensures queue { IsPassOf ring.now result }
    ensures view { view result ≡ Records (all_known feeders.items takers.items) }
    ensures below { All (λ (f : OfFeeder J). f.number < f.queue.feeders) feeders.items }
    ensures above { All (λ (t : OfTaker J). t.queue.feeders ≤ t.number) takers.items }
{
    let mut feeders = feeders;
    let Some(last) = feeders.pop() else {
        unreachable!()
    };
    let Feeder {
        hand: mut own,
        number: _,
        stored: _,
    } = last;
    absorb_feeders(ring, &mut own, feeders);
    absorb_takers(ring, &mut own, takers);
    own
}
