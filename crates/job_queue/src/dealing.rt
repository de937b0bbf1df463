//! The passes of a new queue are made. A number of which contracts alone speak is named in a body by `let _`.
ghost use Rattle.std.specs.Prelude.{◌≡◌, ◌<◌, ◌≤◌, ◌+◌, ◌^◌, [], map, vec_len, vec_capacity};
ghost use Rattle.std.specs.List.{range_with_len};
ghost use Rattle.crossbeam_queue.specs.Passes.{view, IsPassOf};
ghost use Rattle.job_queue.specs.Views.{one, fresh};
ghost use Rattle.job_queue.specs.declared.view.View.TheVariants.{Opener};
ghost use Rattle.job_queue.specs.Seen.{queue_id, fresh_feeder, fresh_taker};

use crate::pass::{Feeder, Taker};
use crate::rule::{Deal, Hand, PromiseFeeder, PromiseTaker, Ring};

// So many feeders are to be made.
pub(crate) fn promise_feeders<J>(ring: &Ring<J>, maker: &mut Hand<J>, feeders: u64)
    requires queue { IsPassOf ring.now maker.old }
    requires view { view maker.old ≡ Opener 0 0 0 }
    ensures queue { IsPassOf ring.now maker.new }
    ensures view { view maker.new ≡ Opener feeders 0 0 }
{
    for n in 0..feeders {
        promise_feeder(ring, maker, n);
    }
}

fn promise_feeder<J>(ring: &Ring<J>, maker: &mut Hand<J>, feeders: u64)
    requires queue { IsPassOf ring.now maker.old }
    requires view { view maker.old ≡ Opener feeders 0 0 }
    ensures queue { IsPassOf ring.now maker.new }
    ensures view { view maker.new ≡ Opener (feeders + 1) 0 0 }
{
    let _more = ring.another::<PromiseFeeder>(maker);
}

// So many takers are to be made.
pub(crate) fn promise_takers<J>(ring: &Ring<J>, maker: &mut Hand<J>, feeders: u64, takers: u64)
    requires queue { IsPassOf ring.now maker.old }
    requires view { view maker.old ≡ Opener feeders 0 0 }
    ensures queue { IsPassOf ring.now maker.new }
    ensures view { view maker.new ≡ Opener feeders takers 0 }
{
    for n in 0..takers {
        promise_taker(ring, maker, feeders, n);
    }
}

fn promise_taker<J>(ring: &Ring<J>, maker: &mut Hand<J>, feeders: u64, takers: u64)
    requires queue { IsPassOf ring.now maker.old }
    requires view { view maker.old ≡ Opener feeders takers 0 }
    ensures queue { IsPassOf ring.now maker.new }
    ensures view { view maker.new ≡ Opener feeders (takers + 1) 0 }
{
    let _ = feeders;
    let _ = takers;
    let _more = ring.another::<PromiseTaker>(maker);
}

// The next pass.
fn deal<J>(ring: &Ring<J>, maker: &mut Hand<J>, feeders: u64, takers: u64, number: u64) -> Hand<J>
    requires queue { IsPassOf ring.now maker.old }
    requires view { (view maker.old ≡ Opener feeders takers number) × (number < feeders + takers) }
    ensures queue { IsPassOf ring.now maker.new × IsPassOf ring.now result }
    ensures view { (view maker.new ≡ Opener feeders takers (number + 1)) × (view result ≡ one (fresh feeders takers number)) }
{
    let _ = feeders;
    let _ = takers;
    let _ = number;
    ring.another::<Deal>(maker)
}

fn feeder<J>(hand: Hand<J>, feeders: u64, takers: u64, number: u64) -> Feeder<J>
    requires { (hand.me.1 ≡ []) × (view hand ≡ one (fresh feeders takers number)) × (number < feeders) }
    ensures { result ≡ fresh_feeder (queue_id hand.table_id feeders takers) number }
{
    let _ = feeders;
    let _ = takers;
    Feeder {
        hand,
        number,
        stored: 0,
    }
}

fn taker<J>(hand: Hand<J>, feeders: u64, takers: u64, number: u64) -> Taker<J>
    requires { (hand.me.1 ≡ []) × (view hand ≡ one (fresh feeders takers number)) × (feeders ≤ number) }
    ensures { result ≡ fresh_taker (queue_id hand.table_id feeders takers) number }
{
    let _ = feeders;
    let _ = takers;
    Taker { hand, number }
}

pub(crate) fn deal_feeders<J>(
    ring: &Ring<J>,
    maker: &mut Hand<J>,
    empty: Vec<Feeder<J>>,
    feeders: u64,
    takers: u64,
) -> Vec<Feeder<J>>
    requires queue { IsPassOf ring.now maker.old }
    requires view { view maker.old ≡ Opener feeders takers 0 }
    requires empty { (empty.items ≡ []) × (vec_len empty ≡ 0) × (vec_capacity empty ≡ feeders) }
    ensures queue { IsPassOf ring.now maker.new }
    ensures view { view maker.new ≡ Opener feeders takers feeders }
    ensures passes { result.items ≡ map (fresh_feeder (queue_id ring.now.table.shared.table_id feeders takers)) (range_with_len 0 feeders) }
{
    let mut dealt = empty;
    for n in 0..feeders {
        let hand = deal(ring, maker, feeders, takers, n);
        dealt.push_reserved(feeder(hand, feeders, takers, n));
    }
    dealt
}

pub(crate) fn deal_takers<J>(
    ring: &Ring<J>,
    maker: &mut Hand<J>,
    empty: Vec<Taker<J>>,
    feeders: u64,
    takers: u64,
) -> Vec<Taker<J>>
    requires queue { IsPassOf ring.now maker.old }
    requires view { (view maker.old ≡ Opener feeders takers feeders) × (feeders + takers < 2 ^ 64) }
    requires empty { (empty.items ≡ []) × (vec_len empty ≡ 0) × (vec_capacity empty ≡ takers) }
    ensures passes { result.items ≡ map (fresh_taker (queue_id ring.now.table.shared.table_id feeders takers)) (range_with_len feeders takers) }
{
    let mut dealt = empty;
    for n in 0..takers {
        let number = feeders + n;
        let hand = deal(ring, maker, feeders, takers, number);
        dealt.push_reserved(taker(hand, feeders, takers, number));
    }
    dealt
}
