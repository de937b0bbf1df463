//! What is true of all orders of pushes and pops. This function does nothing: what it ensures holds wherever it is called.
ghost use Rattle.std.specs.Prelude.{◌≡◌, ◌<◌, List, All, Contains};
ghost use Rattle.job_queue.specs.declared.view.Fed.{Fed};
ghost use Rattle.job_queue.specs.Seen.{Meet, OfFeeder, OfTaker};

/// First in, first out: what is left of a feeder's jobs was stored after each of them that was taken, by whichever taker.
pub fn what_is_left_was_stored_later<J>()
    ensures { (fs : List (OfFeeder J)) (ts : List (OfTaker J)) (left : List (Fed J)) (f : OfFeeder J) (t : OfTaker J)
        → Contains fs f → Contains ts t → Meet fs ts left
        → All (λ (x : Fed J). x.feeder ≡ f.number → All (λ (y : Fed J). y.feeder ≡ f.number → x.place < y.place) left) t.taken }
{}
