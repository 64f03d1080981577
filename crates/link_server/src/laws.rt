//! Laws of the definitions.
ghost use Rattle.std.specs.Prelude.{◌≡◌, ◌⊎◌, ◌+◌, ◌++◌, ℕ, List, [], ◌∷◌, Bool, true, false, replicate, codes};
ghost use Rattle.dev_card.specs.Card.{Card};
ghost use Rattle.link_server.specs.declared.orders.Order.TheVariants.{Set};
ghost use Rattle.link_server.specs.Orders.{order_of};
ghost use Rattle.link_server.specs.Runs.{LinkAt, LinkRun, link_run, is_open, new_link};
ghost use Rattle.link_server.specs.Ends.{level_byte, IsAllTaken, IsQuitTaken, IsBadLeft};

/// A stream leaves the same link and board and has the same answers however it is cut: the run of two joined lists is
/// that of the first, and then, from what it leaves, that of the second.
pub fn a_stream_may_be_cut_anywhere()
    ensures end { (at : LinkAt) (front back : List ℕ) →
        (link_run at (front ++ back)).end ≡ (link_run (link_run at front).end back).end }
    ensures answers { (at : LinkAt) (front back : List ℕ) →
        (link_run at (front ++ back)).answers
        ≡ (link_run at front).answers ++ (link_run (link_run at front).end back).answers }
    ensures taken { (at : LinkAt) (front back : List ℕ) →
        (link_run at (front ++ back)).taken
        ≡ (link_run at front).taken + (link_run (link_run at front).end back).taken }
{}

/// A run of an open session takes all bytes, or those up to and with the first that quits, or those before the first
/// that is refused. A session that is not open takes none, and nothing changes.
pub fn a_run_ends_after_a_quit_or_before_a_refused_byte()
    ensures of_open { (at : LinkAt) (bytes : List ℕ) → is_open at.link.state ≡ true →
        IsAllTaken at bytes ⊎ (IsQuitTaken at bytes ⊎ IsBadLeft at bytes) }
    ensures of_closed { (at : LinkAt) (bytes : List ℕ) → is_open at.link.state ≡ false →
        link_run at bytes ≡ record { end = at; answers = []; taken = 0 } }
{}

/// Each setting of the three lines has its digit.
pub fn digits_set_the_levels()
    ensures { (tck tms tdi : Bool) →
        order_of (level_byte tck tms tdi) ≡ Set (record { tck = tck; tms = tms; tdi = tdi }) }
{}
