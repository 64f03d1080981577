//! Laws of the definitions.
ghost use Rattle.std.specs.Prelude.{◌≡◌, ◌<◌, ◌≤◌, ◌++◌, ℕ, Bool, false, List, length, codes};
ghost use Rattle.dev_card.specs.Card.{Card};
ghost use Rattle.dev_card.specs.FarEnds.{FarEnd, Told};
ghost use Rattle.dev_card.specs.Padding.{BaseLengths};
ghost use Rattle.stapl_meaning.specs.declared.events.Event.{Event};
ghost use Rattle.stapl_meaning.specs.declared.events.Ending.{Ending};
ghost use Rattle.stapl_meaning.specs.Scopes.{Played};
ghost use Rattle.stapl_meaning.specs.Plays.{play};
ghost use Rattle.written_cable.specs.Signals.{signals_of};
ghost use Rattle.link_server.specs.Runs.{link_run};
ghost use Rattle.link_server.specs.Clients.{bytes_of_signals, answers_of};
ghost use Rattle.link_tool.specs.Sessions.{most_bytes, link_to, first_answers, session_answers, board_left};
ghost use Rattle.drive_laws.specs.HeardRuns.{inputs_in, AnswerAlike, IsSameRun, HasGone, HasHeard};
ghost use Rattle.drive_laws.specs.HeardRuns.{HasReceived, HasGoneOn};

/// A play hears nothing of its far end but the TDO bits of its own clocks: if two far ends answer the clocks of a play
/// on one of them alike, the play on the other one has the same events, the same outcome and the same state.
pub fn a_play_hears_nothing_but_its_clocks()
    ensures { (program : Played) (chosen : List ℕ) (n : ℕ) (base : BaseLengths) (a b : FarEnd) →
        AnswerAlike a b (inputs_in (play program chosen n base a).events) →
        IsSameRun (play program chosen n base a) (play program chosen n base b) }
{}

/// A play that heard the first answers of a link to the bytes of its own clocks and waits is the play on the board of
/// that link: it has the same events and ending, so the same text, and it leaves the board as the link does. This holds
/// of the run of a link over all bytes, and of the session of a file of these bytes and a `Q`, which ends before a wait
/// and takes at most 16,777,216 bytes.
pub fn a_play_over_a_link_is_the_play_on_its_board()
    ensures run { (program : Played) (chosen : List ℕ) (n : ℕ) (base : BaseLengths) (board : List Card)
        (events : List Event) (ending : Ending) → 0 < length board → (sleeps : Bool) →
        let plays = play program chosen n base in
        let bytes = bytes_of_signals sleeps (signals_of events) in
        HasHeard plays events ending → HasReceived events (first_answers board bytes) →
        HasGoneOn plays board events ending (link_run (link_to board) bytes).end.board }
    ensures session { (program : Played) (chosen : List ℕ) (n : ℕ) (base : BaseLengths) (board : List Card)
        (events : List Event) (ending : Ending) → 0 < length board → (sleeps : Bool) →
        let plays = play program chosen n base in
        let bytes = bytes_of_signals sleeps (signals_of events) ++ codes "Q" in
        HasHeard plays events ending → HasReceived events (session_answers board bytes) →
        HasGoneOn plays board events ending (board_left board bytes) }
{}

/// The other way round: a play on a board has the same events and ending if it hears the TDO bits of its clocks; and if
/// no wait is sent, these are what a link to that board answers to their bytes. A session answers so if it takes them
/// all.
pub fn a_link_answers_the_play_on_its_board()
    ensures hears { (program : Played) (chosen : List ℕ) (n : ℕ) (base : BaseLengths) (board : List Card)
        (events : List Event) (ending : Ending) →
        let plays = play program chosen n base in
        HasGone (plays (Told board)) events ending → HasHeard plays events ending }
    ensures run { (program : Played) (chosen : List ℕ) (n : ℕ) (base : BaseLengths) (board : List Card)
        (events : List Event) (ending : Ending) → 0 < length board →
        HasGone (play program chosen n base (Told board)) events ending →
        first_answers board (bytes_of_signals false (signals_of events)) ≡ answers_of (signals_of events) }
    ensures session { (program : Played) (chosen : List ℕ) (n : ℕ) (base : BaseLengths) (board : List Card)
        (events : List Event) (ending : Ending) → 0 < length board →
        let bytes = bytes_of_signals false (signals_of events) in
        HasGone (play program chosen n base (Told board)) events ending → length bytes ≤ most_bytes →
        session_answers board (bytes ++ codes "Q") ≡ answers_of (signals_of events) }
{}
