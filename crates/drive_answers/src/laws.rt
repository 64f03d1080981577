//! Laws of what the player answers.
ghost use Rattle.std.specs.Prelude.{◌≡◌, ℕ, ◌++◌, Bool, List, [], drop, Option};
ghost use Rattle.dev_card.specs.FarEnds.{FarEnd};
ghost use Rattle.stapl_meaning.specs.declared.events.Event.{Event};
ghost use Rattle.stapl_meaning.specs.declared.events.Ending.{Ending};
ghost use Rattle.stapl_meaning.specs.Plays.{Run};
ghost use Rattle.stapl_meaning.specs.Texts.{events_text, ending_line};
ghost use Rattle.play_words.specs.declared.requests.FilePlay.{FilePlay};
ghost use Rattle.play_words.specs.declared.requests.Request.TheVariants.{Play};
ghost use Rattle.code_plays.specs.Plays.{done_with};
ghost use Rattle.play_tool.specs.Answers.{RequestAnswer, WordsAnswer};
ghost use Rattle.link_tool.specs.declared.status.LinkStatus.{LinkStatus};
ghost use Rattle.link_tool.specs.Answers.{RequestAnswer as LinkRequestAnswer};
ghost use Rattle.drive_laws.specs.HeardRuns.{HasHeard, HasReceived};
ghost use Rattle.drive_tool.specs.Words.{play_words};
ghost use Rattle.drive_tool.specs.Driven.{Session, IsDriven};
ghost use Rattle.drive_tool.specs.Plans.{WordsPlan, drive};
ghost use Rattle.drive_answers.specs.DrivenRequests.{AsksForPlay, sent_for, link_contents};

/// A play that a request asks for, without a report, goes over a wire to a link with the same board. If what it heard
/// are the first answers that the link's tool writes for the bytes of its clocks and waits and a `Q`, the text of its
/// events and its ending is what the player answers to the request, with the status of that ending.
pub fn a_play_over_a_link_is_answered_alike()
    ensures { (asked : FilePlay) (contents : List (Option (List ℕ))) (plays : FarEnd → Run) (sleeps : Bool)
        (events : List Event) (ending : Ending) (answers : List ℕ) (status : LinkStatus) →
        AsksForPlay asked.request contents plays → HasHeard plays events ending →
        LinkRequestAnswer (link_contents contents (sent_for sleeps events)) answers status →
        HasReceived events answers →
        RequestAnswer (Play asked) contents
        (events_text asked.request.pins [] events ++ ending_line ending) (done_with ending) }
{}

/// Words come to a play, which is driven to its ending over a wire to a link with the same board. If what was received
/// are the first answers that the tool of the link writes for what was sent, the text that was written is what the
/// player answers to `play` and the words after those that name the wire, with the status of that ending.
pub fn a_driven_play_is_answered_alike()
    ensures { (words : List (List ℕ)) (contents : List (Option (List ℕ))) (sleeps pins : Bool) (plays : FarEnd → Run)
        (session : Session) (ending : Ending) (answers unread : List ℕ) (status : LinkStatus) →
        WordsPlan words contents sleeps (drive pins plays) → IsDriven sleeps pins plays session ending →
        LinkRequestAnswer (link_contents contents session.sent) answers status →
        answers ≡ session.received ++ unread →
        (count : ℕ) ×
        WordsAnswer (play_words (drop count words)) (λ request. contents) session.text (done_with ending) }
{}
